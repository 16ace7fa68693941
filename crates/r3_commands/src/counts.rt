//! The number of entries.

ghost use Rattle.std.specs.Prelude.{◌≡◌, ◌≤◌, List, length};
ghost use Rattle.r3_entry.specs.declared.entry.Entry.{Entry};

use r3_past::Past;

/// The number of entries of the history.
pub fn count_of<P: Past>(past: &P) -> u32
    requires stands { (h : List Entry) × P.stands past.now h }
    ensures count { (h : List Entry) → P.stands past.now h → result ≡ length h }
    ensures few { result ≤ 1000000 }
{
    past.is_past();
    past.count()
}
