//! A history that can be read.

ghost use Rattle.std.specs.Prelude.{◌≡◌, ◌≤◌, ℕ, List, length, IfOk};
ghost use Rattle.std.specs.Option.{option_copied};
ghost use Rattle.std.specs.List.{filter_map};
ghost use Rattle.r3_entry.specs.declared.entry.Entry.{Entry};
ghost use Rattle.r3_entry.specs.Formed.{IsFormed};
ghost use Rattle.r3_entry.specs.History.{Map, map_at, seen_in};
ghost use Rattle.r3_model.specs.Rows.{view_at};
ghost use Rattle.r3_past.specs.Maps.{cell_in, version_in, versions_in};

use r3_rows::{Cell, Key};
use r3_value::{Memory, Txt};
use std::alloc::Global;

/// A history, read as it stood after its first entries: after as many as an index says.
pub trait Past {
    /// What is kept stands for this history.
    ghost stands: { Self → List Entry → Type 0 };

    /// The rows may be read as of this index.
    ghost reads: { Self → ℕ → Type 0 };

    /// The rows as of an index that may be read.
    ghost map: { Self → ℕ → Map };

    /// A law: the history is formed, its rows are the map's, and those at its length may be read.
    fn is_past(&self)
        ensures formed { (h : List Entry) → stands self.now h → IsFormed h }
        ensures maps { (h : List Entry) (k : ℕ) → stands self.now h → reads self.now k → map self.now k ≡ map_at h k }
        ensures newest { (h : List Entry) → stands self.now h → reads self.now (length h) };

    /// The number of entries.
    fn count(&self) -> u32
        ensures { (h : List Entry) → stands self.now h → result ≡ length h };

    /// What the key stood at.
    fn cell(&self, key: &Key, index: u32) -> Option<&Cell>
        requires { reads self.now index }
        ensures { option_copied result ≡ cell_in (map self.now index) key.now };

    /// The number of the entry that last wrote the key, a deletion counting, or 0.
    fn version(&self, key: &Key, index: u32) -> u32
        requires { reads self.now index }
        ensures { result ≡ version_in (map self.now index) key.now };

    /// The keys of the table from `lo` and below `hi` that were present, in byte order, with their versions.
    /// The bounds have at most 256 bytes.
    fn range(
        &self,
        alloc: Global,
        table: &str,
        lo: &str,
        hi: &str,
        index: u32,
    ) -> Result<Vec<(Txt, u32)>, Memory>
        requires index { reads self.now index }
        requires lo { length lo.now ≤ 256 }
        requires hi { length hi.now ≤ 256 }
        ensures { IfOk result (λ keys. keys.items ≡ filter_map (seen_in table.now lo.now hi.now) (map self.now index)) };
}

/// What a transaction sees as of an index that may be read is what the plain machine shows it there.
pub fn view_is<P: Past>(past: &P)
    ensures { (h : List Entry) (k : ℕ) → P.stands past.now h → P.reads past.now k → versions_in (P.map past.now k) ≡ view_at h k }
{
    past.is_past();
}
