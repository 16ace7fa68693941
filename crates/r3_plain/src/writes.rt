//! The last write of a key.

ghost use Rattle.std.specs.Prelude.{◌≡◌, ◌≤◌, ◌<◌, length, slice_get, Some};
ghost use Rattle.std.specs.Option.{option_map};
ghost use Rattle.std.specs.FinMap.{find};
ghost use Rattle.r3_rows.specs.Keys.{key_cmp};
ghost use Rattle.r3_entry.specs.Formed.{IsFormed};
ghost use Rattle.r3_entry.specs.History.{map_at};

use r3_entry::Entry;
use r3_rows::{Cell, Key};

/// The entry at a place, counted from 0.
pub fn entry_at(history: &[Entry], at: u32) -> &Entry
    requires { at < length history.now }
    ensures { slice_get history.now at ≡ Some result.now }
{
    &history[at as usize]
}

/// The last write of the key by the first entries: the number of its entry, and the cell or None for a deletion.
pub fn last_write<'a>(
    history: &'a [Entry],
    key: &Key,
    index: u32,
) -> Option<(u32, &'a Option<Cell>)>
    requires within { index ≤ length history.now }
    requires formed { IsFormed history.now }
    ensures { option_map (λ w. (w.0, w.1.now)) result ≡ find key_cmp key.now (map_at history.now index) }
{
    'passed: for passed in 0..index {
        let number = index - passed;
        let entry = entry_at(history, number - 1);
        match entry.writes.find(key) {
            Some(cell) => return Some((number, cell)),
            None => {}
        }
    }
    None
}
