//! All rows as the first entries left them.

ghost use Rattle.std.specs.Prelude.{◌≡◌, ◌≤◌, ◌++◌, ◌∷◌, [], length, filter_map, fold, IfOk, OnOk};
ghost use Rattle.std.specs.FinMap.Entries.{put};
ghost use Rattle.r3_rows.specs.Keys.{key_cmp};
ghost use Rattle.r3_entry.specs.History.{after_entry, map_at, seen_in};

use crate::order::{is_between, is_called};
use crate::writes::entry_at;
use r3_entry::Entry;
use r3_rows::{Cell, Key};
use r3_value::{Memory, Txt};
use std::alloc::Global;
use std::collections::BTreeMap;

/// A key with its last write: the number of the entry, and the cell or None for a deletion.
pub type Row = (Key, (u32, Option<Cell>));

type Rows = BTreeMap<Key, (u32, Option<Cell>)>;

fn copy_cell(cell: &Option<Cell>) -> Result<Option<Cell>, Memory>
    ensures { IfOk result (λ c. c ≡ cell.now) }
{
    match cell {
        None => Ok(None),
        Some(cell) => Ok(Some(cell.copy()?)),
    }
}

// One write, over what stood there.
fn put_write(rows: &mut Rows, number: u32, write: &(Key, Option<Cell>)) -> Result<(), Memory>
    ensures { OnOk result (rows.new.entries ≡ put key_cmp write.now.0 (number, write.now.1) rows.old.entries) }
{
    let key = write.0.copy()?;
    let cell = copy_cell(&write.1)?;
    rows.insert(key, (number, cell))?;
    Ok(())
}

// The writes of one entry.
fn put_writes(rows: &mut Rows, number: u32, entry: &Entry) -> Result<(), Memory>
    ensures { OnOk result (rows.new.entries ≡ after_entry rows.old.entries (number, entry.now)) }
{
    'writes: for write in entry.writes.list() {
        put_write(rows, number, write)?;
    }
    Ok(())
}

fn listed(alloc: Global, rows: Rows) -> Result<Vec<Row>, Memory>
    ensures { IfOk result (λ all. all.items ≡ rows.entries) }
{
    let mut all = Vec::new(alloc);
    'rows: for row in rows {
        all.push(row)?;
    }
    Ok(all)
}

/// The last write of each key by the first entries, in the order of the keys.
pub fn rows_at(alloc: Global, history: &[Entry], index: u32) -> Result<Vec<Row>, Memory>
    requires within { index ≤ length history.now }
    ensures { IfOk result (λ rows. rows.items ≡ map_at history.now index) }
{
    let mut rows = BTreeMap::new(alloc);
    'entries: for i in 0..index {
        let entry = entry_at(history, i);
        put_writes(&mut rows, i + 1, entry)?;
    }
    listed(alloc, rows)
}

// The key with its version, where it is one of the range and present.
fn add_seen(
    keys: &mut Vec<(Txt, u32)>,
    table: &str,
    lo: &str,
    hi: &str,
    row: &Row,
) -> Result<(), Memory>
    ensures { OnOk result (keys.new.items ≡ keys.old.items ++ filter_map (seen_in table.now lo.now hi.now) (row.now ∷ [])) }
{
    match &row.0 {
        Key::User { table: name, key } => match &row.1.1 {
            None => Ok(()),
            Some(_) => {
                if is_called(name.as_str(), table) && is_between(lo, hi, key.as_str()) {
                    keys.push((key.copy()?, row.1.0))?;
                }
                Ok(())
            }
        },
        _ => Ok(()),
    }
}

/// The keys of the table that are present, from `lo` and below `hi`, with their versions.
pub fn seen_in(
    alloc: Global,
    rows: &[Row],
    table: &str,
    lo: &str,
    hi: &str,
) -> Result<Vec<(Txt, u32)>, Memory>
    ensures { IfOk result (λ keys. keys.items ≡ filter_map (seen_in table.now lo.now hi.now) rows.now) }
{
    let mut keys = Vec::new(alloc);
    'rows: for row in rows {
        add_seen(&mut keys, table, lo, hi, row)?;
    }
    Ok(keys)
}
