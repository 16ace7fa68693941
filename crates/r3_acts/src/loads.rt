//! The entries of programs and of rows that are loaded.

ghost use Rattle.std.specs.Prelude.{IfOk};
ghost use Rattle.r3_model.specs.Acts.{program_entry, load_entry};
ghost use Rattle.r3_acts.specs.Entries.{IsMadeOn};

use crate::plain::plain;
use r3_entry::{Act, Entry, ProgramText};
use r3_rows::{Cell, Key, Writes};
use r3_value::{Memory, Txt, Val};
use std::alloc::Global;

/// The functions of a program are recorded.
pub fn program_entry(alloc: Global, count: u32, text: ProgramText) -> Entry
    ensures { IsMadeOn count (λ h. program_entry h text) result }
{
    plain(alloc, count, Act::Program { text }, Writes::new(alloc))
}

/// Rows of a table are loaded. Of equal keys the last counts.
pub fn load_entry(
    alloc: Global,
    count: u32,
    table: &Txt,
    rows: &[(Txt, Val)],
) -> Result<Entry, Memory>
    ensures { IfOk result (λ e. IsMadeOn count (λ h. load_entry h table.now rows.now) e) }
{
    let mut writes = Writes::new(alloc);
    'rows: for row in rows {
        let key = Key::User {
            table: table.copy()?,
            key: row.0.copy()?,
        };
        writes.put(key, Some(Cell::Row(row.1.copy()?)))?;
    }
    Ok(plain(alloc, count, Act::Load, writes))
}
