//! Keys from texts, and what stands in a cell.

ghost use Rattle.std.specs.Prelude.{◌≡◌, IfOk, option_and_then};
ghost use Rattle.std.specs.Option.{option_copied};
ghost use Rattle.r3_model.specs.Rows.{user_of, flow_of, step_of};

use r3_rows::{Cell, FlowRow, Key, StepRow};
use r3_value::{Memory, Txt, Val};
use std::alloc::Global;

/// The text. One that is too long is answered with want of memory.
pub fn text_of(alloc: Global, text: &str) -> Result<Txt, Memory>
    ensures { IfOk result (λ t. t ≡ text.now) }
{
    match Txt::new(alloc, text) {
        Ok(text) => Ok(text),
        Err(_) => Err(Memory),
    }
}

/// The key of a user's row.
pub fn user_key(alloc: Global, table: &str, key: &str) -> Result<Key, Memory>
    ensures { IfOk result (λ k. k ≡ Key.User table.now key.now) }
{
    let table = text_of(alloc, table)?;
    let key = text_of(alloc, key)?;
    Ok(Key::User { table, key })
}

/// The value of a user's row, if the cell is one.
pub fn user_value<'a>(cell: Option<&'a Cell>) -> Option<&'a Val>
    ensures { option_copied result ≡ option_and_then user_of (option_copied cell.entry) }
{
    match cell {
        None => None,
        Some(cell) => match cell {
            Cell::Row(value) => Some(value),
            Cell::Flow(_) => None,
            Cell::Step(_) => None,
        },
    }
}

/// The workflow, if the cell is one.
pub fn flow_in<'a>(cell: Option<&'a Cell>) -> Option<&'a FlowRow>
    ensures { option_copied result ≡ option_and_then flow_of (option_copied cell.entry) }
{
    match cell {
        None => None,
        Some(cell) => match cell {
            Cell::Row(_) => None,
            Cell::Flow(row) => Some(row),
            Cell::Step(_) => None,
        },
    }
}

/// The step, if the cell is one.
pub fn step_in<'a>(cell: Option<&'a Cell>) -> Option<&'a StepRow>
    ensures { option_copied result ≡ option_and_then step_of (option_copied cell.entry) }
{
    match cell {
        None => None,
        Some(cell) => match cell {
            Cell::Row(_) => None,
            Cell::Flow(_) => None,
            Cell::Step(row) => Some(row),
        },
    }
}
