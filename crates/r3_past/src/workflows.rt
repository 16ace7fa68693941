//! The rows of workflows and of users as they stand.

ghost use Rattle.std.specs.Prelude.{◌≡◌, ◌≤◌, List, length, IfOk, OnSome};
ghost use Rattle.std.specs.Option.{option_copied};
ghost use Rattle.r3_entry.specs.declared.entry.Entry.{Entry};
ghost use Rattle.r3_entry.specs.History.{cell_at};
ghost use Rattle.r3_model.specs.Rows.{flow_at, row_at};

use crate::cells::{flow_in, text_of, user_key, user_value};
use crate::past::Past;
use r3_rows::{Cell, FlowRow, Key};
use r3_value::{Memory, Val};
use std::alloc::Global;

/// No ID has more bytes, no name of a table and no key of a row.
const MOST_ID: usize = 200;

const MOST_NAME: usize = 64;

const MOST_KEY: usize = 256;

/// The cell of a key as it stands.
pub fn cell_now<'a, P: Past>(past: &'a P, key: &Key) -> Option<&'a Cell>
    requires stands { (h : List Entry) × P.stands past.now h }
    ensures { (h : List Entry) → P.stands past.now h → option_copied result ≡ cell_at h (length h) key.now }
{
    past.is_past();
    past.cell(key, past.count())
}

/// The row of a workflow as it stands.
#[tactic(auto, using(crate::proofs::Limits::long_flow))]
pub fn flow_row<'a, P: Past>(
    alloc: Global,
    past: &'a P,
    id: &str,
) -> Result<Option<&'a FlowRow>, Memory>
    requires stands { (h : List Entry) × P.stands past.now h }
    ensures row { IfOk result (λ row. (h : List Entry) → P.stands past.now h → option_copied row ≡ flow_at h (length h) id.now) }
    ensures short { IfOk result (λ row. OnSome row (length id.now ≤ 200)) }
{
    past.is_past();
    if id.len() > MOST_ID {
        return Ok(None);
    }
    let key = Key::Flow {
        id: text_of(alloc, id)?,
    };
    Ok(flow_in(cell_now(past, &key)))
}

/// The value of a user's row as it stands.
#[tactic(auto, using(crate::proofs::Limits::long_table, crate::proofs::Limits::long_key))]
pub fn user_row<'a, P: Past>(
    alloc: Global,
    past: &'a P,
    table: &str,
    key: &str,
) -> Result<Option<&'a Val>, Memory>
    requires stands { (h : List Entry) × P.stands past.now h }
    ensures { IfOk result (λ value. (h : List Entry) → P.stands past.now h → option_copied value ≡ row_at h (length h) table.now key.now) }
{
    past.is_past();
    if table.len() > MOST_NAME {
        return Ok(None);
    }
    if key.len() > MOST_KEY {
        return Ok(None);
    }
    let key = user_key(alloc, table, key)?;
    Ok(user_value(cell_now(past, &key)))
}
