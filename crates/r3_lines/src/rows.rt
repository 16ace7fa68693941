//! The rows of a load.

ghost use Rattle.std.specs.Prelude.{◌≡◌, ◌≤◌, IfOk, IfSome, length};
ghost use Rattle.std.specs.Option.{option_map};
ghost use Rattle.std.specs.List.{AllByRecursion};
ghost use Rattle.serde_json.specs.View.{view, members_view};
ghost use Rattle.r3_entry.specs.Limits.{IsRowKey, IsVal};
ghost use Rattle.r3_model.specs.Forms as forms;
ghost use Rattle.r3_lines.specs.Lines.{AreRows, IsRow};

use crate::members::{key_from, val_from};
use r3_value::{Memory, Txt, Val};
use serde_json::{Map, Value};
use sqlite_items::Items;
use std::alloc::Global;

fn row_from(alloc: Global, key: &str, value: &Value) -> Result<Option<(Txt, Val)>, Memory>
    ensures read { IfOk result (λ row. row ≡ forms.row_from key.now (view value.now)) }
    ensures kept { IfOk result (λ row. IfSome row IsRow) }
{
    let key = match key_from(alloc, key)? {
        None => return Ok(None),
        Some(key) => key,
    };
    match val_from(alloc, value)? {
        None => Ok(None),
        Some(value) => Ok(Some((key, value))),
    }
}

fn rows_from(alloc: Global, members: &Map<String, Value>) -> Result<Option<Vec<(Txt, Val)>>, Memory>
    ensures read { IfOk result (λ rows. option_map (λ r. r.items) rows
        ≡ forms.rows_from (members_view members.now.entries)) }
    ensures kept { IfOk result (λ rows. IfSome rows (λ r. AllByRecursion IsRow r.items)) }
    ensures same { IfOk result (λ rows.
        IfSome rows (λ r. length r.items ≡ length members.now.entries)) }
{
    let mut rows = Vec::with_capacity(alloc, members.len())?;
    for (key, value) in members {
        match row_from(alloc, key.as_str(), value)? {
            None => return Ok(None),
            Some(row) => rows.push(row)?,
        }
    }
    Ok(Some(rows))
}

// 1 to 1,024 rows.
#[tactic(auto, using(crate::proofs::Counts::counts))]
fn rows_of(alloc: Global, members: &Map<String, Value>) -> Result<Option<Items<(Txt, Val)>>, Memory>
    ensures read { IfOk result (λ rows. rows ≡ forms.rows_of (members_view members.now.entries)) }
    ensures kept { IfOk result (λ rows. IfSome rows AreRows) }
{
    if members.is_empty() || members.len() > 1024 {
        return Ok(None);
    }
    match rows_from(alloc, members)? {
        None => Ok(None),
        Some(rows) => Ok(Some(Items::from_vec(rows))),
    }
}

/// The rows under a key.
pub fn rows_at(alloc: Global, json: &Value, key: &str) -> Result<Option<Items<(Txt, Val)>>, Memory>
    ensures read { IfOk result (λ rows. rows ≡ forms.rows_at key.now (view json.now)) }
    ensures kept { IfOk result (λ rows. IfSome rows AreRows) }
{
    match json.get(key).and_then(Value::as_object) {
        None => Ok(None),
        Some(members) => rows_of(alloc, members),
    }
}
