//! A workflow's row as JSON.

ghost use Rattle.std.specs.Prelude.{◌≡◌, IfOk};
ghost use Rattle.serde_json.specs.Data.{string};
ghost use Rattle.serde_json.specs.View.{view};
ghost use Rattle.r3_model.specs.Replies.{or_null, outcome_data, row_data};

use crate::objects::{text_json, val_json};
use crate::words::status_word;
use r3_json::to_json;
use r3_rows::FlowRow;
use r3_value::{Memory, Outcome, Txt};
use serde_json::{Map, Value, put};
use std::alloc::Global;

fn outcome_json(alloc: Global, outcome: &Outcome) -> Result<Value, Memory>
    ensures { IfOk result (λ json. view json ≡ outcome_data outcome.now) }
{
    match outcome {
        Outcome::Value(value) => val_json(alloc, "value", value),
        Outcome::Failure(word) => Ok(text_json(alloc, "failure", word.as_str())?),
    }
}

fn ended_json(alloc: Global, outcome: &Option<Outcome>) -> Result<Value, Memory>
    ensures { IfOk result (λ json. view json ≡ or_null outcome_data outcome.now) }
{
    match outcome {
        Some(outcome) => outcome_json(alloc, outcome),
        None => Ok(Value::Null),
    }
}

fn named_json(alloc: Global, name: &Option<Txt>) -> Result<Value, Memory>
    ensures { IfOk result (λ json. view json ≡ or_null string name.now) }
{
    match name {
        Some(name) => Ok(Value::try_from_str(alloc, name.as_str())?),
        None => Ok(Value::Null),
    }
}

/// A workflow's row, its ID among its members.
pub fn row_json(alloc: Global, id: &str, row: &FlowRow) -> Result<Value, Memory>
    ensures { IfOk result (λ json. view json ≡ row_data id.now row.now) }
{
    let mut map = Map::new(alloc);
    put(&mut map, alloc, "args", to_json(alloc, &row.args)?)?;
    put(&mut map, alloc, "attempts", Value::from(row.attempts))?;
    put(
        &mut map,
        alloc,
        "fn",
        Value::try_from_str(alloc, row.function.as_str())?,
    )?;
    put(&mut map, alloc, "id", Value::try_from_str(alloc, id)?)?;
    put(&mut map, alloc, "outcome", ended_json(alloc, &row.outcome)?)?;
    put(&mut map, alloc, "parent", named_json(alloc, &row.parent)?)?;
    put(&mut map, alloc, "queue", named_json(alloc, &row.queue)?)?;
    put(&mut map, alloc, "started", Value::from(row.started))?;
    put(
        &mut map,
        alloc,
        "status",
        Value::try_from_str(alloc, status_word(row.status))?,
    )?;
    Ok(Value::Object(map))
}
