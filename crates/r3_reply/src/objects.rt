//! The objects that replies are made of.

ghost use Rattle.std.specs.Prelude.{◌≡◌, IfOk, codes, true};
ghost use Rattle.serde_json.specs.Data.{boolean, string};
ghost use Rattle.serde_json.specs.View.{view};
ghost use Rattle.r3_model.specs.Replies.{count, one, two, unexpected_data, val_data};

use r3_json::to_json;
use r3_value::{Memory, Val};
use serde_json::{Value, json};
use std::alloc::{AllocError, Global};

/// An object of one member.
pub fn one_json(alloc: Global, key: &str, value: Value) -> Result<Value, AllocError>
    ensures { IfOk result (λ json. view json ≡ one key.now (view value)) }
{
    json!(in alloc; {key: value})
}

/// One number under a key.
pub fn count_json(alloc: Global, key: &str, number: u32) -> Result<Value, AllocError>
    ensures { IfOk result (λ json. view json ≡ one key.now (count number)) }
{
    json!(in alloc; {key: number})
}

/// One text under a key.
pub fn text_json(alloc: Global, key: &str, text: &str) -> Result<Value, AllocError>
    ensures { IfOk result (λ json. view json ≡ one key.now (string text.now)) }
{
    json!(in alloc; {key: text})
}

/// `true` under a key.
pub fn flag_json(alloc: Global, key: &str) -> Result<Value, AllocError>
    ensures { IfOk result (λ json. view json ≡ one key.now (boolean true)) }
{
    json!(in alloc; {key: true})
}

/// A value under a key.
pub fn val_json(alloc: Global, key: &str, value: &Val) -> Result<Value, Memory>
    ensures { IfOk result (λ json. view json ≡ one key.now (val_data value.now)) }
{
    let value = to_json(alloc, value)?;
    Ok(one_json(alloc, key, value)?)
}

/// An entry and the ID of the workflow that it started.
pub fn started_json(alloc: Global, number: u32, id: &str) -> Result<Value, AllocError>
    ensures { IfOk result (λ json. view json
        ≡ two (codes "entry") (count number) (codes "id") (string id.now)) }
{
    json!(in alloc; {"entry": number, "id": id})
}

/// How a run of the scheduler ended, and after how many turns.
pub fn drain_json(alloc: Global, end: &str, turns: u32) -> Result<Value, AllocError>
    ensures { IfOk result (λ json. view json
        ≡ two (codes "drain") (string end.now) (codes "turns") (count turns)) }
{
    json!(in alloc; {"drain": end, "turns": turns})
}

/// The refusal of a status, with its word.
pub fn status_json(alloc: Global, status: &str) -> Result<Value, AllocError>
    ensures { IfOk result (λ json. view json
        ≡ two (codes "refused") (string (codes "status")) (codes "status") (string status.now)) }
{
    json!(in alloc; {"refused": "status", "status": status})
}

/// A step at which a workflow asks otherwise than its record tells.
pub fn unexpected_json(
    alloc: Global,
    n: u32,
    recorded: &str,
    asked: &str,
) -> Result<Value, AllocError>
    ensures { IfOk result (λ json. view json
        ≡ one (codes "unexpected") (unexpected_data n recorded.now asked.now)) }
{
    json!(in alloc; {"unexpected": {"asked": asked, "n": n, "recorded": recorded}})
}
