//! Lines of JSON.

ghost use Rattle.std.specs.Prelude.{◌≡◌, ◌⊎◌, Some, None, false, IfOk, IfErr};
ghost use Rattle.serde_json.specs.View.{view};
ghost use Rattle.serde_json.specs.Written.{has_float};
ghost use Rattle.r3_json.specs.Lines.{line_of, parse};

use crate::fault::ReadFault;
use r3_value::Memory;
use serde_json::{Category, Value};
use std::alloc::Global;

/// The compact text of a JSON and a newline. An object's members stand in the byte order of their
/// keys, as a `Map` keeps them.
pub fn line(alloc: Global, json: &Value) -> Result<Vec<u8>, Memory>
    requires no_float { has_float (view json.now) ≡ false }
    ensures { IfOk result (λ bytes. bytes.items ≡ line_of (view json.now)) }
{
    let mut bytes = json.to_vec(alloc)?;
    bytes.push(b'\n')?;
    Ok(bytes)
}

/// The JSON that the bytes are, with or without a newline at their end. Of equal keys of an object the
/// last counts.
pub fn read(alloc: Global, bytes: &[u8]) -> Result<Value, ReadFault>
    ensures ok { IfOk result (λ json. parse bytes.now ≡ Some (view json)) }
    ensures fault { IfErr result (λ e. (e ≡ ReadFault.Memory)
        ⊎ ((e ≡ ReadFault.Syntax) × (parse bytes.now ≡ None))) }
{
    match Value::from_slice(alloc, bytes) {
        Ok(json) => Ok(json),
        Err(fault) => match fault.classify() {
            Category::Memory => Err(ReadFault::Memory),
            _ => Err(ReadFault::Syntax),
        },
    }
}
