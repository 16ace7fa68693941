//! The first fault of a JSON, found before any memory is taken.

ghost use Rattle.std.specs.Prelude.{◌≡◌, ◌+◌, ◌*◌, ◌^◌, ◌<◌, ◌≤◌, IfOk};
ghost use Rattle.serde_json.specs.Find.{as_i64};
ghost use Rattle.serde_json.specs.View.{view, items_view, number_view};
ghost use Rattle.r3_json.specs.Sizes.{size, sizes, limited, IsWithin};
ghost use Rattle.r3_json.specs.Values.{value_from, values_from, whole};

use crate::fault::JsonFault;
use serde_json::{Number, Value};

/// How many bytes a value takes, or the values of a list together, and how deep its lists nest.
#[derive(Clone, Copy, Debug)]
pub struct Size {
    pub weight: u128,
    pub depth: u32,
}

/// The size of the value that a JSON stands for, or the first fault.
#[cycle(size)]
pub fn size_of(json: &Value) -> Result<Size, JsonFault>
    ensures size { result ≡ size (value_from (view json.now)) }
    ensures within { IfOk result IsWithin }
{
    match json {
        Value::Null => Ok(Size {
            weight: 1,
            depth: 0,
        }),
        Value::Bool(_) => Ok(Size {
            weight: 2,
            depth: 0,
        }),
        Value::Number(number) => number_size(number),
        Value::String(text) => limited(5 + text.len() as u128, 0),
        Value::Array(items) => match items_size(items) {
            Ok(inner) => limited(5 + inner.weight, 1 + inner.depth),
            Err(fault) => Err(fault),
        },
        Value::Object(_) => Err(JsonFault::Object),
    }
}

#[cycle(size)]
fn items_size(items: &Vec<Value>) -> Result<Size, JsonFault>
    ensures sizes { result ≡ sizes (values_from (items_view items.now.items)) }
    ensures bounded { IfOk result (λ s. (s.weight < 2 ^ 80) × (s.depth ≤ 16)) }
{
    let mut weight = 0u128;
    let mut depth = 0;
    for item in items {
        let one = match size_of(item) {
            Ok(one) => one,
            Err(fault) => return Err(fault),
        };
        weight += one.weight;
        if one.depth > depth {
            depth = one.depth;
        }
    }
    Ok(Size { weight, depth })
}

fn number_size(number: &Number) -> Result<Size, JsonFault>
    ensures size { result ≡ size (whole (as_i64 (number_view number.now))) }
    ensures within { IfOk result IsWithin }
{
    match number.as_i64() {
        Some(_) => Ok(Size {
            weight: 9,
            depth: 0,
        }),
        None => Err(JsonFault::NotWhole),
    }
}

fn limited(weight: u128, depth: u32) -> Result<Size, JsonFault>
    ensures limited { result ≡ limited weight depth }
    ensures within { IfOk result IsWithin }
{
    if weight > 4096 {
        return Err(JsonFault::TooLarge);
    }
    if depth > 16 {
        return Err(JsonFault::TooDeep);
    }
    Ok(Size { weight, depth })
}
