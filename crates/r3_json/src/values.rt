//! Values as JSON, and back.

ghost use Rattle.std.specs.Prelude.{◌≡◌, ◌⊎◌, Ok, Err, false, IfOk, IfErr, IsErrOf};
ghost use Rattle.serde_json.specs.Find.{as_i64};
ghost use Rattle.serde_json.specs.View.{view, items_view, number_view};
ghost use Rattle.serde_json.specs.Written.{has_float};
ghost use Rattle.r3_value.specs.View.{value_of, items_of};
ghost use Rattle.r3_value.specs.Value.{text as text_value, list as list_value};
ghost use Rattle.r3_json.specs.Values.{data_of, value_from, values_from, whole, within_limits};

use crate::fault::JsonFault;
use crate::sizes::size_of;
use r3_value::{Memory, Val};
use serde_json::{Number, Value};
use std::alloc::Global;

/// The JSON of a value: a number as an integer, a list as an array.
pub fn to_json(alloc: Global, value: &Val) -> Result<Value, Memory>
    ensures json { IfOk result (λ json. view json ≡ data_of (value_of value.now)) }
    ensures no_float { IfOk result (λ json. has_float (view json) ≡ false) }
{
    let json = data(alloc, value)?;
    Ok(json)
}

fn data(alloc: Global, value: &Val) -> Result<Value, Memory>
    ensures { IfOk result (λ json. view json ≡ data_of (value_of value.now)) }
{
    match value {
        Val::Null => Ok(Value::Null),
        Val::Bool(b) => Ok(Value::Bool(*b)),
        Val::Int(n) => Ok(Value::from(*n)),
        Val::Text(text) => {
            let text = String::from_str(alloc, text.as_str())?;
            Ok(Value::String(text))
        }
        Val::List(values) => {
            let items = values.items();
            let mut array = Vec::new(alloc);
            for item in items {
                let json = data(alloc, item)?;
                array.push(json)?;
            }
            Ok(Value::Array(array))
        }
    }
}

/// The value that a JSON stands for, or its first fault: those of a list's items come in their order
/// and before the list's own, and TooLarge comes before TooDeep. Memory comes only where there is no
/// other fault.
pub fn from_json(alloc: Global, json: &Value) -> Result<Val, JsonFault>
    ensures ok { IfOk result (λ v. value_from (view json.now) ≡ Ok (value_of v)) }
    ensures fault { IfErr result (λ e. (e ≡ JsonFault.Memory) ⊎ (value_from (view json.now) ≡ Err e)) }
    ensures refused { IfErr (value_from (view json.now)) (λ e. IsErrOf result e) }
{
    match size_of(json) {
        Ok(_) => value(alloc, json),
        Err(fault) => Err(fault),
    }
}

#[cycle(value)]
fn value(alloc: Global, json: &Value) -> Result<Val, JsonFault>
    ensures ok { IfOk result (λ v. value_from (view json.now) ≡ Ok (value_of v)) }
    ensures fault { IfErr result (λ e. (e ≡ JsonFault.Memory) ⊎ (value_from (view json.now) ≡ Err e)) }
{
    match json {
        Value::Null => Ok(Val::Null),
        Value::Bool(b) => Ok(Val::Bool(*b)),
        Value::Number(number) => whole_number(number),
        Value::String(text) => text_within_limits(alloc, text.as_str()),
        Value::Array(items) => {
            let values = values_of(alloc, items)?;
            list_within_limits(values)
        }
        Value::Object(_) => Err(JsonFault::Object),
    }
}

#[cycle(value)]
fn values_of(alloc: Global, items: &Vec<Value>) -> Result<Vec<Val>, JsonFault>
    ensures ok { IfOk result (λ vs. values_from (items_view items.now.items) ≡ Ok (items_of vs.items)) }
    ensures fault { IfErr result (λ e. (e ≡ JsonFault.Memory)
        ⊎ (values_from (items_view items.now.items) ≡ Err e)) }
{
    let mut values = Vec::new(alloc);
    for item in items {
        let value = value(alloc, item)?;
        values.push(value)?;
    }
    Ok(values)
}

fn whole_number(number: &Number) -> Result<Val, JsonFault>
    ensures ok { IfOk result (λ v. whole (as_i64 (number_view number.now)) ≡ Ok (value_of v)) }
    ensures fault { IfErr result (λ e. whole (as_i64 (number_view number.now)) ≡ Err e) }
{
    match number.as_i64() {
        Some(n) => Ok(Val::Int(n)),
        None => Err(JsonFault::NotWhole),
    }
}

fn text_within_limits(alloc: Global, text: &str) -> Result<Val, JsonFault>
    ensures ok { IfOk result (λ v. within_limits (text_value text.now) ≡ Ok (value_of v)) }
    ensures fault { IfErr result (λ e. (e ≡ JsonFault.Memory)
        ⊎ (within_limits (text_value text.now) ≡ Err e)) }
{
    match Val::text(alloc, text) {
        Ok(value) => Ok(value),
        Err(fault) => Err(JsonFault::from(fault)),
    }
}

fn list_within_limits(values: Vec<Val>) -> Result<Val, JsonFault>
    ensures ok { IfOk result (λ v. within_limits (list_value (items_of values.items)) ≡ Ok (value_of v)) }
    ensures fault { IfErr result (λ e. within_limits (list_value (items_of values.items)) ≡ Err e) }
{
    match Val::list(values) {
        Ok(value) => Ok(value),
        Err(fault) => Err(JsonFault::from(fault)),
    }
}
