//! The member of a key, where it is of the wanted kind.

ghost use Rattle.std.specs.Prelude.{◌≡◌, ◌≤◌, IfOk, IfSome, Some, None, if◌then◌else◌};
ghost use Rattle.serde_json.specs.Data.{Data};
ghost use Rattle.serde_json.specs.View.{view};
ghost use Rattle.r3_json.specs.Values.{value_from};
ghost use Rattle.r3_entry.specs.Limits.{IsRowKey, IsVal, IfThere};
ghost use Rattle.r3_model.specs.Fits.{IsText, IsListed};
ghost use Rattle.r3_model.specs.Forms as forms;

use r3_json::{JsonFault, from_json};
use r3_value::{Memory, Txt, Val};
use serde_json::Value;
use std::alloc::Global;
use sys_flow::Text;

fn copied(alloc: Global, text: &str) -> Result<Text, Memory>
    ensures text { IfOk result (λ t. t ≡ text.now) }
    ensures utf8 { IfOk result IsText }
{
    let copy = String::from_str(alloc, text)?;
    Ok(Text::from_string(copy))
}

/// A text.
pub fn text_at(alloc: Global, json: &Value, key: &str) -> Result<Option<Text>, Memory>
    ensures { IfOk result (λ text. text ≡ forms.text_at key.now (view json.now)) }
{
    match json.get(key).and_then(Value::as_str) {
        None => Ok(None),
        Some(text) => Ok(Some(copied(alloc, text)?)),
    }
}

fn id_from(alloc: Global, json: &Value) -> Result<Option<Option<Text>>, Memory>
    ensures read { IfOk result (λ id. id ≡ forms.id_from (view json.now)) }
    ensures utf8 { IfOk result (λ id. IfSome id (λ i. IfThere IsText i)) }
{
    match json {
        Value::Null => Ok(Some(None)),
        Value::String(text) => Ok(Some(Some(copied(alloc, text.as_str())?))),
        Value::Bool(_) => Ok(None),
        Value::Number(_) => Ok(None),
        Value::Array(_) => Ok(None),
        Value::Object(_) => Ok(None),
    }
}

/// A text, or null where an ID is to be made.
pub fn id_at(alloc: Global, json: &Value, key: &str) -> Result<Option<Option<Text>>, Memory>
    ensures read { IfOk result (λ id. id ≡ forms.id_at key.now (view json.now)) }
    ensures utf8 { IfOk result (λ id. IfSome id (λ i. IfThere IsText i)) }
{
    match json.get(key) {
        None => Ok(None),
        Some(member) => id_from(alloc, member),
    }
}

/// A row key has 1 to 256 bytes.
pub fn key_from(alloc: Global, key: &str) -> Result<Option<Txt>, Memory>
    ensures read { IfOk result (λ text. text
        ≡ (if forms.is_row_key key.now then Some key.now else None)) }
    ensures kept { IfOk result (λ text. IfSome text IsRowKey) }
{
    if key.is_empty() || key.len() > 256 {
        return Ok(None);
    }
    match Txt::new(alloc, key) {
        Ok(text) => Ok(Some(text)),
        Err(_) => Err(Memory),
    }
}

/// A row key.
pub fn key_at(alloc: Global, json: &Value, key: &str) -> Result<Option<Txt>, Memory>
    ensures read { IfOk result (λ text. text ≡ forms.key_at key.now (view json.now)) }
    ensures kept { IfOk result (λ text. IfSome text IsRowKey) }
{
    match json.get(key).and_then(Value::as_str) {
        None => Ok(None),
        Some(text) => key_from(alloc, text),
    }
}

fn within(least: u32, most: u32, number: i64) -> Option<u32>
    ensures read { result ≡ forms.within least most number }
    ensures within { IfSome result (λ n. (least ≤ n) × (n ≤ most)) }
{
    if number < 0 {
        return None;
    }
    let number = number as u64;
    if number < least as u64 || number > most as u64 {
        return None;
    }
    Some(number as u32)
}

/// A whole number from the least to the most.
pub fn number_at(json: &Value, key: &str, least: u32, most: u32) -> Option<u32>
    ensures read { result ≡ forms.number_at least most key.now (view json.now) }
    ensures within { IfSome result (λ n. (least ≤ n) × (n ≤ most)) }
{
    match json.get(key).and_then(Value::as_i64) {
        None => None,
        Some(number) => within(least, most, number),
    }
}

/// The value that a JSON is, if it is one.
pub fn val_from(alloc: Global, json: &Value) -> Result<Option<Val>, Memory>
    ensures read { IfOk result (λ val. val ≡ forms.val_from (value_from (view json.now))) }
    ensures kept { IfOk result (λ val. IfSome val IsVal) }
{
    match from_json(alloc, json) {
        Ok(value) => {
            // It tells that the value keeps its limits.
            let _weight = value.weight();
            Ok(Some(value))
        }
        Err(JsonFault::Memory) => Err(Memory),
        Err(_) => Ok(None),
    }
}

fn args_from(alloc: Global, json: &Value) -> Result<Option<Val>, Memory>
    ensures read { IfOk result (λ args. args ≡ forms.args_from (view json.now)) }
    ensures kept { IfOk result (λ args. IfSome args IsListed) }
{
    match json {
        Value::Array(_) => val_from(alloc, json),
        Value::Null => Ok(None),
        Value::Bool(_) => Ok(None),
        Value::Number(_) => Ok(None),
        Value::String(_) => Ok(None),
        Value::Object(_) => Ok(None),
    }
}

/// A list that is a value.
pub fn args_at(alloc: Global, json: &Value, key: &str) -> Result<Option<Val>, Memory>
    ensures read { IfOk result (λ args. args ≡ forms.args_at key.now (view json.now)) }
    ensures kept { IfOk result (λ args. IfSome args IsListed) }
{
    match json.get(key) {
        None => Ok(None),
        Some(member) => args_from(alloc, member),
    }
}
