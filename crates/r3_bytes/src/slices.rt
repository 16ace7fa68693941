//! Fields at the front of a slice, each with the bytes behind it.

ghost use Rattle.std.specs.Prelude.{◌≡◌, ◌<◌, ◌^◌, ◌≤◌, ◌∷◌, List, length, Ok};
ghost use Rattle.r3_bytes.specs.Spelling as spell;
ghost use Rattle.r3_bytes.specs.Field.{Finds};
ghost use Rattle.r3_value.specs.View.{value_of, items_of};

use r3_value::{Outcome, Txt, Val, ValFault};
use std::alloc::Global;

/// Why there is no field.
#[derive(Debug, Drop)]
pub enum Miss {
    /// No front of the slice is such a field.
    Absent,
    /// There was no memory.
    Memory,
}

pub fn u8_in(bytes: &[u8]) -> Result<(u8, &[u8]), Miss>
    ensures { Finds spell.byte spell.IsByte (λ x. (x.0, x.1.now)) bytes.now result }
{
    match bytes {
        [] => Err(Miss::Absent),
        [byte, rest @ ..] => Ok((*byte, rest)),
    }
}

pub fn u32_in(bytes: &[u8]) -> Result<(u32, &[u8]), Miss>
    ensures { Finds spell.number spell.IsNumber (λ x. (x.0, x.1.now)) bytes.now result }
{
    if bytes.len() < 4 {
        return Err(Miss::Absent);
    }
    let (front, rest) = bytes.split_at(4);
    let number = u32::from_be_bytes([front[0], front[1], front[2], front[3]]);
    Ok((number, rest))
}

pub fn i64_in(bytes: &[u8]) -> Result<(i64, &[u8]), Miss>
    ensures { Finds spell.signed spell.IsSigned (λ x. (x.0, x.1.now)) bytes.now result }
{
    if bytes.len() < 8 {
        return Err(Miss::Absent);
    }
    let (front, rest) = bytes.split_at(8);
    let number = i64::from_be_bytes([
        front[0], front[1], front[2], front[3], front[4], front[5], front[6], front[7],
    ]);
    Ok((number, rest))
}

pub fn text_in(bytes: &[u8]) -> Result<(&str, &[u8]), Miss>
    ensures { Finds spell.string spell.IsText (λ x. (x.0.now, x.1.now)) bytes.now result }
{
    let (len, rest) = u32_in(bytes)?;
    let len = len as usize;
    if rest.len() < len {
        return Err(Miss::Absent);
    }
    let (front, rest) = rest.split_at(len);
    match str::from_utf8(front) {
        Ok(text) => Ok((text, rest)),
        Err(_) => Err(Miss::Absent),
    }
}

pub fn txt_in(alloc: Global, bytes: &[u8]) -> Result<(Txt, &[u8]), Miss>
    ensures { Finds spell.string spell.IsTxt (λ x. (x.0, x.1.now)) bytes.now result }
{
    let (text, rest) = text_in(bytes)?;
    match Txt::new(alloc, text) {
        Ok(text) => Ok((text, rest)),
        Err(ValFault::Memory) => Err(Miss::Memory),
        Err(_) => Err(Miss::Absent),
    }
}

// The clauses of the next four speak of the bytes with the value's first byte before them.
fn bool_val_in(depth: u32, bytes: &[u8]) -> Result<(Val, &[u8]), Miss>
    ensures { Finds spell.value (spell.IsValueTo depth) (λ x. (value_of x.0, x.1.now)) (1 ∷ bytes.now) result }
{
    let _depth = depth;
    match bytes.split_first() {
        None => Err(Miss::Absent),
        Some((flag, rest)) => {
            if *flag > 1 {
                return Err(Miss::Absent);
            }
            Ok((Val::Bool(*flag == 1), rest))
        }
    }
}

fn int_val_in(depth: u32, bytes: &[u8]) -> Result<(Val, &[u8]), Miss>
    ensures { Finds spell.value (spell.IsValueTo depth) (λ x. (value_of x.0, x.1.now)) (2 ∷ bytes.now) result }
{
    let _depth = depth;
    match i64_in(bytes) {
        Ok((number, rest)) => Ok((Val::Int(number), rest)),
        Err(miss) => Err(miss),
    }
}

fn text_val_in(alloc: Global, depth: u32, bytes: &[u8]) -> Result<(Val, &[u8]), Miss>
    ensures { Finds spell.value (spell.IsValueTo depth) (λ x. (value_of x.0, x.1.now)) (3 ∷ bytes.now) result }
{
    let _depth = depth;
    match txt_in(alloc, bytes) {
        Ok((text, rest)) => Ok((Val::Text(text), rest)),
        Err(miss) => Err(miss),
    }
}

#[cycle(val_in)]
fn list_val_in(alloc: Global, depth: u32, bytes: &[u8]) -> Result<(Val, &[u8]), Miss>
    requires { depth ≤ 16 }
    ensures { Finds spell.value (spell.IsValueTo depth) (λ x. (value_of x.0, x.1.now)) (4 ∷ bytes.now) result }
{
    if depth == 0 {
        return Err(Miss::Absent);
    }
    match u32_in(bytes) {
        Err(miss) => Err(miss),
        Ok((count, rest)) => match items_in(alloc, depth - 1, count, rest) {
            Err(miss) => Err(miss),
            Ok((items, rest)) => match Val::list(items) {
                Ok(value) => Ok((value, rest)),
                Err(_) => Err(Miss::Absent),
            },
        },
    }
}

/// A value whose lists nest at most `depth` deep.
#[cycle(val_in)]
pub fn val_in(alloc: Global, depth: u32, bytes: &[u8]) -> Result<(Val, &[u8]), Miss>
    requires { depth ≤ 16 }
    ensures { Finds spell.value (spell.IsValueTo depth) (λ x. (value_of x.0, x.1.now)) bytes.now result }
{
    match bytes.split_first() {
        None => Err(Miss::Absent),
        Some((tag, rest)) => match *tag {
            0 => Ok((Val::Null, rest)),
            1 => bool_val_in(depth, rest),
            2 => int_val_in(depth, rest),
            3 => text_val_in(alloc, depth, rest),
            4 => list_val_in(alloc, depth, rest),
            _ => Err(Miss::Absent),
        },
    }
}

#[cycle(val_in)]
fn items_in(alloc: Global, depth: u32, count: u32, bytes: &[u8]) -> Result<(Vec<Val>, &[u8]), Miss>
    requires { depth ≤ 15 }
    ensures { Finds spell.items (spell.AreItems count depth) (λ x. (items_of x.0.items, x.1.now)) bytes.now result }
{
    // No more than for a few at once: what the count promises may not be there.
    let Ok(mut items) = Vec::with_capacity(alloc, count.min(4) as usize) else {
        return Err(Miss::Memory);
    };
    let mut rest = bytes;
    for _ in 0..count {
        match val_in(alloc, depth, rest) {
            Ok((item, after)) => {
                match items.push(item) {
                    Ok(()) => {}
                    Err(_) => return Err(Miss::Memory),
                }
                rest = after;
            }
            Err(miss) => return Err(miss),
        }
    }
    Ok((items, rest))
}

// The clauses of the next two speak of the bytes with the outcome's first byte before them.
fn success_in(alloc: Global, bytes: &[u8]) -> Result<(Outcome, &[u8]), Miss>
    ensures { Finds spell.outcome spell.IsOutcome (λ x. (x.0, x.1.now)) (0 ∷ bytes.now) result }
{
    match val_in(alloc, 16, bytes) {
        Ok((value, rest)) => Ok((Outcome::Value(value), rest)),
        Err(miss) => Err(miss),
    }
}

fn failure_in(alloc: Global, bytes: &[u8]) -> Result<(Outcome, &[u8]), Miss>
    ensures { Finds spell.outcome spell.IsOutcome (λ x. (x.0, x.1.now)) (1 ∷ bytes.now) result }
{
    match txt_in(alloc, bytes) {
        Ok((word, rest)) => Ok((Outcome::Failure(word), rest)),
        Err(miss) => Err(miss),
    }
}

pub fn outcome_in(alloc: Global, bytes: &[u8]) -> Result<(Outcome, &[u8]), Miss>
    ensures { Finds spell.outcome spell.IsOutcome (λ x. (x.0, x.1.now)) bytes.now result }
{
    match bytes.split_first() {
        None => Err(Miss::Absent),
        Some((tag, rest)) => match *tag {
            0 => success_in(alloc, rest),
            1 => failure_in(alloc, rest),
            _ => Err(Miss::Absent),
        },
    }
}
