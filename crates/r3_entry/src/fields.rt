//! Fields of entries, read one after the other. After an error the reader may stand anywhere.

ghost use Rattle.std.specs.Prelude.{◌≡◌, ◌≤◌, ◌∷◌, ◌↔◌, IsTrue};
ghost use Rattle.r3_bytes.specs.Spelling as field;
ghost use Rattle.r3_entry.specs.Bytes as spell;
ghost use Rattle.r3_entry.specs.Limits.{IsSized, IsVal, IsArgs, IsOutcome, IfThere, IsKey};
ghost use Rattle.r3_entry.specs.Parse.{Parses, IsBetween};
ghost use Rattle.r3_entry.specs.Parts as part;

use r3_bytes::{FieldFault, Reader};
use r3_rows::Key;
use r3_value::{Outcome, Txt, Val};
use std::alloc::Global;

/// Why there is none.
#[derive(Debug, Drop)]
pub enum Miss {
    Absent,
    Memory,
}

impl From<FieldFault> for Miss {
    ghost use Rattle.r3_entry.specs.Parse.{miss_of};

    ghost from_gives = { λ e m. m ≡ miss_of e };

    fn from(fault: FieldFault) -> Miss {
        match fault {
            FieldFault::NoField { .. } => Miss::Absent,
            FieldFault::Memory => Miss::Memory,
        }
    }
}

pub fn byte_of(r: &mut Reader<'_>) -> Result<u8, Miss>
    ensures { Parses field.byte field.IsByte r.old.rest r.new.rest result }
{
    Ok(r.u8()?)
}

pub fn number_of(r: &mut Reader<'_>) -> Result<u32, Miss>
    ensures { Parses field.number field.IsNumber r.old.rest r.new.rest result }
{
    Ok(r.u32()?)
}

pub fn between_of(r: &mut Reader<'_>, least: u32, most: u32) -> Result<u32, Miss>
    ensures { Parses field.number (IsBetween least most) r.old.rest r.new.rest result }
{
    let number = number_of(r)?;
    if number < least || number > most {
        return Err(Miss::Absent);
    }
    Ok(number)
}

/// A text of so many bytes.
pub fn sized_of(alloc: Global, r: &mut Reader<'_>, least: usize, most: usize) -> Result<Txt, Miss>
    requires { most ≤ 4091 }
    ensures { Parses field.string (IsSized least most) r.old.rest r.new.rest result }
{
    let text = r.txt(alloc)?;
    let len = text.as_str().len();
    if len < least || len > most {
        return Err(Miss::Absent);
    }
    Ok(text)
}

pub fn sized_if_there(
    alloc: Global,
    r: &mut Reader<'_>,
    least: usize,
    most: usize,
) -> Result<Option<Txt>, Miss>
    requires { most ≤ 4091 }
    ensures { Parses (spell.option field.string) (IfThere (IsSized least most)) r.old.rest r.new.rest result }
{
    match byte_of(r)? {
        0 => Ok(None),
        1 => Ok(Some(sized_of(alloc, r, least, most)?)),
        _ => Err(Miss::Absent),
    }
}

pub fn val_of(alloc: Global, r: &mut Reader<'_>) -> Result<Val, Miss>
    ensures { Parses spell.val IsVal r.old.rest r.new.rest result }
{
    Ok(r.val(alloc)?)
}

// A list of at most 16 values.
fn are_args(value: &Val) -> bool
    ensures { IsTrue result ↔ IsArgs value.now }
{
    match value {
        Val::List(values) => values.items().len() <= 16,
        _ => false,
    }
}

pub fn args_of(alloc: Global, r: &mut Reader<'_>) -> Result<Val, Miss>
    ensures { Parses spell.val IsArgs r.old.rest r.new.rest result }
{
    let value = val_of(alloc, r)?;
    if !are_args(&value) {
        return Err(Miss::Absent);
    }
    Ok(value)
}

pub fn outcome_of(alloc: Global, r: &mut Reader<'_>) -> Result<Outcome, Miss>
    ensures { Parses spell.outcome IsOutcome r.old.rest r.new.rest result }
{
    match byte_of(r)? {
        0 => Ok(Outcome::Value(val_of(alloc, r)?)),
        1 => Ok(Outcome::Failure(sized_of(alloc, r, 0, 4091)?)),
        _ => Err(Miss::Absent),
    }
}

pub fn outcome_if_there(alloc: Global, r: &mut Reader<'_>) -> Result<Option<Outcome>, Miss>
    ensures { Parses (spell.option spell.outcome) (IfThere IsOutcome) r.old.rest r.new.rest result }
{
    match byte_of(r)? {
        0 => Ok(None),
        1 => Ok(Some(outcome_of(alloc, r)?)),
        _ => Err(Miss::Absent),
    }
}

/// A workflow's ID and the number of its step.
pub fn step_of(alloc: Global, r: &mut Reader<'_>) -> Result<(Txt, u32), Miss>
    ensures { Parses part.step part.IsStepOf r.old.rest r.new.rest result }
{
    let id = sized_of(alloc, r, 1, 200)?;
    let n = step_number_of(r)?;
    Ok((id, n))
}

fn step_number_of(r: &mut Reader<'_>) -> Result<u32, Miss>
    ensures { Parses field.number part.IsStepNumber r.old.rest r.new.rest result }
{
    let n = number_of(r)?;
    if n >= 1000 {
        return Err(Miss::Absent);
    }
    Ok(n)
}

/// A table and a key.
pub fn place_of(alloc: Global, r: &mut Reader<'_>) -> Result<(Txt, Txt), Miss>
    ensures { Parses part.place part.IsPlace r.old.rest r.new.rest result }
{
    let table = sized_of(alloc, r, 1, 64)?;
    let key = sized_of(alloc, r, 1, 256)?;
    Ok((table, key))
}

// The clauses of the next three speak of the bytes with the key's first byte before them.
fn user_key_of(alloc: Global, r: &mut Reader<'_>) -> Result<Key, Miss>
    ensures { Parses spell.key IsKey (0 ∷ r.old.rest) r.new.rest result }
{
    match place_of(alloc, r) {
        Ok((table, key)) => Ok(Key::User { table, key }),
        Err(miss) => Err(miss),
    }
}

fn step_key_of(alloc: Global, r: &mut Reader<'_>) -> Result<Key, Miss>
    ensures { Parses spell.key IsKey (2 ∷ r.old.rest) r.new.rest result }
{
    match step_of(alloc, r) {
        Ok((id, n)) => Ok(Key::Step { id, n }),
        Err(miss) => Err(miss),
    }
}

pub fn key_of(alloc: Global, r: &mut Reader<'_>) -> Result<Key, Miss>
    ensures { Parses spell.key IsKey r.old.rest r.new.rest result }
{
    match byte_of(r)? {
        0 => user_key_of(alloc, r),
        1 => {
            let id = sized_of(alloc, r, 1, 200)?;
            Ok(Key::Flow { id })
        }
        2 => step_key_of(alloc, r),
        _ => Err(Miss::Absent),
    }
}
