//! Fields, read one after the other.

ghost use Rattle.std.specs.Prelude.{◌≡◌, ◌<◌, ◌^◌, [], length, IsTrue, ◌↔◌, string_bytes};
ghost use Rattle.r3_bytes.specs.Spelling as spell;

use crate::fault::FieldFault;
use crate::slices::{Miss, outcome_in, text_in, txt_in, u8_in, u32_in, val_in};
use r3_value::{Outcome, Txt, Val};
use std::alloc::Global;
use std::marker::Model;

/// Bytes from which fields are read, and the place up to which they were read.
///
/// A read that answers a field goes on past it. One that is refused, or finds no memory, changes nothing.
#[derive(Drop)]
pub struct Reader<'a> {
    bytes: &'a [u8],
    at: u32,
}

impl<'a> Model for Reader<'a> {
    ghost use Rattle.std.specs.Prelude.{◌≤◌, ◌<◌, ◌^◌, length, drop};
    ghost use Rattle.r3_bytes.specs.Field.{Place};

    ghost Value = { Place };

    ghost view = { λ r. record { at = r.at; rest = drop r.at r.bytes.now } };

    ghost invariant = { λ r. (r.at ≤ length r.bytes.now) × (length r.bytes.now < 2 ^ 32) };
}

impl<'a> Reader<'a> {
    ghost use Rattle.r3_bytes.specs.Field.{Answers};
    ghost use Rattle.r3_value.specs.View.{value_of};

    /// Reads these bytes from their beginning.
    pub fn new(bytes: &'a [u8]) -> Reader<'a>
        requires { length bytes.now < 2 ^ 32 }
        ensures at { result.at ≡ 0 }
        ensures rest { result.rest ≡ bytes.now }
    {
        Reader { bytes, at: 0 }
    }

    /// The place: how many bytes have been read.
    pub fn at(&self) -> u32
        ensures { result ≡ self.now.at }
    {
        self.at
    }

    /// Whether no byte is left.
    pub fn ended(&self) -> bool
        ensures { IsTrue result ↔ (self.now.rest ≡ []) }
    {
        self.bytes[self.at as usize..].is_empty()
    }

    /// Reads one byte. `NoField` comes exactly where none is left.
    pub fn u8(&mut self) -> Result<u8, FieldFault>
        ensures { Answers spell.byte spell.IsByte (λ x. x) self.old self.new result }
    {
        match u8_in(&self.bytes[self.at as usize..]) {
            Ok((byte, rest)) => {
                self.at = (self.bytes.len() - rest.len()) as u32;
                Ok(byte)
            }
            Err(Miss::Absent) => Err(FieldFault::NoField { at: self.at }),
            Err(Miss::Memory) => Err(FieldFault::Memory),
        }
    }

    /// Reads a number of four bytes, the highest first. `NoField` comes exactly where fewer are left.
    pub fn u32(&mut self) -> Result<u32, FieldFault>
        ensures { Answers spell.number spell.IsNumber (λ x. x) self.old self.new result }
    {
        match u32_in(&self.bytes[self.at as usize..]) {
            Ok((number, rest)) => {
                self.at = (self.bytes.len() - rest.len()) as u32;
                Ok(number)
            }
            Err(Miss::Absent) => Err(FieldFault::NoField { at: self.at }),
            Err(Miss::Memory) => Err(FieldFault::Memory),
        }
    }

    /// Reads a text: the number of its bytes and its bytes. `NoField` comes exactly where fewer are left,
    /// or they aren't UTF-8.
    pub fn text(&mut self, alloc: Global) -> Result<String, FieldFault>
        ensures { Answers spell.string spell.IsText (λ s. string_bytes s) self.old self.new result }
    {
        match text_in(&self.bytes[self.at as usize..]) {
            Ok((text, rest)) => match String::from_str(alloc, text) {
                Ok(text) => {
                    self.at = (self.bytes.len() - rest.len()) as u32;
                    Ok(text)
                }
                Err(_) => Err(FieldFault::Memory),
            },
            Err(Miss::Absent) => Err(FieldFault::NoField { at: self.at }),
            Err(Miss::Memory) => Err(FieldFault::Memory),
        }
    }

    /// Reads a text of at most 4,091 bytes, which is copied once. `NoField` comes exactly where fewer bytes
    /// are left than the text has, it has more than 4,091, or they aren't UTF-8.
    pub fn txt(&mut self, alloc: Global) -> Result<Txt, FieldFault>
        ensures { Answers spell.string spell.IsTxt (λ t. t) self.old self.new result }
    {
        match txt_in(alloc, &self.bytes[self.at as usize..]) {
            Ok((text, rest)) => {
                self.at = (self.bytes.len() - rest.len()) as u32;
                Ok(text)
            }
            Err(Miss::Absent) => Err(FieldFault::NoField { at: self.at }),
            Err(Miss::Memory) => Err(FieldFault::Memory),
        }
    }

    /// Reads a value: a byte for its kind, and what it holds. `NoField` comes exactly where no value that
    /// keeps the limits of `Val` begins here.
    pub fn val(&mut self, alloc: Global) -> Result<Val, FieldFault>
        ensures { Answers spell.value (spell.IsValueTo 16) (λ v. value_of v) self.old self.new result }
    {
        match val_in(alloc, 16, &self.bytes[self.at as usize..]) {
            Ok((value, rest)) => {
                self.at = (self.bytes.len() - rest.len()) as u32;
                Ok(value)
            }
            Err(Miss::Absent) => Err(FieldFault::NoField { at: self.at }),
            Err(Miss::Memory) => Err(FieldFault::Memory),
        }
    }

    /// Reads an outcome: a byte for its kind, and its value or its word. `NoField` comes exactly where none
    /// begins here.
    pub fn outcome(&mut self, alloc: Global) -> Result<Outcome, FieldFault>
        ensures { Answers spell.outcome spell.IsOutcome (λ o. o) self.old self.new result }
    {
        match outcome_in(alloc, &self.bytes[self.at as usize..]) {
            Ok((outcome, rest)) => {
                self.at = (self.bytes.len() - rest.len()) as u32;
                Ok(outcome)
            }
            Err(Miss::Absent) => Err(FieldFault::NoField { at: self.at }),
            Err(Miss::Memory) => Err(FieldFault::Memory),
        }
    }
}
