//! Fields, written one after the other.

ghost use Rattle.std.specs.Prelude.{◌≡◌, ◌<◌, ◌^◌, [], ◌∷◌, ◌++◌, length, OnOk, OnErr};
ghost use Rattle.r3_bytes.specs.Spelling as spell;
ghost use Rattle.r3_value.specs.View.{value_of, items_of};

use byteorder::{BigEndian, ByteOrder};
use r3_value::{Memory, Outcome, Val};
use std::alloc::Global;
use std::marker::Model;

// After an error of the first three some of the bytes may stand in `out`.
fn put_number(out: &mut Vec<u8>, number: u32) -> Result<(), Memory>
    ensures { OnOk result (out.new.items ≡ out.old.items ++ spell.number number) }
{
    let mut bytes = [0; 4];
    BigEndian::write_u32(&mut bytes, number);
    out.extend_from_slice(&bytes)?;
    Ok(())
}

fn put_text(out: &mut Vec<u8>, text: &str) -> Result<(), Memory>
    requires { length text.now < 2 ^ 32 }
    ensures { OnOk result (out.new.items ≡ out.old.items ++ spell.string text.now) }
{
    put_number(out, text.len() as u32)?;
    out.extend_from_slice(text.as_bytes())?;
    Ok(())
}

fn put_val(out: &mut Vec<u8>, value: &Val) -> Result<(), Memory>
    ensures { OnOk result (out.new.items ≡ out.old.items ++ spell.value (value_of value.now)) }
{
    match value {
        Val::Null => out.push(0)?,
        Val::Bool(b) => {
            out.push(1)?;
            out.push(u8::from(*b))?;
        }
        Val::Int(n) => {
            let mut bytes = [0; 8];
            BigEndian::write_i64(&mut bytes, *n);
            out.push(2)?;
            out.extend_from_slice(&bytes)?;
        }
        Val::Text(text) => {
            out.push(3)?;
            put_text(out, text.as_str())?;
        }
        Val::List(values) => {
            let items = values.items();
            out.push(4)?;
            put_number(out, items.len() as u32)?;
            for item in items {
                put_val(out, item)?;
            }
        }
    }
    Ok(())
}

/// Bytes that fields are written to, one after the other.
///
/// A call that finds no memory leaves the bytes as they were.
#[derive(Debug, Drop)]
pub struct Writer {
    bytes: Vec<u8>,
}

impl Model for Writer {
    ghost use Rattle.std.specs.Prelude.{ℕ, List};

    ghost Value = { List ℕ };

    ghost view = { λ w. w.bytes.items };
}

impl Writer {
    /// No bytes. It takes no memory.
    pub fn new(alloc: Global) -> Writer
        ensures { result ≡ [] }
    {
        Writer {
            bytes: Vec::new(alloc),
        }
    }

    /// Appends one byte.
    pub fn u8(&mut self, value: u8) -> Result<(), Memory>
        ensures ok { OnOk result (self.new ≡ self.old ++ spell.byte value) }
        ensures err { OnErr result (self.new ≡ self.old) }
    {
        self.bytes.push(value)?;
        Ok(())
    }

    /// Appends a number as four bytes, the highest first.
    pub fn u32(&mut self, value: u32) -> Result<(), Memory>
        ensures ok { OnOk result (self.new ≡ self.old ++ spell.number value) }
        ensures err { OnErr result (self.new ≡ self.old) }
    {
        let mut number = [0; 4];
        BigEndian::write_u32(&mut number, value);
        self.bytes.extend_from_slice(&number)?;
        Ok(())
    }

    /// Appends a text: the number of its bytes, and its bytes.
    pub fn text(&mut self, value: &str) -> Result<(), Memory>
        requires { length value.now < 2 ^ 32 }
        ensures ok { OnOk result (self.new ≡ self.old ++ spell.string value.now) }
        ensures err { OnErr result (self.new ≡ self.old) }
    {
        let begun = self.bytes.len();
        self.u32(value.len() as u32)?;
        match self.bytes.extend_from_slice(value.as_bytes()) {
            Ok(()) => Ok(()),
            Err(_) => {
                self.bytes.truncate(begun);
                Err(Memory)
            }
        }
    }

    /// Appends a value: a byte for its kind, and what it holds.
    pub fn val(&mut self, value: &Val) -> Result<(), Memory>
        ensures ok { OnOk result (self.new ≡ self.old ++ spell.value (value_of value.now)) }
        ensures err { OnErr result (self.new ≡ self.old) }
    {
        // A list that finds no memory half way leaves nothing behind: it is spelled aside.
        let mut field = Vec::with_capacity(*self.bytes.allocator(), value.weight() as usize)?;
        put_val(&mut field, value)?;
        self.bytes.extend_from_slice(&field)?;
        Ok(())
    }

    /// Appends an outcome: a byte for its kind, and its value or its word.
    pub fn outcome(&mut self, value: &Outcome) -> Result<(), Memory>
        ensures ok { OnOk result (self.new ≡ self.old ++ spell.outcome value.now) }
        ensures err { OnErr result (self.new ≡ self.old) }
    {
        let mut field = Vec::new(*self.bytes.allocator());
        match value {
            Outcome::Value(value) => {
                field.push(0)?;
                put_val(&mut field, value)?;
            }
            Outcome::Failure(word) => {
                field.push(1)?;
                put_text(&mut field, word.as_str())?;
            }
        }
        self.bytes.extend_from_slice(&field)?;
        Ok(())
    }

    /// Hands out the bytes.
    pub fn done(self) -> Vec<u8>
        ensures { result.items ≡ self }
    {
        self.bytes
    }
}
