//! Cutting bytes at newlines.

ghost use Rattle.std.specs.Prelude.{◌≡◌, ◌≤◌, ◌^◌};
ghost use Rattle.r3_script.specs.Lines.{is_line, is_space};

use crate::fault::ScriptFault;
use std::alloc::Global;

const LIMIT: u32 = 1 << 26;

const NEWLINE: u8 = 10;

/// The bytes behind the last newline, and how many bytes were passed in all.
#[derive(Drop)]
pub struct Piece {
    bytes: Vec<u8>,
    passed: u32,
    ghost limit: { passed ≤ 2 ^ 26 },
}

impl Piece {
    ghost use Rattle.std.specs.Prelude.{ℕ, ◌+◌, List, [], IfOk, Err};
    ghost use Rattle.r3_script.specs.Lines.{Text};
    ghost use Rattle.r3_script.specs.Piece.{Cuts, Pushed};

    pub fn new(alloc: Global) -> Piece
        ensures bytes { result.bytes.items ≡ [] }
        ensures passed { result.passed ≡ 0 }
    {
        Piece {
            bytes: Vec::new(alloc),
            passed: 0,
        }
    }

    pub fn bytes(&self) -> &[u8]
        ensures { result.now ≡ self.now.bytes.items }
    {
        &self.bytes
    }

    /// Whether the piece isn't blank.
    pub fn has_text(&self) -> bool
        ensures { result ≡ is_line self.now.bytes.items }
    {
        has_text(&self.bytes)
    }

    /// Begins the next piece.
    pub fn clear(&mut self)
        ensures bytes { self.new.bytes.items ≡ [] }
        ensures passed { self.new.passed ≡ self.old.passed }
    {
        self.bytes.clear();
    }

    /// Passes one byte more, and answers whether it ends a line, which is then the piece.
    pub fn push(&mut self, byte: u8) -> Result<bool, ScriptFault>
        ensures pushed { (bytes : List ℕ) (handed : List Text) → Cuts self.old bytes handed →
            Pushed self.new bytes byte handed result }
        ensures passed { IfOk result (λ _. self.new.passed ≡ self.old.passed + 1) }
        ensures others { result ≡ Err ScriptFault.Source → ⊥ }
    {
        if self.passed >= LIMIT {
            return Err(ScriptFault::TooLong);
        }
        self.passed += 1;
        if byte != NEWLINE {
            self.bytes.push(byte)?;
            return Ok(false);
        }
        if has_text(&self.bytes) {
            return Ok(true);
        }
        self.bytes.clear();
        Ok(false)
    }
}

// Whether a piece isn't blank.
fn has_text(bytes: &[u8]) -> bool
    ensures { result ≡ is_line bytes.now }
{
    'bytes: for byte in bytes {
        if !is_blank(*byte) {
            return true;
        }
    }
    false
}

fn is_blank(byte: u8) -> bool
    ensures { result ≡ is_space byte }
{
    byte == b' ' || byte == b'\t' || byte == b'\r'
}
