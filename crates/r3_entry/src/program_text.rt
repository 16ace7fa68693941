//! The text of a program.

ghost use Rattle.std.specs.Prelude.{◌≡◌, IfOk, IsTrue, string_bytes};
ghost use Rattle.std.specs.Str.{is_utf8};

use r3_value::Memory;
use std::marker::Model;

/// The text of a function file. A contract sees its bytes, which are UTF-8.
#[derive(Debug, Drop)]
pub struct ProgramText {
    text: String,
}

impl Model for ProgramText {
    ghost use Rattle.std.specs.Prelude.{ℕ, List, string_bytes};

    ghost Value = { List ℕ };

    ghost view = { λ t. string_bytes t.text };
}

impl ProgramText {
    /// The text of a string. It takes no memory.
    pub fn from_string(text: String) -> ProgramText
        ensures { result ≡ string_bytes text }
    {
        ProgramText { text }
    }

    /// The string, given back. It takes no memory.
    pub fn into_string(self) -> String
        ensures { string_bytes result ≡ self }
    {
        self.text
    }

    /// The text as it is borrowed.
    pub fn as_str(&self) -> &str
        ensures text { result.now ≡ self.now }
        ensures utf8 { IsTrue (is_utf8 self.now) }
    {
        self.text.as_str()
    }

    /// A text with the same bytes.
    pub fn copy(&self) -> Result<ProgramText, Memory>
        ensures { IfOk result (λ t. t ≡ self.now) }
    {
        let text = self.text.clone()?;
        Ok(ProgramText { text })
    }
}
