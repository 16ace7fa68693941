//! Why a text isn't a program.

ghost use Rattle.std.specs.Prelude.{◌≡◌};

use r3_value::Memory as NoMemory;
use thiserror::Error;

/// Why a text isn't a program.
#[derive(Debug, Drop, Error)]
pub enum SyntaxError {
    /// The start of the first token with which the grammar can't go on, or that passes a limit; the
    /// text's length where the text ends too early.
    #[error("no program goes on so at byte {at}")]
    Syntax { at: u32 },
    /// There was no memory for the program.
    #[error("out of memory")]
    Memory,
}

impl From<NoMemory> for SyntaxError {
    ghost use Rattle.fn_syntax.specs.declared.fault.SyntaxError.TheVariants.{Memory};

    ghost from_gives = { λ _ e. e ≡ Memory };

    fn from(_e: NoMemory) -> SyntaxError {
        SyntaxError::Memory
    }
}
