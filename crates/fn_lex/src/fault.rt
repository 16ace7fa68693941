//! Why a text has no tokens.

ghost use Rattle.std.specs.Prelude.{◌≡◌};

use std::alloc::{AllocError, AllocFailed};
use thiserror::Error;

/// Why a text has no tokens.
#[derive(Debug, Drop, Error)]
pub enum LexError {
    /// The first place where no token and no blank or comment stands: the start of a lexeme that
    /// passes its limits, a byte that begins none, or a byte from 0x80 on in a comment.
    #[error("no token at byte {at}")]
    Lex { at: u32 },
    /// There was no memory for the tokens.
    #[error("out of memory")]
    Memory,
}

impl From<AllocError> for LexError {
    ghost use Rattle.fn_lex.specs.declared.fault.LexError.TheVariants.{Memory};

    ghost from_gives = { λ _ e. e ≡ Memory };

    fn from(_e: AllocError) -> LexError {
        LexError::Memory
    }
}

impl<T: Drop> From<AllocFailed<T>> for LexError {
    ghost use Rattle.fn_lex.specs.declared.fault.LexError.TheVariants.{Memory};

    ghost from_gives = { λ _ e. e ≡ Memory };

    fn from(_e: AllocFailed<T>) -> LexError {
        LexError::Memory
    }
}
