//! Why a script gives no line.

use r3_desk::ReadFault;
use std::alloc::AllocFailed;
use thiserror::Error;

/// Why a script gives no line. It isn't used again after any of them.
#[derive(Clone, Copy, Debug, PartialEq, Eq, Error)]
pub enum ScriptFault {
    /// The source has failed. Every line that ended before was handed out.
    #[error("the source failed")]
    Source,
    /// The source gives more than 2^26 bytes. Every line that ends in the first 2^26 was handed out.
    #[error("the script is too long")]
    TooLong,
    /// There was no memory for the line.
    #[error("out of memory")]
    Memory,
}

impl From<ReadFault> for ScriptFault {
    ghost use Rattle.std.specs.Prelude.{◌≡◌};
    ghost use Rattle.r3_script.specs.declared.fault.ScriptFault.TheVariants.{Source};

    ghost from_gives = { λ _ e. e ≡ Source };

    fn from(_: ReadFault) -> Self {
        ScriptFault::Source
    }
}

impl<T: Drop> From<AllocFailed<T>> for ScriptFault {
    ghost use Rattle.std.specs.Prelude.{◌≡◌};
    ghost use Rattle.r3_script.specs.declared.fault.ScriptFault.TheVariants.{Memory};

    ghost from_gives = { λ _ e. e ≡ Memory };

    fn from(_: AllocFailed<T>) -> Self {
        ScriptFault::Memory
    }
}
