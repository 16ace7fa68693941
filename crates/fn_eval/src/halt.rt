//! Why an evaluation gives no value.

use r3_value::{Memory, Txt};
use std::alloc::{AllocError, AllocFailed};
use thiserror::Error;

/// Why the evaluation of a sound expression gave no value.
#[derive(Debug, Drop, Error)]
pub enum Fail {
    /// It fails with this word, and so many units are left.
    #[error("the expression fails")]
    Word { word: Txt, units: u32 },
    #[error("out of memory")]
    Memory,
}

/// Why the evaluation of any expression gave no value.
#[derive(Drop)]
pub enum Halt {
    /// It fails with this word, and so many units are left.
    Word { word: Txt, units: u32 },
    Memory,
    /// A name isn't bound, or no helper has the name with that number of parameters. A sound
    /// expression never comes here.
    Stuck,
}

impl From<AllocError> for Halt {
    ghost use Rattle.std.specs.Prelude.{◌≡◌};
    ghost use Rattle.fn_eval.specs.declared.halt.Halt.TheVariants.{Memory};

    ghost from_gives = { λ _ e. e ≡ Memory };

    fn from(_e: AllocError) -> Halt {
        Halt::Memory
    }
}

impl From<Memory> for Halt {
    ghost use Rattle.std.specs.Prelude.{◌≡◌};
    ghost use Rattle.fn_eval.specs.declared.halt.Halt.TheVariants.{Memory};

    ghost from_gives = { λ _ e. e ≡ Memory };

    fn from(_e: Memory) -> Halt {
        Halt::Memory
    }
}

impl<T: Drop> From<AllocFailed<T>> for Halt {
    ghost use Rattle.std.specs.Prelude.{◌≡◌};
    ghost use Rattle.fn_eval.specs.declared.halt.Halt.TheVariants.{Memory};

    ghost from_gives = { λ _ e. e ≡ Memory };

    fn from(_e: AllocFailed<T>) -> Halt {
        Halt::Memory
    }
}
