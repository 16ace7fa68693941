//! Why a part of a body doesn't go on.

use fn_tree::flow::Request;
use r3_value::{Memory, Txt, Val};
use std::alloc::{AllocError, AllocFailed};

/// Why a part of a body doesn't go on.
#[derive(Drop)]
pub enum Break {
    /// It returned this value.
    Returned(Val),
    /// It failed with this word.
    Failed(Txt),
    /// It asks, and the answer isn't known.
    Asks(Request),
    Memory,
    /// An expression is stuck, or a statement is one of another kind of body. A sound body never comes
    /// here.
    Stuck,
}

impl From<AllocError> for Break {
    ghost use Rattle.std.specs.Prelude.{◌≡◌};
    ghost use Rattle.fn_walk.specs.declared.broken.Break.TheVariants.{Memory};

    ghost from_gives = { λ _ e. e ≡ Memory };

    fn from(_e: AllocError) -> Break {
        Break::Memory
    }
}

impl From<Memory> for Break {
    ghost use Rattle.std.specs.Prelude.{◌≡◌};
    ghost use Rattle.fn_walk.specs.declared.broken.Break.TheVariants.{Memory};

    ghost from_gives = { λ _ e. e ≡ Memory };

    fn from(_e: Memory) -> Break {
        Break::Memory
    }
}

impl<T: Drop> From<AllocFailed<T>> for Break {
    ghost use Rattle.std.specs.Prelude.{◌≡◌};
    ghost use Rattle.fn_walk.specs.declared.broken.Break.TheVariants.{Memory};

    ghost from_gives = { λ _ e. e ≡ Memory };

    fn from(_e: AllocFailed<T>) -> Break {
        Break::Memory
    }
}
