//! Why a program isn't sound.

ghost use Rattle.std.specs.Prelude.{◌≡◌};

use r3_value::Memory;
use std::alloc::{AllocError, AllocFailed};
use thiserror::Error;

/// What is wrong at a place.
#[derive(Clone, Copy, Debug, PartialEq, Eq, Error)]
pub enum CheckKind {
    /// An item's name is declared before, a parameter has the name of an earlier one, or a variable
    /// is bound while its name is in scope.
    #[error("duplicate_name")]
    DuplicateName,
    /// No item has the name.
    #[error("unknown_name")]
    UnknownName,
    /// The item is of another kind than its place needs, or the statement stands in a body of the
    /// other kind.
    #[error("kind")]
    Kind,
    /// A helper calls itself or a later helper.
    #[error("call_order")]
    CallOrder,
    /// The number of arguments isn't the item's.
    #[error("arity")]
    Arity,
    /// A variable that isn't in scope is used or set.
    #[error("unbound")]
    Unbound,
}

/// Why a program isn't taken.
#[derive(Debug, Drop, Error)]
pub enum CheckError {
    /// The first fault: what is wrong, in which item, counted from 1.
    #[error("item {item}: {kind}")]
    Check { item: u32, kind: CheckKind },
    /// There was no memory for the names in scope.
    #[error("out of memory")]
    Memory,
}

/// Why the check of a part ends.
#[derive(Drop)]
pub enum Stop {
    Fault(CheckKind),
    Memory,
}

impl From<CheckKind> for Stop {
    ghost use Rattle.fn_check.specs.declared.fault.Stop.TheVariants.{Fault};

    ghost from_gives = { λ kind e. e ≡ Fault kind };

    fn from(kind: CheckKind) -> Stop {
        Stop::Fault(kind)
    }
}

impl From<Memory> for Stop {
    ghost use Rattle.fn_check.specs.declared.fault.Stop.TheVariants as stop;

    ghost from_gives = { λ _ e. e ≡ stop.Memory };

    fn from(_e: Memory) -> Stop {
        Stop::Memory
    }
}

impl From<Memory> for CheckError {
    ghost use Rattle.fn_check.specs.declared.fault.CheckError.TheVariants as error;

    ghost from_gives = { λ _ e. e ≡ error.Memory };

    fn from(_e: Memory) -> CheckError {
        CheckError::Memory
    }
}
