//! Why a JSON isn't read.

use r3_value::{Memory, ValFault};
use std::alloc::{AllocError, AllocFailed};
use thiserror::Error;

/// Why a JSON is no value: its first fault. The faults of a list's items come in their order and
/// before the list's own.
#[derive(Clone, Copy, Debug, PartialEq, Eq, Error)]
pub enum JsonFault {
    /// A number isn't one that `as_i64` gives: it has a point or an exponent, is `-0`, or doesn't fit.
    #[error("a number isn't whole")]
    NotWhole,
    /// A value is an object.
    #[error("a value is an object")]
    Object,
    /// A text or a list has more than 4,096 bytes as a value.
    #[error("the value is too large")]
    TooLarge,
    /// A list isn't too large, and its lists nest more than 16 deep.
    #[error("lists lie too deep in the value")]
    TooDeep,
    /// There was no memory.
    #[error("out of memory")]
    Memory,
}

impl From<ValFault> for JsonFault {
    ghost use Rattle.std.specs.Prelude.{◌≡◌};
    ghost use Rattle.r3_json.specs.Faults.{fault_of};

    ghost from_gives = { λ v e. e ≡ fault_of v };

    fn from(fault: ValFault) -> JsonFault {
        match fault {
            ValFault::TooLarge(_) => JsonFault::TooLarge,
            ValFault::TooDeep => JsonFault::TooDeep,
            ValFault::Memory => JsonFault::Memory,
        }
    }
}

impl From<AllocError> for JsonFault {
    ghost use Rattle.std.specs.Prelude.{◌≡◌};
    ghost use Rattle.r3_json.specs.declared.fault.JsonFault.TheVariants.{Memory};

    ghost from_gives = { λ _ e. e ≡ Memory };

    fn from(_e: AllocError) -> JsonFault {
        JsonFault::Memory
    }
}

impl<T: Drop> From<AllocFailed<T>> for JsonFault {
    ghost use Rattle.std.specs.Prelude.{◌≡◌};
    ghost use Rattle.r3_json.specs.declared.fault.JsonFault.TheVariants.{Memory};

    ghost from_gives = { λ _ e. e ≡ Memory };

    fn from(_e: AllocFailed<T>) -> JsonFault {
        JsonFault::Memory
    }
}

/// Why the bytes of a line give no JSON.
#[derive(Clone, Copy, Debug, PartialEq, Eq, Error)]
pub enum ReadFault {
    /// They are no UTF-8, or no JSON of at most 127 levels with numbers in a float's range.
    #[error("not JSON")]
    Syntax,
    /// There was no memory.
    #[error("out of memory")]
    Memory,
}

impl From<Memory> for ReadFault {
    ghost use Rattle.std.specs.Prelude.{◌≡◌};
    ghost use Rattle.r3_json.specs.declared.fault.ReadFault.TheVariants.{Memory};

    ghost from_gives = { λ _ e. e ≡ Memory };

    fn from(_e: Memory) -> ReadFault {
        ReadFault::Memory
    }
}
