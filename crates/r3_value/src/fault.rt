//! Why a value can't be made.

use std::alloc::{AllocError, AllocFailed};
use thiserror::Error;

/// There was no memory.
#[derive(Clone, Copy, Debug, PartialEq, Eq, Error)]
#[error("out of memory")]
pub struct Memory;

impl From<AllocError> for Memory {
    fn from(_e: AllocError) -> Memory {
        Memory
    }
}

impl<T: Drop> From<AllocFailed<T>> for Memory {
    fn from(_e: AllocFailed<T>) -> Memory {
        Memory
    }
}

/// Why a value can't be made.
#[derive(Debug, Drop, PartialEq, Eq, Error)]
pub enum ValFault {
    /// It would have so many bytes, more than 4,096.
    #[error("the value would have {0} bytes")]
    TooLarge(u128),
    /// It isn't too large, and its lists would nest more than 16 deep.
    #[error("lists lie too deep in the value")]
    TooDeep,
    /// There was no memory. Neither limit is passed.
    #[error("out of memory")]
    Memory,
}
