//! Why a pool makes no room.

use std::alloc::AllocError;
use thiserror::Error;

/// Why there is no room. Nothing changed.
#[derive(Debug, Drop, Error)]
pub enum PoolFault {
    /// The values in use and those asked for are more than the cap.
    #[error("the pool is full")]
    Full,
    /// There was no memory.
    #[error("out of memory")]
    Memory,
}

impl From<AllocError> for PoolFault {
    fn from(_e: AllocError) -> PoolFault {
        PoolFault::Memory
    }
}
