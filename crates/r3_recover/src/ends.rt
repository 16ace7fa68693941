//! What a drain and an opening answer.

use r3_store::OpenFault;
use thiserror::Error;

/// What a drain came to.
#[derive(Clone, Copy, Debug, PartialEq, Eq)]
pub enum DrainEnd {
    /// The last whole round changed nothing. So many dequeues and turns were taken.
    Idle { turns: u32 },
    /// All were taken, and nothing tells that there is no more to do.
    Spent { turns: u32 },
}

/// Why there is no executor. After `Disk` the store is opened anew.
#[derive(Clone, Copy, Debug, PartialEq, Eq, Error)]
pub enum StartFault {
    /// The file isn't a store, or its history is none: `NotStore`, `Damaged` or `NotFormed` alone.
    #[error("{0}")]
    Store(OpenFault),
    /// The store was begun with another program.
    #[error("the store has another program")]
    Other,
    /// The disk has failed.
    #[error("the disk has failed")]
    Disk,
    /// There was no memory.
    #[error("out of memory")]
    Memory,
}
