//! Why a store gives no answer.

use r3_gate::Limit;
use thiserror::Error;

/// Why a file doesn't open as a store. Nothing was written.
#[derive(Clone, Copy, Debug, PartialEq, Eq, Error)]
pub enum OpenFault {
    /// The file is longer than a header and doesn't begin with the magic bytes.
    #[error("not a store")]
    NotStore,
    /// The record of this entry, counted from 1, is committed and isn't whole.
    #[error("entry {entry} is damaged")]
    Damaged { entry: u32 },
    /// No record is damaged, and this is the first that is no entry or breaks a rule of formed histories.
    #[error("entry {entry} may not stand there")]
    NotFormed { entry: u32 },
    /// The disk has failed.
    #[error("the disk failed")]
    Disk,
    /// A growth was refused.
    #[error("out of memory")]
    Memory,
}

/// Why an entry wasn't taken. After `Disk` the store isn't used again: open it anew. After any other
/// fault nothing has changed.
#[derive(Clone, Copy, Debug, PartialEq, Eq, Error)]
pub enum CommitFault {
    /// This entry, the first past the snapshot to do so, wrote a key that the new entry writes.
    #[error("entry {entry} wrote the same key")]
    Conflict { entry: u32 },
    /// One more entry would pass the limit.
    #[error("the store is full")]
    Full { limit: Limit },
    /// The disk has failed. What wasn't settled may be lost, and nothing else.
    #[error("the disk failed")]
    Disk,
    /// A growth was refused.
    #[error("out of memory")]
    Memory,
}
