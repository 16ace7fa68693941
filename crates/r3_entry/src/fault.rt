//! Why bytes are no entry.

use thiserror::Error;

/// Why `decode` gives no entry.
#[derive(Debug, Drop, Error)]
pub enum EntryFault {
    /// The bytes are not those of an entry.
    #[error("no entry")]
    NotEntry,
    /// There was no memory.
    #[error("out of memory")]
    Memory,
}
