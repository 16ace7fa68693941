//! Why payloads are no formed history.

use thiserror::Error;

/// Why payloads weren't read as a history. Nothing was kept.
#[derive(Clone, Copy, Debug, PartialEq, Eq, Error)]
pub enum LoadFault {
    /// This entry, counted from 1, is the first that is no entry or breaks a rule of formed histories.
    #[error("entry {entry} may not stand there")]
    NotFormed { entry: u32 },
    /// A growth was refused.
    #[error("out of memory")]
    Memory,
}
