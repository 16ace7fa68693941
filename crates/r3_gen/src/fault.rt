//! Why a script wasn't run to its summary.

use r3_recover::StartFault;
use thiserror::Error;

/// Why no summary was said. After `Disk` the store is opened anew.
#[derive(Clone, Copy, Debug, PartialEq, Eq, Error)]
pub enum GenFault {
    /// The store wasn't opened, and no line was done.
    #[error("{0}")]
    Start(StartFault),
    /// The disk has failed.
    #[error("the disk has failed")]
    Disk,
    /// There was no memory.
    #[error("out of memory")]
    Memory,
    /// The output has failed.
    #[error("the output has failed")]
    Say,
}
