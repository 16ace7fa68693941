//! Why lines aren't answered.

use thiserror::Error;

/// Why a line wasn't answered. The session isn't used again.
#[derive(Clone, Copy, Debug, PartialEq, Eq, Error)]
pub enum ServeFault {
    /// The disk has failed.
    #[error("the disk has failed")]
    Disk,
    /// There was no memory.
    #[error("out of memory")]
    Memory,
    /// The output has failed.
    #[error("the output has failed")]
    Say,
}

/// Why a script wasn't answered to its end.
#[derive(Clone, Copy, Debug, PartialEq, Eq, Error)]
pub enum ScriptStop {
    /// The disk has failed.
    #[error("the disk has failed")]
    Disk,
    /// There was no memory.
    #[error("out of memory")]
    Memory,
    /// The output has failed.
    #[error("the output has failed")]
    Say,
    /// The source has failed. Every line that ended before was answered.
    #[error("the source failed")]
    Source,
    /// The script has more than 2^26 bytes. Every line that ends in the first 2^26 was answered.
    #[error("the script is too long")]
    TooLong,
}
