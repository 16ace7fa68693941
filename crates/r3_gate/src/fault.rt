//! Why the log gives no answer.

use r3_desk::DiskFault;
use std::alloc::{AllocError, AllocFailed};
use thiserror::Error;

/// What a log has at most.
#[derive(Clone, Copy, Debug, PartialEq, Eq)]
pub enum Limit {
    /// 1,000,000 records.
    Entries,
    /// 2^30 bytes, up to the last commit byte and with it.
    Bytes,
}

/// Why the log gives no answer. After `Disk` it isn't used again: open it anew.
#[derive(Clone, Copy, Debug, PartialEq, Eq, Error)]
pub enum GateFault {
    /// The file is longer than a header and doesn't begin with the magic bytes.
    #[error("not a store")]
    NotStore,
    /// The record of this entry, counted from 1, is committed and isn't whole.
    #[error("entry {entry} is damaged")]
    Damaged { entry: u32 },
    /// One more record would pass the limit. Nothing changed.
    #[error("the log is full")]
    Full { limit: Limit },
    /// The disk has failed. What is staged may be lost, and nothing else.
    #[error("the disk failed")]
    Disk,
    /// A growth was refused. Nothing changed.
    #[error("out of memory")]
    Memory,
}

impl From<AllocError> for GateFault {
    ghost use Rattle.std.specs.Prelude.{◌≡◌};
    ghost use Rattle.r3_gate.specs.declared.fault.GateFault.TheVariants.{Memory};

    ghost from_gives = { λ _ e. e ≡ Memory };

    fn from(_: AllocError) -> Self {
        GateFault::Memory
    }
}

impl<T: Drop> From<AllocFailed<T>> for GateFault {
    ghost use Rattle.std.specs.Prelude.{◌≡◌};
    ghost use Rattle.r3_gate.specs.declared.fault.GateFault.TheVariants.{Memory};

    ghost from_gives = { λ _ e. e ≡ Memory };

    fn from(_: AllocFailed<T>) -> Self {
        GateFault::Memory
    }
}

impl From<DiskFault> for GateFault {
    ghost use Rattle.std.specs.Prelude.{◌≡◌};
    ghost use Rattle.r3_gate.specs.declared.fault.GateFault.TheVariants.{Disk};

    ghost from_gives = { λ _ e. e ≡ Disk };

    fn from(_: DiskFault) -> Self {
        GateFault::Disk
    }
}
