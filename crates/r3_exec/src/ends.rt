//! What the executor answers.

ghost use Rattle.std.specs.Prelude.{◌≡◌};

use r3_gate::Limit;
use r3_rows::Status;
use r3_value::{Memory, Txt};
use sys_flow::Refusal;
use thiserror::Error;

/// What a turn came to.
#[derive(Debug, Drop)]
pub enum TurnEnd {
    /// The workflow doesn't run: its status.
    None { status: Status },
    /// The snapshot of its transaction was opened.
    Began { snap: u32 },
    /// The entry of this number was appended.
    Entry { number: u32 },
    /// The transaction lost to the entry of this number, the first past its snapshot that wrote one of its keys.
    Conflict { entry: u32 },
    /// The workflow that it awaits hasn't ended.
    Waiting { id: Txt },
    /// The external call has failed.
    Again,
    /// The function asks for another name than was recorded as step `n`.
    Unexpected { n: u32, recorded: Txt, asked: Txt },
    /// There is no room for the entry.
    Full { limit: Limit },
}

/// What a dequeue came to.
#[derive(Debug, Drop)]
pub enum DequeueEnd {
    /// The workflow was started by the entry of this number.
    Started { id: Txt, number: u32 },
    /// Nobody waits.
    Empty,
    /// So many run already: the bound or more.
    Limit { running: u32 },
    /// There is no room for the entry.
    Full { limit: Limit },
}

/// What a command came to.
#[derive(Debug, Drop)]
pub enum CommandEnd {
    /// The entry of this number was appended or, for an ID that is used again, stood there. The ID comes with the
    /// commands that make a workflow.
    Made { number: u32, id: Option<Txt> },
    /// Nothing was done.
    Refused(Refusal),
    /// There is no room for the entry.
    Full { limit: Limit },
}

/// Why an event wasn't done. The executor isn't used again: open the store anew.
#[derive(Clone, Copy, Debug, PartialEq, Eq, Error)]
pub enum ExecFault {
    /// The disk has failed.
    #[error("the disk has failed")]
    Disk,
    /// There was no memory.
    #[error("out of memory")]
    Memory,
}

impl From<Memory> for ExecFault {
    ghost use Rattle.r3_exec.specs.declared.ends.ExecFault.TheVariants.{Memory};

    ghost from_gives = { λ _ e. e ≡ Memory };

    fn from(_: Memory) -> Self {
        ExecFault::Memory
    }
}
