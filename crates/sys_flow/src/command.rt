//! Commands on workflows, and why one is refused.

use crate::text::Text;
use r3_rows::Status;
use r3_value::{Txt, Val};
use sqlite_items::Items;

/// What is asked of the machine. Where an ID is None the machine makes one.
#[derive(Debug, Drop)]
pub enum Command {
    /// Writes rows of a table: 1 to 1,024, with different keys.
    Load {
        table: Text,
        rows: Items<(Txt, Val)>,
    },
    /// Starts a workflow. `args` is a list.
    Start {
        id: Option<Text>,
        function: Text,
        args: Val,
    },
    /// Puts a workflow in a queue. `args` is a list.
    Enqueue {
        id: Option<Text>,
        queue: Text,
        function: Text,
        args: Val,
    },
    /// Cancels a workflow that waits or runs.
    Cancel {
        id: Text,
    },
    /// Takes up a workflow again that was cancelled or was recovered too often.
    Resume {
        id: Text,
    },
    /// Starts a workflow with the first `step` recorded steps of another.
    Fork {
        source: Text,
        step: u32,
        to: Option<Text>,
    },
    /// Counts a recovery of a running workflow.
    Recover {
        id: Text,
    },
}

/// Why a command is refused. After a refusal everything is as before.
#[derive(Clone, Copy, Debug, PartialEq, Eq)]
pub enum Refusal {
    /// No such table is declared.
    UnknownTable,
    /// No such queue is declared.
    UnknownQueue,
    /// No workflow function of that name is declared.
    UnknownFunction,
    /// The number of arguments isn't the function's.
    Arity,
    /// The new ID hasn't 1 to 200 bytes.
    Id,
    /// No workflow has the ID; for a fork: the source's.
    UnknownId,
    /// The new ID stands under another function.
    Conflict,
    /// The workflow's status forbids the command.
    Status { status: Status },
    /// The fork's number exceeds the number of recorded steps.
    Step,
}
