//! Keys and cells.

use r3_value::{Outcome, Txt, Val};
use sqlite_items::Items;

/// Where a workflow stands.
#[derive(Clone, Copy, Debug, PartialEq, Eq)]
pub enum Status {
    /// It waits in a queue.
    Enqueued,
    /// It is given turns.
    Pending,
    /// It ended with a value.
    Success,
    /// It ended with a failure.
    Error,
    /// It was cancelled, and may be resumed.
    Cancelled,
    /// It was recovered too often, and may be resumed.
    MaxRecoveryAttemptsExceeded,
}

/// What a step of a workflow was.
#[derive(Clone, Copy, Debug, PartialEq, Eq)]
pub enum StepKind {
    /// A transaction.
    Txn,
    /// A call of an external service.
    Outside,
    /// The start of a child workflow.
    Child,
    /// A wait for a workflow's end.
    Await,
}

/// What a cell stands under.
#[derive(Debug, Drop, PartialEq, Eq, PartialOrd, Ord)]
pub enum Key {
    /// A user's row: the key in the table.
    User { table: Txt, key: Txt },
    /// The workflow of this ID.
    Flow { id: Txt },
    /// Step `n` of a workflow, counted from 0.
    Step { id: Txt, n: u32 },
}

/// A workflow as it stands.
#[derive(Debug, Drop)]
pub struct FlowRow {
    /// Where it stands.
    pub status: Status,
    /// The name of its function.
    pub function: Txt,
    /// The arguments, as one list.
    pub args: Val,
    /// What it ended with, if it has ended.
    pub outcome: Option<Outcome>,
    /// The queue that it was put in.
    pub queue: Option<Txt>,
    /// The number of the entry that made the row. It never changes.
    pub started: u32,
    /// How often it was recovered, 0 to 51.
    pub attempts: u32,
    /// The ID of the workflow that started it.
    pub parent: Option<Txt>,
}

/// A step that was taken, and is never taken again.
#[derive(Debug, Drop)]
pub struct StepRow {
    /// What was called: the transaction, the external service, the child's function, or `await`.
    pub name: Txt,
    /// What it was.
    pub kind: StepKind,
    /// What it gave.
    pub outcome: Outcome,
}

/// What stands under a key.
#[derive(Debug, Drop)]
pub enum Cell {
    /// The value of a user's row.
    Row(Val),
    /// A workflow.
    Flow(FlowRow),
    /// A step.
    Step(StepRow),
}

/// A look of a transaction at its snapshot. A version is the number of the last entry up to the snapshot
/// that wrote the key, a deletion counting, or 0.
#[derive(Debug, Drop)]
pub enum Read {
    /// A key, with its version.
    At {
        table: Txt,
        key: Txt,
        version: u32,
    },
    /// The keys from `lo` and below `hi` that were present, with their versions.
    Range {
        table: Txt,
        lo: Txt,
        hi: Txt,
        keys: Items<(Txt, u32)>,
    },
}
