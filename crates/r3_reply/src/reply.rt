//! A reply.

use r3_gate::Limit;
use r3_rows::{FlowRow, Status};
use r3_value::Val;
use sys_flow::Refusal;

/// What a line is answered. IDs, names, rows and values are borrowed.
#[derive(Drop)]
pub enum Reply<'a> {
    /// The entry of this number was appended.
    Entry {
        number: u32,
    },
    /// A workflow of this ID was started by the entry of this number.
    EntryOf {
        number: u32,
        id: &'a str,
    },
    /// There is no room for one more entry.
    Full {
        limit: Limit,
    },
    /// A command was refused.
    Refused {
        refusal: Refusal,
    },
    /// A transaction began on the history of this length.
    Began {
        snap: u32,
    },
    /// A transaction met the entry of this number.
    Conflict {
        entry: u32,
    },
    /// A workflow awaits the one of this ID.
    Waiting {
        id: &'a str,
    },
    /// The outside didn't answer.
    Again,
    /// A workflow of this status is given no turn.
    NotPending {
        status: Status,
    },
    /// A workflow asks otherwise than its record tells, at its step `n`.
    Unexpected {
        n: u32,
        recorded: &'a str,
        asked: &'a str,
    },
    /// Nobody waits in the queue.
    Empty,
    /// So many of the queue's workflows run already.
    Limit {
        running: u32,
    },
    /// A run of the scheduler found no more to do.
    Idle {
        turns: u32,
    },
    /// A run of the scheduler gave all turns that it was allowed.
    Spent {
        turns: u32,
    },
    /// A workflow's row.
    Row {
        id: &'a str,
        row: &'a FlowRow,
    },
    /// The value of a row.
    Value(&'a Val),
    /// There is no such row.
    Absent,
    /// The line is no JSON.
    NotRead,
    /// The line is JSON of no form.
    NotForm,
}
