//! What a step answers.

use r3_rows::{FlowRow, Status};
use r3_value::{Outcome, Txt, Val};
use sys_flow::Refusal;

/// What a history has no more room for.
#[derive(Clone, Copy)]
pub enum Limit {
    /// It has 1,000,000 entries.
    Entries,
    /// Its file would have more than 2^30 bytes.
    Bytes,
}

/// What an event is answered.
#[derive(Drop)]
pub enum Reply {
    /// The entry of this number was appended.
    Entry { number: u32 },
    /// The entry of this number was appended for the workflow, or started it before.
    EntryOf { number: u32, id: Txt },
    /// There is no room for the entry.
    Full(Limit),
    /// The event was refused.
    Refused(Refusal),
    /// A turn opened the snapshot of its transaction.
    Began { snap: u32 },
    /// A transaction lost to the entry of this number, the first past its snapshot that wrote one of its keys.
    Conflicts { entry: u32 },
    /// The workflow that is awaited hasn't ended.
    Waiting { id: Txt },
    /// The external call has failed.
    Again,
    /// The workflow doesn't run.
    NotPending(Status),
    /// The function asks for another name than was recorded as step `n`.
    Unexpects { n: u32, recorded: Txt, asked: Txt },
    /// Nobody waits in the queue.
    Empty,
    /// So many of the queue's workflows run already: the bound or more.
    AtLimit { running: usize },
    /// The row of a workflow.
    Row { id: Txt, row: FlowRow },
    /// The value of a user's row.
    Value(Val),
    /// There is no such row.
    Absent,
    /// Nothing happened.
    Nil,
}

/// A call of an external service: the workflow, its step, what is called, and the answer, None where asking failed.
#[derive(Drop)]
pub struct Call {
    /// The ID of the workflow that calls.
    pub id: Txt,
    /// The number of its step.
    pub n: u32,
    /// The name of the service.
    pub name: Txt,
    /// The arguments, as one list.
    pub args: Val,
    /// What was answered.
    pub answer: Option<Outcome>,
}

/// What a step gives beside the new state.
#[derive(Drop)]
pub struct Out {
    /// The reply.
    pub reply: Reply,
    /// The external call, if one was made.
    pub call: Option<Call>,
}
