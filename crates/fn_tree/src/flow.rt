//! What a workflow's body asks, and how it ends.

use r3_value::{Outcome, Txt, Val};

/// What an ask is for.
#[derive(Clone, Copy)]
pub enum AskKind {
    Txn,
    Outside,
    Child,
    Await,
}

/// An ask, by its number, counted from 0. The arguments are one list value; those of an await are the
/// ID alone, as a text. The name of an await is `await`, and a child's is its workflow's.
#[derive(Drop)]
pub struct Request {
    pub n: u32,
    pub kind: AskKind,
    pub name: Txt,
    pub args: Val,
}

/// A recorded step: the name that was asked, and its outcome.
#[derive(Drop)]
pub struct Answer {
    pub name: Txt,
    pub outcome: Outcome,
}

/// How a workflow's body ends on a list of answers.
#[derive(Drop)]
pub enum FlowEnd {
    /// It ended with an outcome.
    Done(Outcome),
    /// It asks for a step that the list doesn't have.
    Asks(Request),
    /// Ask `n` has the name `asked`, and the answer of that number is another's.
    Unexpected { n: u32, recorded: Txt, asked: Txt },
}
