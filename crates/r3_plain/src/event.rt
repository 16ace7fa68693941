//! What may happen.

use r3_entry::ProgramText;
use sys_flow::{Command, Text};

/// One thing that may happen to a state.
#[derive(Drop)]
pub enum Event {
    /// A program's text is appended. It fits an empty history alone.
    Append { text: ProgramText },
    /// A command is done.
    Run(Command),
    /// A workflow goes one step on.
    Turn { id: Text },
    /// A queue starts its next workflow.
    Dequeue { queue: Text },
    /// A workflow's row is looked at.
    ShowStatus { id: Text },
    /// A user's row is looked at.
    GetRow { table: Text, key: Text },
    /// Nothing happens.
    Nothing,
}
