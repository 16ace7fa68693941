//! A line of a script.

use r3_value::Txt;
use sys_flow::{Command, Text};

/// What a line asks for. IDs and names may have any length.
#[derive(Debug, Drop)]
pub enum Line {
    /// A command, which no line makes a recovery.
    Command(Command),
    /// A turn of the workflow of this ID.
    Turn(Text),
    /// The start of the next workflow of the queue of this name.
    Dequeue(Text),
    /// The row of the workflow of this ID.
    Status(Text),
    /// The value of a table's row. The key has 1 to 256 bytes.
    Get { table: Text, key: Txt },
    /// A run of the scheduler with at most so many turns, 1 to 1,000,000.
    Drain { turns: u32 },
    /// Nothing: the line is no JSON.
    Unread,
    /// Nothing: the line is JSON of no form.
    Unformed,
}
