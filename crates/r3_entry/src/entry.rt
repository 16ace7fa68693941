//! Entries of a history.

ghost use Rattle.std.specs.Prelude.{◌≡◌};

use crate::program_text::ProgramText;
use r3_rows::{Read, Writes};
use r3_value::{Txt, Val};
use sqlite_items::Items;

/// What was done. IDs have 1 to 200 bytes; a step is numbered from 0 and below 1,000.
#[derive(Debug, Drop)]
pub enum Act {
    /// The text of the function file, of at most 2^20 bytes. It is entry 1.
    Program { text: ProgramText },
    /// User rows were loaded.
    Load,
    /// A workflow was started.
    Start { id: Txt },
    /// A workflow was put into a queue.
    Enqueue { id: Txt },
    /// A queue's next workflow was started.
    Dequeue { id: Txt },
    /// Step n of the workflow was a transaction, called with a list of at most 16 arguments.
    Txn { id: Txt, n: u32, args: Val },
    /// Step n was a call of an external service, with a list of at most 16 arguments.
    Outside { id: Txt, n: u32, args: Val },
    /// Step n started a child, or found it started.
    Child { id: Txt, n: u32, child: Txt },
    /// Step n waited for the workflow `on`, which may be any text.
    Await { id: Txt, n: u32, on: Txt },
    /// A workflow ended.
    Finish { id: Txt },
    /// A workflow was cancelled.
    Cancel { id: Txt },
    /// A workflow that was cancelled or out of attempts goes on.
    Resume { id: Txt },
    /// A workflow was made with the recorded steps of `from` below the number `below`, at most 1,000.
    Fork { id: Txt, from: Txt, below: u32 },
    /// An opening found the workflow pending.
    Recover { id: Txt },
}

/// One entry of a history.
#[derive(Debug, Drop)]
pub struct Entry {
    /// What was done.
    pub act: Act,
    /// The number of entries that its reads saw.
    pub snap: u32,
    /// What a transaction looked at, in the order of the first looks.
    pub reads: Items<Read>,
    /// What it writes.
    pub writes: Writes,
}

/// What the entry writes.
pub fn writes_of(entry: &Entry) -> &Writes
    ensures { result.now ≡ entry.now.writes }
{
    &entry.writes
}
