//! The texts of replies.

ghost use Rattle.std.specs.Prelude.{◌≡◌, IfOk};
ghost use Rattle.r3_model.specs.Replies as model;
ghost use Rattle.r3_exec.specs.Ends.{command_reply, dequeue_reply, made_reply, turn_reply};
ghost use Rattle.r3_recover.specs.Ends.{drain_reply};

use r3_exec::{CommandEnd, DequeueEnd, TurnEnd};
use r3_recover::DrainEnd;
use r3_reply::{Reply, reply_text};
use r3_value::{Memory, Txt};
use std::alloc::Global;

// Of a command whose entry stands.
fn made_text(alloc: Global, number: u32, id: &Option<Txt>) -> Result<Vec<u8>, Memory>
    ensures { IfOk result (λ text. text.items ≡ model.reply_text (made_reply number id.now)) }
{
    match id {
        Some(id) => reply_text(
            alloc,
            &Reply::EntryOf {
                number,
                id: id.as_str(),
            },
        ),
        None => reply_text(alloc, &Reply::Entry { number }),
    }
}

/// Of a command.
pub fn command_text(alloc: Global, end: &CommandEnd) -> Result<Vec<u8>, Memory>
    ensures { IfOk result (λ text. text.items ≡ model.reply_text (command_reply end.now)) }
{
    match end {
        CommandEnd::Made { number, id } => made_text(alloc, *number, id),
        CommandEnd::Refused(refusal) => reply_text(alloc, &Reply::Refused { refusal: *refusal }),
        CommandEnd::Full { limit } => reply_text(alloc, &Reply::Full { limit: *limit }),
    }
}

/// Of a turn.
pub fn turn_text(alloc: Global, end: &TurnEnd) -> Result<Vec<u8>, Memory>
    ensures { IfOk result (λ text. text.items ≡ model.reply_text (turn_reply end.now)) }
{
    match end {
        TurnEnd::None { status } => reply_text(alloc, &Reply::NotPending { status: *status }),
        TurnEnd::Began { snap } => reply_text(alloc, &Reply::Began { snap: *snap }),
        TurnEnd::Entry { number } => reply_text(alloc, &Reply::Entry { number: *number }),
        TurnEnd::Conflict { entry } => reply_text(alloc, &Reply::Conflict { entry: *entry }),
        TurnEnd::Waiting { id } => reply_text(alloc, &Reply::Waiting { id: id.as_str() }),
        TurnEnd::Again => reply_text(alloc, &Reply::Again),
        TurnEnd::Unexpected { n, recorded, asked } => reply_text(
            alloc,
            &Reply::Unexpected {
                n: *n,
                recorded: recorded.as_str(),
                asked: asked.as_str(),
            },
        ),
        TurnEnd::Full { limit } => reply_text(alloc, &Reply::Full { limit: *limit }),
    }
}

/// Of a dequeue.
pub fn dequeue_text(alloc: Global, end: &DequeueEnd) -> Result<Vec<u8>, Memory>
    ensures { IfOk result (λ text. text.items ≡ model.reply_text (dequeue_reply end.now)) }
{
    match end {
        DequeueEnd::Started { id, number } => reply_text(
            alloc,
            &Reply::EntryOf {
                number: *number,
                id: id.as_str(),
            },
        ),
        DequeueEnd::Empty => reply_text(alloc, &Reply::Empty),
        DequeueEnd::Limit { running } => reply_text(alloc, &Reply::Limit { running: *running }),
        DequeueEnd::Full { limit } => reply_text(alloc, &Reply::Full { limit: *limit }),
    }
}

/// Of a drain.
pub fn drain_text(alloc: Global, end: DrainEnd) -> Result<Vec<u8>, Memory>
    ensures { IfOk result (λ text. text.items ≡ model.reply_text (drain_reply end)) }
{
    match end {
        DrainEnd::Idle { turns } => reply_text(alloc, &Reply::Idle { turns }),
        DrainEnd::Spent { turns } => reply_text(alloc, &Reply::Spent { turns }),
    }
}
