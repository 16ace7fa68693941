//! What a command comes to.

ghost use Rattle.std.specs.Prelude.{◌≡◌, ◌+◌, List, length, IfOk};
ghost use Rattle.r3_entry.specs.declared.entry.Entry.{Entry};
ghost use Rattle.r3_commands.specs.Drafts as drafts;
ghost use Rattle.r3_model.specs.Commands as machine;
ghost use Rattle.r3_model.specs.Functions.{language_of};
ghost use Rattle.r3_plain.specs.Kept.{Stands};
ghost use Rattle.r3_plain.specs.Words.{given_of, reply_of};

use crate::given::Given;
use crate::past::Kept;
use crate::reply::Reply;
use fn_tree::checked::Checked;
use r3_commands::{Draft, draft};
use r3_past::Past;
use r3_value::{Memory, Txt};
use std::alloc::Global;
use sys_flow::Command;

// The reply to the entry of this number, with the workflow that it started.
fn reply_to(number: u32, id: Option<Txt>) -> Reply
    ensures { reply_of result ≡ drafts.reply_of number id }
{
    match id {
        None => Reply::Entry { number },
        Some(id) => Reply::EntryOf { number, id },
    }
}

// The number of the next entry.
pub fn next(past: &Kept<'_>) -> u32
    requires stands { (h : List Entry) × Stands past.now h }
    ensures { (h : List Entry) → Stands past.now h → result ≡ length h + 1 }
{
    past.is_past();
    past.count() + 1
}

/// What a command comes to.
pub fn commanded(
    alloc: Global,
    program: &Checked,
    past: &Kept<'_>,
    command: &Command,
) -> Result<Given, Memory>
    requires stands { (h : List Entry) × Stands past.now h }
    ensures { IfOk result (λ g. (h : List Entry) → Stands past.now h → given_of g ≡ machine.commanded (language_of program.now) h command.now) }
{
    match draft(alloc, past, program, command)? {
        Draft::Enters { entry, id } => Ok(Given::Enters {
            entry,
            reply: reply_to(next(past), id),
        }),
        Draft::Known { number, id } => Ok(Given::Answers(Reply::EntryOf { number, id })),
        Draft::Refused(refusal) => Ok(Given::Answers(Reply::Refused(refusal))),
    }
}
