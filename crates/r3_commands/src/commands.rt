//! What each command comes to.

ghost use Rattle.std.specs.Prelude.{◌≡◌, List, length, IfOk};
ghost use Rattle.r3_entry.specs.declared.entry.Entry.{Entry};
ghost use Rattle.r3_model.specs.Functions.{language_of};
ghost use Rattle.r3_model.specs.Commands.{commanded};
ghost use Rattle.r3_commands.specs.Drafts.{given_of};

use crate::changes::{cancelled, recovered_again, resumed};
use crate::drafts::Draft;
use crate::enqueues::enqueued;
use crate::forks::forked;
use crate::loads::loaded;
use crate::starts::started;
use fn_tree::checked::Checked;
use r3_past::Past;
use r3_value::Memory;
use std::alloc::Global;
use sys_flow::Command;

/// What the command comes to on the history that `past` stands for, or want of memory.
pub fn draft<P: Past>(
    alloc: Global,
    past: &P,
    program: &Checked,
    command: &Command,
) -> Result<Draft, Memory>
    requires stands { (h : List Entry) × P.stands past.now h }
    ensures { IfOk result (λ d. (h : List Entry) → P.stands past.now h
        → given_of (length h) d ≡ commanded (language_of program.now) h command.now) }
{
    match command {
        Command::Load { table, rows } => loaded(
            alloc,
            past,
            program,
            table.as_str(),
            rows.as_slice(),
        ),
        Command::Start { id, function, args } => {
            started(alloc, past, program, id, function.as_str(), args)
        }
        Command::Enqueue {
            id,
            queue,
            function,
            args,
        } => enqueued(
            alloc,
            past,
            program,
            id,
            queue.as_str(),
            function.as_str(),
            args,
        ),
        Command::Cancel { id } => cancelled(alloc, past, id.as_str()),
        Command::Resume { id } => resumed(alloc, past, id.as_str()),
        Command::Fork { source, step, to } => forked(alloc, past, source.as_str(), *step, to),
        Command::Recover { id } => recovered_again(alloc, past, id.as_str()),
    }
}
