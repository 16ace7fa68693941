//! A fork.

ghost use Rattle.std.specs.Prelude.{◌≡◌, ◌≤◌, ◌+◌, List, length, Some, None, IfOk};
ghost use Rattle.r3_entry.specs.declared.entry.Entry.{Entry};
ghost use Rattle.sys_flow.specs.Repeats as repeats;
ghost use Rattle.r3_model.specs.Acts as acts;
ghost use Rattle.r3_model.specs.Event.{EntryOf};
ghost use Rattle.r3_model.specs.Language.{Language};
ghost use Rattle.r3_model.specs.Given.{Enters, once};
ghost use Rattle.r3_model.specs.Rows.{flow_at};
ghost use Rattle.r3_model.specs.Commands.{forked, id_or_made};
ghost use Rattle.r3_commands.specs.Drafts.{given_of};

use crate::counts::count_of;
use crate::drafts::Draft;
use crate::texts::{copy_of, new_id};
use r3_acts::fork_entry;
use r3_past::{Past, flow_row, recorded_below, recorded_count};
use r3_rows::FlowRow;
use r3_value::{Memory, Txt};
use std::alloc::Global;
use sys_flow::{Refusal, Repeat, Text, repeat_of};

fn first_fork<P: Past>(
    alloc: Global,
    past: &P,
    id: Txt,
    source: &Txt,
    row: &FlowRow,
    below: u32,
) -> Result<Draft, Memory>
    requires stands { (h : List Entry) × P.stands past.now h }
    requires few { below ≤ 1000 }
    ensures { IfOk result (λ d. (h : List Entry) → P.stands past.now h → given_of (length h) d
        ≡ Enters (acts.fork_entry h id source.now row.now below) (EntryOf (length h + 1) id)) }
{
    let steps = recorded_below(alloc, past, source, below)?;
    let entry = fork_entry(alloc, count_of(past), &id, source, row, steps, below)?;
    Ok(Draft::Enters {
        entry,
        id: Some(id),
    })
}

// An ID that was used before comes to the answer of then.
fn fork_once<P: Past>(
    alloc: Global,
    past: &P,
    id: Txt,
    source: &Txt,
    row: &FlowRow,
    below: u32,
) -> Result<Draft, Memory>
    requires stands { (h : List Entry) × P.stands past.now h }
    requires few { below ≤ 1000 }
    ensures { IfOk result (λ d. (h : List Entry) → P.stands past.now h → given_of (length h) d
        ≡ once (repeats.repeat_of (flow_at h (length h) id) row.now.function) id
        (Enters (acts.fork_entry h id source.now row.now below) (EntryOf (length h + 1) id))) }
{
    match repeat_of(flow_row(alloc, past, id.as_str())?, row.function.as_str()) {
        Repeat::Fresh => first_fork(alloc, past, id, source, row, below),
        Repeat::Known { started } => Ok(Draft::Known {
            number: started,
            id,
        }),
        Repeat::Conflict => Ok(Draft::Refused(Refusal::Conflict)),
    }
}

// The source is there.
fn fork_of<P: Past>(
    alloc: Global,
    past: &P,
    source: &Txt,
    row: &FlowRow,
    below: u32,
    to: &Option<Text>,
) -> Result<Draft, Memory>
    requires stands { (h : List Entry) × P.stands past.now h }
    ensures { IfOk result (λ d. (L : Language) (h : List Entry) → P.stands past.now h → given_of (length h) d
        ≡ forked L h (id_or_made h to.now) source.now below (Some row.now)) }
{
    match new_id(alloc, count_of(past), to)? {
        None => Ok(Draft::Refused(Refusal::Id)),
        Some(id) => {
            if recorded_count(past, source)? < below {
                return Ok(Draft::Refused(Refusal::Step));
            }
            fork_once(alloc, past, id, source, row, below)
        }
    }
}

/// A workflow is to start with the first steps of another.
pub fn forked<P: Past>(
    alloc: Global,
    past: &P,
    source: &str,
    below: u32,
    to: &Option<Text>,
) -> Result<Draft, Memory>
    requires stands { (h : List Entry) × P.stands past.now h }
    ensures { IfOk result (λ d. (L : Language) (h : List Entry) → P.stands past.now h → given_of (length h) d
        ≡ forked L h (id_or_made h to.now) source.now below (flow_at h (length h) source.now)) }
{
    match flow_row(alloc, past, source)? {
        None => Ok(Draft::Refused(Refusal::UnknownId)),
        Some(row) => {
            let source = copy_of(alloc, source)?;
            fork_of(alloc, past, &source, row, below, to)
        }
    }
}
