//! A workflow that is to wait in a queue.

ghost use Rattle.std.specs.Prelude.{◌≡◌, ◌≤◌, ◌+◌, List, length, IfOk};
ghost use Rattle.r3_entry.specs.declared.entry.Entry.{Entry};
ghost use Rattle.sys_flow.specs.Repeats as repeats;
ghost use Rattle.r3_model.specs.Acts as acts;
ghost use Rattle.r3_model.specs.Event.{EntryOf};
ghost use Rattle.r3_model.specs.Functions.{language_of};
ghost use Rattle.r3_model.specs.Given.{Enters, once, unless};
ghost use Rattle.r3_model.specs.Rows.{flow_at};
ghost use Rattle.r3_model.specs.Commands.{enqueued, id_or_made};
ghost use Rattle.r3_commands.specs.Drafts.{given_of, queued_tests};

use crate::calls::call_refusal;
use crate::counts::count_of;
use crate::declared::has_queue;
use crate::drafts::Draft;
use crate::texts::{copy_of, new_id};
use fn_tree::checked::Checked;
use r3_acts::enqueue_entry;
use r3_past::{Past, flow_row};
use r3_value::{Memory, Txt, Val};
use std::alloc::Global;
use sys_flow::{Refusal, Repeat, Text, repeat_of};

fn first_enqueue(
    alloc: Global,
    count: u32,
    id: Txt,
    queue: &str,
    function: &str,
    args: &Val,
) -> Result<Draft, Memory>
    requires count { count ≤ 1000000 }
    requires queue { length queue.now ≤ 64 }
    requires function { length function.now ≤ 64 }
    ensures { IfOk result (λ d. (h : List Entry) → length h ≡ count → given_of (length h) d
        ≡ Enters (acts.enqueue_entry h id queue.now function.now args.now) (EntryOf (length h + 1) id)) }
{
    let queue = copy_of(alloc, queue)?;
    let function = copy_of(alloc, function)?;
    let entry = enqueue_entry(alloc, count, &id, &queue, &function, args)?;
    Ok(Draft::Enters {
        entry,
        id: Some(id),
    })
}

// An ID that was used before comes to the answer of then.
fn enqueue_once<P: Past>(
    alloc: Global,
    past: &P,
    id: Txt,
    queue: &str,
    function: &str,
    args: &Val,
) -> Result<Draft, Memory>
    requires stands { (h : List Entry) × P.stands past.now h }
    requires queue { length queue.now ≤ 64 }
    requires function { length function.now ≤ 64 }
    ensures { IfOk result (λ d. (h : List Entry) → P.stands past.now h → given_of (length h) d
        ≡ once (repeats.repeat_of (flow_at h (length h) id) function.now) id
        (Enters (acts.enqueue_entry h id queue.now function.now args.now) (EntryOf (length h + 1) id))) }
{
    match repeat_of(flow_row(alloc, past, id.as_str())?, function) {
        Repeat::Fresh => first_enqueue(alloc, count_of(past), id, queue, function, args),
        Repeat::Known { started } => Ok(Draft::Known {
            number: started,
            id,
        }),
        Repeat::Conflict => Ok(Draft::Refused(Refusal::Conflict)),
    }
}

// The ID has 1 to 200 bytes.
fn enqueue_called<P: Past>(
    alloc: Global,
    past: &P,
    program: &Checked,
    id: Txt,
    queue: &str,
    function: &str,
    args: &Val,
) -> Result<Draft, Memory>
    requires stands { (h : List Entry) × P.stands past.now h }
    ensures { IfOk result (λ d. (h : List Entry) → P.stands past.now h → given_of (length h) d
        ≡ unless (queued_tests (language_of program.now) h queue.now function.now args.now)
        (once (repeats.repeat_of (flow_at h (length h) id) function.now) id
        (Enters (acts.enqueue_entry h id queue.now function.now args.now) (EntryOf (length h + 1) id)))) }
{
    if !has_queue(program, queue) {
        return Ok(Draft::Refused(Refusal::UnknownQueue));
    }
    match call_refusal(program, function, args) {
        Some(refusal) => Ok(Draft::Refused(refusal)),
        None => enqueue_once(alloc, past, id, queue, function, args),
    }
}

/// A workflow is to wait in a queue.
pub fn enqueued<P: Past>(
    alloc: Global,
    past: &P,
    program: &Checked,
    id: &Option<Text>,
    queue: &str,
    function: &str,
    args: &Val,
) -> Result<Draft, Memory>
    requires stands { (h : List Entry) × P.stands past.now h }
    ensures { IfOk result (λ d. (h : List Entry) → P.stands past.now h → given_of (length h) d
        ≡ enqueued (language_of program.now) h (id_or_made h id.now) queue.now function.now args.now) }
{
    match new_id(alloc, count_of(past), id)? {
        None => Ok(Draft::Refused(Refusal::Id)),
        Some(id) => enqueue_called(alloc, past, program, id, queue, function, args),
    }
}
