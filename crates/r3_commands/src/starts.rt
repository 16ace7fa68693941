//! A workflow that is to start.

ghost use Rattle.std.specs.Prelude.{◌≡◌, ◌≤◌, ◌+◌, List, length, IfOk};
ghost use Rattle.r3_entry.specs.declared.entry.Entry.{Entry};
ghost use Rattle.sys_flow.specs.Repeats as repeats;
ghost use Rattle.r3_model.specs.Acts as acts;
ghost use Rattle.r3_model.specs.Event.{EntryOf};
ghost use Rattle.r3_model.specs.Functions.{language_of};
ghost use Rattle.r3_model.specs.Given.{Enters, once};
ghost use Rattle.r3_model.specs.Rows.{flow_at};
ghost use Rattle.r3_model.specs.Commands.{started, id_or_made};
ghost use Rattle.r3_commands.specs.Drafts.{given_of};

use crate::calls::call_refusal;
use crate::counts::count_of;
use crate::drafts::Draft;
use crate::texts::{copy_of, new_id};
use fn_tree::checked::Checked;
use r3_acts::start_entry;
use r3_past::{Past, flow_row};
use r3_value::{Memory, Txt, Val};
use std::alloc::Global;
use sys_flow::{Refusal, Repeat, Text, repeat_of};

fn first_start(
    alloc: Global,
    count: u32,
    id: Txt,
    function: &str,
    args: &Val,
) -> Result<Draft, Memory>
    requires count { count ≤ 1000000 }
    requires short { length function.now ≤ 64 }
    ensures { IfOk result (λ d. (h : List Entry) → length h ≡ count
        → given_of (length h) d ≡ Enters (acts.start_entry h id function.now args.now) (EntryOf (length h + 1) id)) }
{
    let function = copy_of(alloc, function)?;
    let entry = start_entry(alloc, count, &id, &function, args)?;
    Ok(Draft::Enters {
        entry,
        id: Some(id),
    })
}

// An ID that was used before comes to the answer of then.
fn start_once<P: Past>(
    alloc: Global,
    past: &P,
    id: Txt,
    function: &str,
    args: &Val,
) -> Result<Draft, Memory>
    requires stands { (h : List Entry) × P.stands past.now h }
    requires short { length function.now ≤ 64 }
    ensures { IfOk result (λ d. (h : List Entry) → P.stands past.now h → given_of (length h) d
        ≡ once (repeats.repeat_of (flow_at h (length h) id) function.now) id
        (Enters (acts.start_entry h id function.now args.now) (EntryOf (length h + 1) id))) }
{
    match repeat_of(flow_row(alloc, past, id.as_str())?, function) {
        Repeat::Fresh => first_start(alloc, count_of(past), id, function, args),
        Repeat::Known { started } => Ok(Draft::Known {
            number: started,
            id,
        }),
        Repeat::Conflict => Ok(Draft::Refused(Refusal::Conflict)),
    }
}

/// A workflow is to start.
pub fn started<P: Past>(
    alloc: Global,
    past: &P,
    program: &Checked,
    id: &Option<Text>,
    function: &str,
    args: &Val,
) -> Result<Draft, Memory>
    requires stands { (h : List Entry) × P.stands past.now h }
    ensures { IfOk result (λ d. (h : List Entry) → P.stands past.now h → given_of (length h) d
        ≡ started (language_of program.now) h (id_or_made h id.now) function.now args.now) }
{
    match new_id(alloc, count_of(past), id)? {
        None => Ok(Draft::Refused(Refusal::Id)),
        Some(id) => match call_refusal(program, function, args) {
            Some(refusal) => Ok(Draft::Refused(refusal)),
            None => start_once(alloc, past, id, function, args),
        },
    }
}
