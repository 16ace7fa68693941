//! One turn of a workflow.

ghost use Rattle.std.specs.Prelude.{◌≡◌, ◌<◌, List, Some, length, IfOk};
ghost use Rattle.std.specs.FinMap.{find};
ghost use Rattle.r3_rows.specs.Keys.{bytes_cmp};
ghost use Rattle.r3_entry.specs.declared.entry.Entry.{Entry as E};
ghost use Rattle.r3_entry.specs.Formed.{IsFormed};
ghost use Rattle.r3_model.specs.Event.{Turn};
ghost use Rattle.r3_model.specs.Functions.{language_of};
ghost use Rattle.r3_model.specs.Machine.{call_with};
ghost use Rattle.r3_model.specs.Turns as machine;
ghost use Rattle.r3_model.specs.Valid.{AreOpen};
ghost use Rattle.r3_plain.specs.Comes.{ComesTo, Happens, IsWithin};
ghost use Rattle.r3_plain.specs.Kept.{Stands};
ghost use Rattle.r3_plain.specs.Words.{state_of};

use crate::given::{Given, Turned, quiet};
use crate::past::Kept;
use crate::reply::Reply;
use crate::snapshots::snapshot_of;
use crate::state::State;
use crate::turned::turned_row;
use crate::txns::text_of;
use fn_tree::checked::Checked;
use r3_past::flow_row;
use r3_rows::FlowRow;
use r3_steps::Steps;
use r3_value::{Memory, Outcome, Txt};
use std::alloc::Global;
use std::marker::Brand;
use std::sync::ledger::{Blank, Ledger};
use sys_flow::Refusal;

// The expression nodes that are evaluated are counted, and the count is let go.
fn counted<L: Ledger>(
    alloc: Global,
    program: &Checked,
    past: &Kept<'_>,
    id: &Txt,
    row: &FlowRow,
    snap: Option<u32>,
    answer: &Option<Outcome>,
    blank: Blank,
) -> Result<Turned, Memory>
    requires name { blank.name ≡ L.name }
    requires parts { blank.parts ≡ L.parts }
    requires some { 0 < blank.parts }
    requires stands { (h : List E) × Stands past.now h }
    requires within { IsWithin past.now.history.now snap }
    ensures { IfOk result (λ t. (h : List E) → Stands past.now h →
        ComesTo t (machine.turned_row (language_of program.now) h id.now snap answer.now (Some row.now))
        (call_with (language_of program.now) h id.now answer.now (machine.calls_row (language_of program.now) h id.now (Some row.now)))) }
{
    let mut steps = Steps::<L>::new(blank);
    turned_row(alloc, program, past, id, row, snap, answer, &mut steps)
}

/// What a turn of a workflow comes to, with the answer of the outside, should it be asked.
pub fn turn_of(
    alloc: Global,
    program: &Checked,
    state: &State,
    id: &str,
    answer: &Option<Outcome>,
) -> Result<Turned, Memory>
    requires formed { IsFormed (state_of state.now).history }
    requires snapshots { AreOpen (language_of program.now) (state_of state.now) }
    ensures { IfOk result (Happens (language_of program.now) (state_of state.now) (Turn id.now) answer.now) }
{
    let past = Kept::of(state.history.as_slice());
    match flow_row(alloc, &past, id)? {
        None => Ok(quiet(Given::Answers(Reply::Refused(Refusal::UnknownId)))),
        Some(row) => {
            let id = text_of(alloc, id)?;
            let snap = snapshot_of(&state.begun, &id);
            let turned = counted::<Brand>(
                alloc,
                program,
                &past,
                &id,
                row,
                snap,
                answer,
                Blank::new(1),
            )?;
            Ok(turned)
        }
    }
}
