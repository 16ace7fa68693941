//! What a workflow's function comes to that was run on its recorded steps.

ghost use Rattle.std.specs.Prelude.{◌≡◌, ◌∷◌, [], List, Some, length, IfOk};
ghost use Rattle.r3_entry.specs.declared.entry.Entry.{Entry as E};
ghost use Rattle.fn_tree.specs.declared.flow.AskKind.{AskKind};
ghost use Rattle.fn_tree.specs.declared.flow.FlowEnd.{FlowEnd};
ghost use Rattle.sys_flow.specs.Awaits as awaits;
ghost use Rattle.sys_flow.specs.Children as children;
ghost use Rattle.r3_model.specs.Functions.{language_of};
ghost use Rattle.r3_model.specs.Language.{Language};
ghost use Rattle.r3_model.specs.Machine.{call_with};
ghost use Rattle.r3_model.specs.Turns as machine;
ghost use Rattle.r3_plain.specs.Comes.{ComesTo, IsAsked, IsWithin};
ghost use Rattle.r3_plain.specs.Kept.{Stands};
ghost use Rattle.r3_plain.specs.Words.{call_of, calls_of, given_of};

use crate::commands::next;
use crate::given::{Given, Turned, quiet};
use crate::past::Kept;
use crate::reply::{Call, Reply};
use crate::txns::txn_turn;
use fn_tree::checked::Checked;
use fn_tree::flow::{AskKind, FlowEnd, Request};
use r3_acts::{finish_entry, outside_entry};
use r3_past::Past;
use r3_rows::{FlowRow, Status};
use r3_steps::Steps;
use r3_turns::{AwaitDraft, await_draft, child_draft, flow_end};
use r3_value::{Memory, Outcome, Txt};
use std::alloc::Global;
use std::sync::ledger::Ledger;

/// A copy of an answer.
pub fn copy_answer(answer: &Option<Outcome>) -> Result<Option<Outcome>, Memory>
    ensures { IfOk result (λ a. a ≡ answer.now) }
{
    match answer {
        None => Ok(None),
        Some(outcome) => Ok(Some(outcome.copy()?)),
    }
}

// The call of an external service.
fn call_of(id: &Txt, request: &Request, answer: &Option<Outcome>) -> Result<Call, Memory>
    ensures { IfOk result (λ c. (language : Language) (h : List E) →
        call_of c ∷ [] ≡ call_with language h id.now answer.now (Some request.now)) }
{
    Ok(Call {
        id: id.copy()?,
        n: request.n,
        name: request.name.copy()?,
        args: request.args.copy()?,
        answer: copy_answer(answer)?,
    })
}

// The answer of a call is recorded. Where there is none, the call has failed.
fn recorded(
    alloc: Global,
    past: &Kept<'_>,
    id: &Txt,
    request: &Request,
    answer: &Option<Outcome>,
) -> Result<Given, Memory>
    requires stands { (h : List E) × Stands past.now h }
    ensures { IfOk result (λ g. (language : Language) (h : List E) → Stands past.now h →
        given_of g ≡ machine.outside_turn language h id.now request.now answer.now) }
{
    match answer {
        None => Ok(Given::Answers(Reply::Again)),
        Some(outcome) => {
            let outcome = outcome.copy()?;
            let entry = outside_entry(alloc, past.count(), id, request, outcome)?;
            Ok(Given::Enters {
                entry,
                reply: Reply::Entry { number: next(past) },
            })
        }
    }
}

// An external service is asked.
fn outside_turn(
    alloc: Global,
    past: &Kept<'_>,
    id: &Txt,
    request: &Request,
    answer: &Option<Outcome>,
) -> Result<Turned, Memory>
    requires stands { (h : List E) × Stands past.now h }
    ensures { IfOk result (λ t. (language : Language) (h : List E) → Stands past.now h →
        ComesTo t (machine.outside_turn language h id.now request.now answer.now) (call_with language h id.now answer.now (Some request.now))) }
{
    let given = recorded(alloc, past, id, request, answer)?;
    let turned = with_call(id, request, answer, given)?;
    Ok(turned)
}

// A child is asked for.
fn child_given(alloc: Global, past: &Kept<'_>, id: &Txt, request: &Request) -> Result<Given, Memory>
    requires stands { (h : List E) × Stands past.now h }
    ensures { IfOk result (λ g. (language : Language) (h : List E) → Stands past.now h →
        given_of g ≡ machine.child_or_id language h id.now request.now (children.child_id id.now request.now.n)) }
{
    let entry = child_draft(alloc, past, id, request)?;
    Ok(Given::Enters {
        entry,
        reply: Reply::Entry { number: next(past) },
    })
}

fn child_turn(alloc: Global, past: &Kept<'_>, id: &Txt, request: &Request) -> Result<Turned, Memory>
    requires stands { (h : List E) × Stands past.now h }
    ensures { IfOk result (λ t. (language : Language) (h : List E) → Stands past.now h →
        ComesTo t (machine.child_or_id language h id.now request.now (children.child_id id.now request.now.n)) []) }
{
    let given = child_given(alloc, past, id, request)?;
    Ok(quiet(given))
}

// Another is awaited.
fn await_given(alloc: Global, past: &Kept<'_>, id: &Txt, request: &Request) -> Result<Given, Memory>
    requires stands { (h : List E) × Stands past.now h }
    ensures { IfOk result (λ g. (language : Language) (h : List E) → Stands past.now h →
        given_of g ≡ machine.await_turn language h id.now request.now (machine.text_of request.now.args)
        (awaits.awaited_of (machine.now language h id.now (machine.text_of request.now.args)))) }
{
    match await_draft(alloc, past, id, request)? {
        AwaitDraft::Waiting { id } => Ok(Given::Answers(Reply::Waiting { id })),
        AwaitDraft::Enters(entry) => Ok(Given::Enters {
            entry,
            reply: Reply::Entry { number: next(past) },
        }),
    }
}

fn await_turn(alloc: Global, past: &Kept<'_>, id: &Txt, request: &Request) -> Result<Turned, Memory>
    requires stands { (h : List E) × Stands past.now h }
    ensures { IfOk result (λ t. (language : Language) (h : List E) → Stands past.now h →
        ComesTo t (machine.await_turn language h id.now request.now (machine.text_of request.now.args)
        (awaits.awaited_of (machine.now language h id.now (machine.text_of request.now.args)))) []) }
{
    let given = await_given(alloc, past, id, request)?;
    Ok(quiet(given))
}

fn let_go(given: Given) {
    let _given = given;
}

fn with_call(
    id: &Txt,
    request: &Request,
    answer: &Option<Outcome>,
    given: Given,
) -> Result<Turned, Memory>
    ensures { IfOk result (λ t. (language : Language) (h : List E) →
        ComesTo t (given_of given) (call_with language h id.now answer.now (Some request.now))) }
{
    match call_of(id, request, answer) {
        Ok(call) => Ok(Turned {
            given,
            call: Some(call),
        }),
        Err(_) => {
            let_go(given);
            Err(Memory)
        }
    }
}

// What it comes to that the function asks so.
fn asked<L: Ledger>(
    alloc: Global,
    program: &Checked,
    past: &Kept<'_>,
    id: &Txt,
    request: &Request,
    snap: Option<u32>,
    answer: &Option<Outcome>,
    steps: &mut Steps<L>,
) -> Result<Turned, Memory>
    requires stands { (h : List E) × Stands past.now h × IsAsked (language_of program.now) h id.now request.now }
    requires within { IsWithin past.now.history.now snap }
    ensures { IfOk result (λ t. (h : List E) → Stands past.now h →
        ComesTo t (machine.asked (language_of program.now) h id.now snap answer.now request.now.kind request.now)
        (call_with (language_of program.now) h id.now answer.now (machine.asks_outside (language_of program.now) h id.now (FlowEnd.Asks request.now)))) }
{
    match request.kind {
        AskKind::Txn => {
            let given = txn_turn(alloc, program, past, id, request, snap, steps)?;
            Ok(quiet(given))
        }
        AskKind::Outside => {
            let turned = outside_turn(alloc, past, id, request, answer)?;
            Ok(turned)
        }
        AskKind::Child => {
            let turned = child_turn(alloc, past, id, request)?;
            Ok(turned)
        }
        AskKind::Await => {
            let turned = await_turn(alloc, past, id, request)?;
            Ok(turned)
        }
    }
}

// The function has ended.
fn finished(
    alloc: Global,
    past: &Kept<'_>,
    id: &Txt,
    row: &FlowRow,
    outcome: Outcome,
) -> Result<Given, Memory>
    requires stands { (h : List E) × Stands past.now h }
    ensures { IfOk result (λ g. (language : Language) (h : List E) → Stands past.now h →
        given_of g ≡ machine.ended language h id.now None None row.now (FlowEnd.Done outcome)) }
{
    let entry = finish_entry(alloc, past.count(), id, row, outcome)?;
    Ok(Given::Enters {
        entry,
        reply: Reply::Entry { number: next(past) },
    })
}

fn finish_turn(
    alloc: Global,
    past: &Kept<'_>,
    id: &Txt,
    row: &FlowRow,
    outcome: Outcome,
) -> Result<Turned, Memory>
    requires stands { (h : List E) × Stands past.now h }
    ensures { IfOk result (λ t. (language : Language) (h : List E) → Stands past.now h →
        ComesTo t (machine.ended language h id.now None None row.now (FlowEnd.Done outcome)) []) }
{
    let given = finished(alloc, past, id, row, outcome)?;
    Ok(quiet(given))
}

// What it comes to that the function came so far.
fn ended<L: Ledger>(
    alloc: Global,
    program: &Checked,
    past: &Kept<'_>,
    id: &Txt,
    row: &FlowRow,
    snap: Option<u32>,
    answer: &Option<Outcome>,
    steps: &mut Steps<L>,
) -> Result<Turned, Memory>
    requires stands { (h : List E) × Stands past.now h }
    requires within { IsWithin past.now.history.now snap }
    ensures { IfOk result (λ t. (h : List E) → Stands past.now h →
        ComesTo t (machine.ended (language_of program.now) h id.now snap answer.now row.now (machine.flow_end (language_of program.now) h id.now row.now))
        (call_with (language_of program.now) h id.now answer.now (machine.asks_outside (language_of program.now) h id.now (machine.flow_end (language_of program.now) h id.now row.now)))) }
{
    match flow_end(alloc, past, program, id, row, steps)? {
        FlowEnd::Unexpected { n, recorded, asked } => {
            Ok(quiet(Given::Answers(Reply::Unexpects { n, recorded, asked })))
        }
        FlowEnd::Done(outcome) => {
            let turned = finish_turn(alloc, past, id, row, outcome)?;
            Ok(turned)
        }
        FlowEnd::Asks(request) => {
            let turned = asked(alloc, program, past, id, &request, snap, answer, steps)?;
            Ok(turned)
        }
    }
}

/// What a turn of a workflow comes to whose row is this.
pub fn turned_row<L: Ledger>(
    alloc: Global,
    program: &Checked,
    past: &Kept<'_>,
    id: &Txt,
    row: &FlowRow,
    snap: Option<u32>,
    answer: &Option<Outcome>,
    steps: &mut Steps<L>,
) -> Result<Turned, Memory>
    requires stands { (h : List E) × Stands past.now h }
    requires within { IsWithin past.now.history.now snap }
    ensures { IfOk result (λ t. (h : List E) → Stands past.now h →
        ComesTo t (machine.turned_row (language_of program.now) h id.now snap answer.now (Some row.now))
        (call_with (language_of program.now) h id.now answer.now (machine.calls_row (language_of program.now) h id.now (Some row.now)))) }
{
    match row.status {
        Status::Pending => {
            let turned = ended(alloc, program, past, id, row, snap, answer, steps)?;
            Ok(turned)
        }
        status => Ok(quiet(Given::Answers(Reply::NotPending(status)))),
    }
}
