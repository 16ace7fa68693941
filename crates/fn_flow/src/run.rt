//! The run of a workflow.

ghost use Rattle.std.specs.Prelude.{◌≡◌, ℕ, ◌+◌, ◌*◌, ◌≤◌, Some, IfOk, OnOk, slice_get};
ghost use Rattle.fn_meaning.specs.Nodes.{in_program};
ghost use Rattle.fn_tree.specs.Expression.{bound, calls_of};
ghost use Rattle.fn_tree.specs.Flow.{flow_meaning, flow_begun, answered};
ghost use Rattle.fn_tree.specs.Statement.{body_of};
ghost use Rattle.fn_walk.specs.Runs.{place_at};
ghost use Rattle.fn_flow.specs.Listed.{end_of, on_list, stopped_at};
ghost use Rattle.fn_flow.specs.Runs.{Runs, RunsOrStuck, counted};

use crate::asks::Listed;
use crate::find::flow;
use fn_eval::bind;
use fn_meaning::laws::{body_ends_within_units, later_count_is_raised, sound_is_never_stuck};
use fn_tree::checked::Checked;
use fn_tree::flow::{Answer, FlowEnd, Request};
use fn_tree::program::Item;
use fn_tree::stmt::Stmt;
use fn_walk::{Break, Place, walk, word};
use r3_steps::Steps;
use r3_value::{Memory, Outcome, Txt, Val};
use std::alloc::Global;
use std::sync::ledger::Ledger;

/// A body begins with this many units.
const UNITS: u32 = 100_000;

// A copy of each value.
fn copies(alloc: Global, vs: &[Val]) -> Result<Vec<Val>, Memory>
    ensures { IfOk result (λ copies. copies.items ≡ vs.now) }
{
    let mut copies = Vec::with_capacity(alloc, vs.len())?;
    for v in vs {
        copies.push(v.copy()?)?;
    }
    Ok(copies)
}

fn failed(alloc: Global, text: &str) -> Result<FlowEnd, Memory>
    ensures { IfOk result (λ e. e ≡ FlowEnd.Done (Outcome.Failure text.now)) }
{
    Ok(FlowEnd::Done(Outcome::Failure(word(alloc, text)?)))
}

// The run stops at an ask: the answer of its number is another's, or isn't recorded.
fn stopped(answers: &[Answer], n: u32, request: Request) -> Result<FlowEnd, Memory>
    ensures { IfOk result (λ e. (cost : ℕ) → stopped_at answers.now (slice_get answers.now n) request cost ≡ Some (record { run = e; cost = cost })) }
{
    match answers.get(n as usize) {
        None => Ok(FlowEnd::Asks(request)),
        Some(answer) => {
            let recorded = answer.name.copy()?;
            Ok(FlowEnd::Unexpected {
                n: request.n,
                recorded,
                asked: request.name,
            })
        }
    }
}

// The end of a body on its arguments, or None where it is stuck.
fn run_body<L: Ledger>(
    alloc: Global,
    items: &[Item],
    params: &[Txt],
    body: &[Stmt],
    args: Vec<Val>,
    answers: &[Answer],
    steps: &mut Steps<L>,
) -> Result<Option<FlowEnd>, Memory>
    ensures { IfOk result (λ e. end_of answers.now (body_of (on_list answers.now items.now) (calls_of items.now) body.now (place_at (bound params.now args.items) 0 100000 steps.old)) ≡ counted e steps.new) }
{
    let on = Listed { items, answers };
    let env = bind(alloc, params, args)?;
    let mut place = Place {
        names: env.names,
        state: 0u32,
        units: UNITS,
    };
    match walk(alloc, &on, items, body, &mut place, steps) {
        Ok(()) => Ok(Some(FlowEnd::Done(Outcome::Value(Val::Null)))),
        Err(Break::Returned(v)) => Ok(Some(FlowEnd::Done(Outcome::Value(v)))),
        Err(Break::Failed(word)) => Ok(Some(FlowEnd::Done(Outcome::Failure(word)))),
        Err(Break::Asks(request)) => Ok(Some(stopped(answers, place.state, request)?)),
        Err(Break::Memory) => Err(Memory),
        Err(Break::Stuck) => Ok(None),
    }
}

// The same, by the meaning.
fn run_known<L: Ledger>(
    alloc: Global,
    items: &[Item],
    params: &[Txt],
    body: &[Stmt],
    args: &[Val],
    answers: &[Answer],
    steps: &mut Steps<L>,
) -> Result<Option<FlowEnd>, Memory>
    ensures { IfOk result (λ e. RunsOrStuck (answered (flow_begun items.now params.now body.now args.now) answers.now) e steps.old steps.new) }
{
    later_count_is_raised();
    let copied = copies(alloc, args)?;
    let end = run_body(alloc, items, params, body, copied, answers, steps)?;
    Ok(end)
}

/// The end of any function's run, or None where it is stuck.
#[tactic(auto, using(crate::proofs::CountLemmas::ran_nothing))]
pub fn run_any<L: Ledger>(
    alloc: Global,
    items: &[Item],
    name: &str,
    args: &Val,
    answers: &[Answer],
    steps: &mut Steps<L>,
) -> Result<Option<FlowEnd>, Memory>
    ensures { IfOk result (λ e. RunsOrStuck (flow_meaning items.now name.now args.now answers.now) e steps.old steps.new) }
{
    match flow(items, name) {
        None => Ok(Some(failed(alloc, "unknown_function")?)),
        Some((params, body)) => match args {
            Val::List(vs) => {
                if params.len() == vs.items().len() {
                    run_known(alloc, items, params, body, vs.items(), answers, steps)
                } else {
                    Ok(Some(failed(alloc, "arity")?))
                }
            }
            _ => Ok(Some(failed(alloc, "arity")?)),
        },
    }
}

/// The run of a workflow on a list of answers. Each expression node that is evaluated takes one step.
///
/// The body is done, asks for more than the list has, or asks for another name; answers that are left
/// over are ignored. A name that is no workflow's fails with `unknown_function`, and arguments that
/// aren't a list of its length with `arity`.
#[tactic(auto, using(crate::proofs::CountLemmas::never, crate::proofs::CountLemmas::within))]
pub fn run_flow<L: Ledger>(
    alloc: Global,
    program: &Checked,
    name: &str,
    args: &Val,
    answers: &[Answer],
    steps: &mut Steps<L>,
) -> Result<FlowEnd, Memory>
    ensures meaning { IfOk result (λ e. Runs (flow_meaning program.now name.now args.now answers.now) e steps.old steps.new) }
    ensures bound { OnOk result (steps.new ≤ steps.old + in_program program.now * 100001) }
{
    sound_is_never_stuck();
    body_ends_within_units();
    let items = program.program().items.as_slice();
    match run_any(alloc, items, name, args, answers, steps)? {
        Some(end) => Ok(end),
        None => unreachable!(),
    }
}
