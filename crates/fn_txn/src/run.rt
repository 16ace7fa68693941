//! The run of a transaction.

ghost use Rattle.std.specs.Prelude.{◌≡◌, ◌+◌, ◌*◌, ◌≤◌, [], List, length, Some, IfOk, IsSome, MatchOption, OnOk};
ghost use Rattle.fn_meaning.specs.Nodes.{in_program};
ghost use Rattle.fn_tree.specs.Evaluation.{Calls};
ghost use Rattle.fn_tree.specs.Expression.{bound, calls_of};
ghost use Rattle.fn_tree.specs.Values.{items_of};
ghost use Rattle.fn_tree.specs.Writes.{Versions};
ghost use Rattle.r3_value.specs.declared.value.Val.{Val as V};
ghost use Rattle.fn_tree.specs.Transaction.{on_versions, run_among, txn_end, txn_meaning, txn_run};
ghost use Rattle.fn_tree.specs.Statement.{body_of};
ghost use Rattle.fn_tree.specs.Soundness.{called};
ghost use Rattle.fn_walk.specs.Runs.{place_at};
ghost use Rattle.fn_txn.specs.Runs.{Runs, RunsOrStuck, arguments_of, counted};

use crate::journal::Journal;
use crate::on_view::OnView;
use crate::view::View;
use fn_eval::bind;
use fn_meaning::laws::{body_ends_within_units, later_count_is_raised, sound_is_never_stuck};
use fn_tree::checked::Checked;
use fn_tree::flow::AskKind;
use fn_tree::look::TxnRun;
use fn_tree::program::Item;
use fn_tree::stmt::Stmt;
use fn_walk::{Break, Place, walk};
use r3_steps::Steps;
use r3_value::{Memory, Outcome, Txt, Val};
use sqlite_items::Items;
use std::alloc::Global;
use std::sync::ledger::Ledger;

/// A body begins with this many units.
const UNITS: u32 = 100_000;

// A copy of each value.
fn copies(alloc: Global, vs: &[Val]) -> Result<Vec<Val>, Memory>
    ensures { IfOk result (λ copies. copies.items ≡ vs.now) }
{
    let mut copies = Vec::with_capacity(alloc, vs.len())?;
    for v in vs {
        copies.push(v.copy()?)?;
    }
    Ok(copies)
}

// A body that ended without a failure.
fn ended(alloc: Global, v: Val, journal: Journal) -> Result<TxnRun, Memory>
    ensures { IfOk result (λ r. r ≡ record { outcome = Outcome.Value v; reads = journal.looks; writes = journal.writes }) }
{
    let (reads, writes) = journal.into_parts(alloc)?;
    Ok(TxnRun {
        outcome: Outcome::Value(v),
        reads,
        writes,
    })
}

// A body that failed: its writes are dropped, and its looks stay.
fn failed(alloc: Global, word: Txt, journal: Journal) -> TxnRun
    ensures { result ≡ record { outcome = Outcome.Failure word; reads = journal.looks; writes = [] } }
{
    TxnRun {
        outcome: Outcome::Failure(word),
        reads: journal.into_looks(),
        writes: Items::new(alloc),
    }
}

// The run of a body on its arguments, or None where it is stuck.
fn run_body<M: View, L: Ledger>(
    alloc: Global,
    items: &[Item],
    params: &[Txt],
    body: &[Stmt],
    args: Vec<Val>,
    view: &M,
    steps: &mut Steps<L>,
) -> Result<Option<TxnRun>, Memory>
    ensures { IfOk result (λ r. txn_end (body_of (on_versions (M.versions view.now)) (calls_of items.now) body.now (place_at (bound params.now args.items) (record { looks = []; writes = [] }) 100000 steps.old)) ≡ counted r steps.new) }
{
    let on = OnView { view };
    let env = bind(alloc, params, args)?;
    let mut place = Place {
        names: env.names,
        state: Journal::new(alloc),
        units: UNITS,
    };
    match walk(alloc, &on, items, body, &mut place, steps) {
        Ok(()) => Ok(Some(ended(alloc, Val::Null, place.state)?)),
        Err(Break::Returned(v)) => Ok(Some(ended(alloc, v, place.state)?)),
        Err(Break::Failed(word)) => Ok(Some(failed(alloc, word, place.state))),
        Err(Break::Asks(_)) => Ok(None),
        Err(Break::Memory) => Err(Memory),
        Err(Break::Stuck) => Ok(None),
    }
}

// The same, by the meaning.
fn run_known<M: View, L: Ledger>(
    alloc: Global,
    items: &[Item],
    params: &[Txt],
    body: &[Stmt],
    args: &[Val],
    view: &M,
    steps: &mut Steps<L>,
) -> Result<Option<TxnRun>, Memory>
    ensures { IfOk result (λ r. RunsOrStuck (txn_run (M.versions view.now) (calls_of items.now) params.now body.now args.now) r steps.old steps.new) }
{
    later_count_is_raised();
    let copied = copies(alloc, args)?;
    let end = run_body(alloc, items, params, body, copied, view, steps)?;
    Ok(end)
}

// The parameters and the body of the transaction of a name with so many parameters.
fn transaction<'a>(items: &'a [Item], name: &str, count: usize) -> Option<(&'a [Txt], &'a [Stmt])>
    ensures { (base : Versions) (calls : Calls) (args : List V) → length args ≡ count → MatchOption result (run_among base calls items.now name.now args ≡ None) (λ r. run_among base calls items.now name.now args ≡ txn_run base calls r.0.now r.1.now args) }
{
    for item in items {
        if let Item::Txn {
            serial: _,
            name: x,
            params,
            body,
        } = item
        {
            if x.as_str() == name && params.len() == count {
                return Some((params.as_slice(), body.as_slice()));
            }
        }
    }
    None
}

/// The run of a transaction of any items, or None where it is stuck or none is called so.
pub fn run_any<M: View, L: Ledger>(
    alloc: Global,
    items: &[Item],
    name: &str,
    args: &[Val],
    view: &M,
    steps: &mut Steps<L>,
) -> Result<Option<TxnRun>, Memory>
    ensures { IfOk result (λ r. RunsOrStuck (txn_meaning items.now (M.versions view.now) name.now args.now) r steps.old steps.new) }
{
    match transaction(items, name, args.len()) {
        None => Ok(None),
        Some((params, body)) => run_known(alloc, items, params, body, args, view, steps),
    }
}

/// The run of a transaction on a map. Each expression node that is evaluated takes one step.
///
/// The program has a transaction of the name, and the arguments are a list of as many as it has
/// parameters. A body that fails has no writes, and its looks stay.
#[tactic(auto, using(crate::proofs::CountLemmas::never, crate::proofs::CountLemmas::within))]
pub fn run_txn<M: View, L: Ledger>(
    alloc: Global,
    program: &Checked,
    name: &str,
    args: &Val,
    view: &M,
    steps: &mut Steps<L>,
) -> Result<TxnRun, Memory>
    requires list { IsSome (items_of args.now) }
    requires called { called program.now name.now (length (arguments_of (items_of args.now))) ≡ Some AskKind.Txn }
    ensures meaning { IfOk result (λ r. Runs (txn_meaning program.now (M.versions view.now) name.now (arguments_of (items_of args.now))) r steps.old steps.new) }
    ensures bound { OnOk result (steps.new ≤ steps.old + in_program program.now * 100001) }
{
    sound_is_never_stuck();
    body_ends_within_units();
    let items = program.program().items.as_slice();
    match args {
        Val::List(vs) => match run_any(alloc, items, name, vs.items(), view, steps)? {
            Some(run) => Ok(run),
            None => unreachable!(),
        },
        _ => unreachable!(),
    }
}
