//! The run of a workflow on its recorded steps, and the run of a transaction on its snapshot.

ghost use Rattle.std.specs.Prelude.{◌≡◌, ◌+◌, ◌*◌, ◌≤◌, ℕ, List, length, map, IfOk, OnOk, IsTrue};
ghost use Rattle.std.specs.FinMap.Entries.{is_sorted};
ghost use Rattle.r3_value.specs.declared.value.Val.{Val};
ghost use Rattle.r3_rows.specs.Keys.{key_cmp};
ghost use Rattle.r3_entry.specs.declared.entry.Entry.{Entry};
ghost use Rattle.fn_tree.specs.Flow.{flow_meaning};
ghost use Rattle.fn_tree.specs.Transaction.{txn_meaning};
ghost use Rattle.fn_tree.specs.Values.{items_of};
ghost use Rattle.fn_tree.specs.declared.flow.Answer.{Answer};
ghost use Rattle.fn_tree.specs.declared.flow.AskKind.{AskKind};
ghost use Rattle.fn_meaning.specs.Nodes.{in_program};
ghost use Rattle.fn_flow.specs.Runs as flows;
ghost use Rattle.fn_txn.specs.Runs as txns;
ghost use Rattle.r3_model.specs.Acts.{put_write};
ghost use Rattle.r3_model.specs.Functions.{language_of};
ghost use Rattle.r3_model.specs.Rows.{answer_of, steps_at, view_at};
ghost use Rattle.r3_model.specs.Turns as turn;

use crate::laws::asks_what_is_there;
use fn_flow::run_flow;
use fn_tree::checked::Checked;
use fn_tree::flow::{FlowEnd, Request};
use fn_tree::look::TxnRun;
use fn_txn::run_txn;
use r3_laws::programs_are_lawful;
use r3_past::{AsOf, Past, answers, view_is};
use r3_rows::FlowRow;
use r3_steps::Steps;
use r3_value::{Memory, Txt};
use std::alloc::Global;
use std::sync::ledger::Ledger;

/// How far a workflow's function comes on its recorded steps. Each expression node that is evaluated
/// takes one step.
pub fn flow_end<P: Past, L: Ledger>(
    alloc: Global,
    past: &P,
    program: &Checked,
    id: &Txt,
    row: &FlowRow,
    steps: &mut Steps<L>,
) -> Result<FlowEnd, Memory>
    requires stands { (h : List Entry) × P.stands past.now h }
    ensures end { IfOk result (λ end. (h : List Entry) → P.stands past.now h →
        end ≡ turn.flow_end (language_of program.now) h id.now row.now) }
    ensures cost { IfOk result (λ end. (h : List Entry) → P.stands past.now h →
        flows.Runs (flow_meaning program.now row.now.function row.now.args (map answer_of (steps_at h (length h) id.now)))
        end steps.old steps.new) }
    ensures bound { OnOk result (steps.new ≤ steps.old + in_program program.now * 100001) }
{
    let told = answers(alloc, past, id)?;
    let function = row.function.as_str();
    let end = run_flow(alloc, program, function, &row.args, told.as_slice(), steps)?;
    Ok(end)
}

/// What the body of a transaction gives on its snapshot, for a workflow whose run asked for it. Each
/// expression node that is evaluated takes one step.
pub fn txn_run<P: Past, L: Ledger>(
    alloc: Global,
    past: &P,
    program: &Checked,
    request: &Request,
    snap: u32,
    steps: &mut Steps<L>,
) -> Result<TxnRun, Memory>
    requires stands { (h : List Entry) × P.stands past.now h }
    requires reads { P.reads past.now snap }
    requires asked { (f : List ℕ) × (args : Val) × (answers : List Answer) ×
        ((language_of program.now).flow f args answers ≡ FlowEnd.Asks request.now) }
    requires kind { request.now.kind ≡ AskKind.Txn }
    ensures run { IfOk result (λ run. (h : List Entry) (id : List ℕ) → P.stands past.now h →
        run ≡ turn.run_on (language_of program.now) h id snap request.now) }
    ensures cost { IfOk result (λ run. (h : List Entry) → P.stands past.now h →
        txns.Runs (txn_meaning program.now (view_at h snap) request.now.name (txns.arguments_of (items_of request.now.args)))
        run steps.old steps.new) }
    ensures rising { IfOk result (λ run. IsTrue (is_sorted key_cmp (map put_write run.writes))) }
    ensures bound { OnOk result (steps.new ≤ steps.old + in_program program.now * 100001) }
{
    asks_what_is_there();
    programs_are_lawful();
    view_is(past);
    let view = AsOf::new(alloc, past, snap);
    let run = run_txn(
        alloc,
        program,
        request.name.as_str(),
        &request.args,
        &view,
        steps,
    )?;
    Ok(run)
}
