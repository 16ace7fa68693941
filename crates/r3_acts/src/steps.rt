//! The entries of steps that write their row alone.

ghost use Rattle.std.specs.Prelude.{◌≡◌, ◌∷◌, [], IfOk};
ghost use Rattle.r3_model.specs.Acts.{outside_entry, await_entry, step_write, step_row};
ghost use Rattle.r3_acts.specs.Entries.{IsMadeOn};

use crate::plain::{one_write, plain, step_row};
use fn_tree::flow::Request;
use r3_entry::{Act, Entry};
use r3_rows::{Cell, Key, StepKind, Writes};
use r3_value::{Memory, Outcome, Txt};
use std::alloc::Global;

// The row of a step, alone.
fn step_write(
    alloc: Global,
    id: &Txt,
    asked: &Request,
    kind: StepKind,
    outcome: Outcome,
) -> Result<Writes, Memory>
    ensures { IfOk result (λ ws. ws ≡ step_write id.now asked.now.n (step_row asked.now.name kind outcome) ∷ []) }
{
    let row = step_row(&asked.name, kind, outcome)?;
    let key = Key::Step {
        id: id.copy()?,
        n: asked.n,
    };
    one_write(alloc, key, Cell::Step(row))
}

/// An external service has answered.
pub fn outside_entry(
    alloc: Global,
    count: u32,
    id: &Txt,
    asked: &Request,
    outcome: Outcome,
) -> Result<Entry, Memory>
    ensures { IfOk result (λ e. IsMadeOn count (λ h. outside_entry h id.now asked.now outcome) e) }
{
    let writes = step_write(alloc, id, asked, StepKind::Outside, outcome)?;
    let act = Act::Outside {
        id: id.copy()?,
        n: asked.n,
        args: asked.args.copy()?,
    };
    Ok(plain(alloc, count, act, writes))
}

/// A workflow that was awaited has ended.
pub fn await_entry(
    alloc: Global,
    count: u32,
    id: &Txt,
    asked: &Request,
    on: &Txt,
    outcome: Outcome,
) -> Result<Entry, Memory>
    ensures { IfOk result (λ e. IsMadeOn count (λ h. await_entry h id.now asked.now on.now outcome) e) }
{
    let writes = step_write(alloc, id, asked, StepKind::Await, outcome)?;
    let act = Act::Await {
        id: id.copy()?,
        n: asked.n,
        on: on.copy()?,
    };
    Ok(plain(alloc, count, act, writes))
}
