//! The entries that start a workflow.

ghost use Rattle.std.specs.Prelude.{◌≤◌, [], IfOk};
ghost use Rattle.r3_value.specs.declared.value.Outcome.TheVariants as outcomes;
ghost use Rattle.r3_value.specs.declared.value.Val.TheVariants as vals;
ghost use Rattle.r3_model.specs.Acts.{start_entry, enqueue_entry, child_entry, child_write};
ghost use Rattle.r3_acts.specs.Entries.{IsMadeOn};

use crate::plain::{one_write, plain, started, step_row};
use fn_tree::flow::Request;
use r3_entry::{Act, Entry};
use r3_rows::{Cell, Key, Status, StepKind};
use r3_value::{Memory, Outcome, Txt, Val};
use std::alloc::Global;

/// A workflow starts.
pub fn start_entry(
    alloc: Global,
    count: u32,
    id: &Txt,
    function: &Txt,
    args: &Val,
) -> Result<Entry, Memory>
    requires { count ≤ 1000000 }
    ensures { IfOk result (λ e. IsMadeOn count (λ h. start_entry h id.now function.now args.now) e) }
{
    let row = started(Status::Pending, function, args, None, count + 1, None)?;
    let writes = one_write(alloc, Key::Flow { id: id.copy()? }, Cell::Flow(row))?;
    Ok(plain(alloc, count, Act::Start { id: id.copy()? }, writes))
}

/// A workflow is put in a queue.
pub fn enqueue_entry(
    alloc: Global,
    count: u32,
    id: &Txt,
    queue: &Txt,
    function: &Txt,
    args: &Val,
) -> Result<Entry, Memory>
    requires { count ≤ 1000000 }
    ensures { IfOk result (λ e. IsMadeOn count (λ h. enqueue_entry h id.now queue.now function.now args.now) e) }
{
    let row = started(
        Status::Enqueued,
        function,
        args,
        Some(queue.copy()?),
        count + 1,
        None,
    )?;
    let writes = one_write(alloc, Key::Flow { id: id.copy()? }, Cell::Flow(row))?;
    Ok(plain(alloc, count, Act::Enqueue { id: id.copy()? }, writes))
}

/// A workflow asks for a child, which starts.
pub fn child_entry(
    alloc: Global,
    count: u32,
    id: &Txt,
    asked: &Request,
    child: &Txt,
) -> Result<Entry, Memory>
    requires { count ≤ 1000000 }
    ensures { IfOk result (λ e. IsMadeOn count
        (λ h. child_entry h id.now asked.now child.now (outcomes.Value (vals.Text child.now)) (child_write h id.now asked.now child.now)) e) }
{
    let row = started(
        Status::Pending,
        &asked.name,
        &asked.args,
        None,
        count + 1,
        Some(id.copy()?),
    )?;
    let outcome = Outcome::Value(Val::Text(child.copy()?));
    let step = step_row(&asked.name, StepKind::Child, outcome)?;
    let mut writes = one_write(alloc, Key::Flow { id: child.copy()? }, Cell::Flow(row))?;
    let key = Key::Step {
        id: id.copy()?,
        n: asked.n,
    };
    writes.put(key, Some(Cell::Step(step)))?;
    let act = Act::Child {
        id: id.copy()?,
        n: asked.n,
        child: child.copy()?,
    };
    Ok(plain(alloc, count, act, writes))
}

/// A workflow asks for a child that starts nothing: it is there, or can't be.
pub fn known_child_entry(
    alloc: Global,
    count: u32,
    id: &Txt,
    asked: &Request,
    child: &Txt,
    outcome: Outcome,
) -> Result<Entry, Memory>
    ensures { IfOk result (λ e. IsMadeOn count (λ h. child_entry h id.now asked.now child.now outcome []) e) }
{
    let step = step_row(&asked.name, StepKind::Child, outcome)?;
    let key = Key::Step {
        id: id.copy()?,
        n: asked.n,
    };
    let writes = one_write(alloc, key, Cell::Step(step))?;
    let act = Act::Child {
        id: id.copy()?,
        n: asked.n,
        child: child.copy()?,
    };
    Ok(plain(alloc, count, act, writes))
}
