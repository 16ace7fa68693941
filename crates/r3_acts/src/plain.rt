//! What the entries of most acts share: they read nothing, and write few keys.

ghost use Rattle.std.specs.Prelude.{◌≡◌, ◌∷◌, [], Some, IfOk};
ghost use Rattle.r3_model.specs.Acts.{plain, started, step_row};
ghost use Rattle.r3_acts.specs.Entries.{IsMadeOn};

use r3_entry::{Act, Entry};
use r3_rows::{Cell, FlowRow, Key, Status, StepKind, StepRow, Writes};
use r3_value::{Memory, Outcome, Txt, Val};
use sqlite_items::Items;
use std::alloc::Global;

/// A map of one key.
pub fn one_write(alloc: Global, key: Key, cell: Cell) -> Result<Writes, Memory>
    ensures { IfOk result (λ ws. ws ≡ (key, Some cell) ∷ []) }
{
    let mut writes = Writes::new(alloc);
    writes.put(key, Some(cell))?;
    Ok(writes)
}

/// An entry on all that stands before it, which reads nothing.
pub fn plain(alloc: Global, count: u32, act: Act, writes: Writes) -> Entry
    ensures { IsMadeOn count (λ h. plain h act writes) result }
{
    Entry {
        act,
        snap: count,
        reads: Items::new(alloc),
        writes,
    }
}

/// The row that starts a workflow.
pub fn started(
    status: Status,
    function: &Txt,
    args: &Val,
    queue: Option<Txt>,
    number: u32,
    parent: Option<Txt>,
) -> Result<FlowRow, Memory>
    ensures { IfOk result (λ r. r ≡ started status function.now args.now queue number parent) }
{
    let function = function.copy()?;
    let args = args.copy()?;
    Ok(FlowRow {
        status,
        function,
        args,
        outcome: None,
        queue,
        started: number,
        attempts: 0,
        parent,
    })
}

/// The row of a step.
pub fn step_row(name: &Txt, kind: StepKind, outcome: Outcome) -> Result<StepRow, Memory>
    ensures { IfOk result (λ r. r ≡ step_row name.now kind outcome) }
{
    Ok(StepRow {
        name: name.copy()?,
        kind,
        outcome,
    })
}
