//! The entries that change a workflow's row.

ghost use Rattle.std.specs.Prelude.{◌≡◌, ◌∷◌, [], IfOk};
ghost use Rattle.r3_model.specs.Acts.{dequeue_entry, finish_entry, cancel_entry, resume_entry, recover_entry, flow_write, status_of};
ghost use Rattle.r3_acts.specs.Entries.{IsMadeOn};

use crate::plain::{one_write, plain};
use r3_entry::{Act, Entry};
use r3_rows::{Cell, FlowRow, Key, Status, Writes};
use r3_value::{Memory, Outcome, Txt};
use std::alloc::Global;

// The row of a workflow, alone.
fn flow_write(alloc: Global, id: &Txt, row: FlowRow) -> Result<Writes, Memory>
    ensures { IfOk result (λ ws. ws ≡ flow_write id.now row ∷ []) }
{
    one_write(alloc, Key::Flow { id: id.copy()? }, Cell::Flow(row))
}

/// A workflow that waited in its queue is started.
pub fn dequeue_entry(alloc: Global, count: u32, id: &Txt, row: &FlowRow) -> Result<Entry, Memory>
    ensures { IfOk result (λ e. IsMadeOn count (λ h. dequeue_entry h id.now row.now) e) }
{
    let mut row = row.copy()?;
    row.status = Status::Pending;
    let writes = flow_write(alloc, id, row)?;
    Ok(plain(alloc, count, Act::Dequeue { id: id.copy()? }, writes))
}

// How a workflow stands that has ended so.
fn status_of(outcome: &Outcome) -> Status
    ensures { result ≡ status_of outcome.now }
{
    match outcome {
        Outcome::Value(_) => Status::Success,
        Outcome::Failure(_) => Status::Error,
    }
}

/// A workflow has ended.
pub fn finish_entry(
    alloc: Global,
    count: u32,
    id: &Txt,
    row: &FlowRow,
    outcome: Outcome,
) -> Result<Entry, Memory>
    ensures { IfOk result (λ e. IsMadeOn count (λ h. finish_entry h id.now row.now outcome) e) }
{
    let mut row = row.copy()?;
    row.status = status_of(&outcome);
    row.outcome = Some(outcome);
    let writes = flow_write(alloc, id, row)?;
    Ok(plain(alloc, count, Act::Finish { id: id.copy()? }, writes))
}

/// A workflow is cancelled.
pub fn cancel_entry(alloc: Global, count: u32, id: &Txt, row: &FlowRow) -> Result<Entry, Memory>
    ensures { IfOk result (λ e. IsMadeOn count (λ h. cancel_entry h id.now row.now) e) }
{
    let mut row = row.copy()?;
    row.status = Status::Cancelled;
    let writes = flow_write(alloc, id, row)?;
    Ok(plain(alloc, count, Act::Cancel { id: id.copy()? }, writes))
}

/// A workflow goes on, with no queue and as one that was never recovered.
pub fn resume_entry(alloc: Global, count: u32, id: &Txt, row: &FlowRow) -> Result<Entry, Memory>
    ensures { IfOk result (λ e. IsMadeOn count (λ h. resume_entry h id.now row.now) e) }
{
    let mut row = row.copy()?;
    row.status = Status::Pending;
    row.queue = None;
    row.attempts = 0;
    let writes = flow_write(alloc, id, row)?;
    Ok(plain(alloc, count, Act::Resume { id: id.copy()? }, writes))
}

/// A workflow that ran is recovered, and stands as its status and its number of recoveries say.
pub fn recover_entry(
    alloc: Global,
    count: u32,
    id: &Txt,
    row: &FlowRow,
    next: (Status, u32),
) -> Result<Entry, Memory>
    ensures { IfOk result (λ e. IsMadeOn count (λ h. recover_entry h id.now row.now next) e) }
{
    let mut row = row.copy()?;
    row.status = next.0;
    row.attempts = next.1;
    let writes = flow_write(alloc, id, row)?;
    Ok(plain(alloc, count, Act::Recover { id: id.copy()? }, writes))
}
