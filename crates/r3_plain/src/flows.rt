//! All workflows with their rows.

ghost use Rattle.std.specs.Prelude.{◌≡◌, ◌≤◌, ◌<◌, nat_le, slice_get, Some, ◌++◌, ◌∷◌, [], List, length, map, filter, filter_map, IfOk, OnOk};
ghost use Rattle.std.specs.List.{insert};
ghost use Rattle.r3_rows.specs.declared.rows.FlowRow.{FlowRow as R};
ghost use Rattle.sys_queue.specs.Rows as queues;
ghost use Rattle.r3_entry.specs.Formed.{IsFormed};
ghost use Rattle.r3_model.specs.Rows as machine;
ghost use Rattle.r3_model.specs.Run.{pending_ids};
ghost use Rattle.r3_plain.specs.Flows.{flow_of, is_pending};
ghost use Rattle.r3_plain.specs.Words.{state_of};

use crate::rows::{Row, rows_at};
use crate::state::State;
use r3_entry::Entry;
use r3_rows::{Cell, FlowRow, Key, Status};
use r3_value::{Memory, Txt};
use std::alloc::Global;

/// A workflow with its row.
#[derive(Drop)]
pub struct Flow {
    pub id: Txt,
    pub row: FlowRow,
}

// The workflow, if the row is one's.
fn add_flow(flows: &mut Vec<Flow>, row: &Row) -> Result<(), Memory>
    ensures { OnOk result (map flow_of flows.new.items ≡ map flow_of flows.old.items ++ filter_map machine.flow_seen (row.now ∷ [])) }
{
    match &row.0 {
        Key::Flow { id } => match &row.1.1 {
            Some(Cell::Flow(row)) => {
                let id = id.copy()?;
                let row = row.copy()?;
                flows.push(Flow { id, row })?;
                Ok(())
            }
            _ => Ok(()),
        },
        _ => Ok(()),
    }
}

fn flows_in(alloc: Global, rows: &[Row]) -> Result<Vec<Flow>, Memory>
    ensures { IfOk result (λ flows. map flow_of flows.items ≡ filter_map machine.flow_seen rows.now) }
{
    let mut flows = Vec::new(alloc);
    'rows: for row in rows {
        add_flow(&mut flows, row)?;
    }
    Ok(flows)
}

/// The workflows of a history as they stand, in the order of their IDs.
pub fn flows_now(alloc: Global, history: &[Entry]) -> Result<Vec<Flow>, Memory>
    requires { length history.now ≤ 1000000 }
    ensures { IfOk result (λ flows. map flow_of flows.items ≡ machine.flows_at history.now (length history.now)) }
{
    let rows = rows_at(alloc, history, history.len() as u32)?;
    flows_in(alloc, &rows)
}

/// It isn't taken.
pub fn let_go(flow: Flow) {
    let _flow = flow;
}

// ---- by the entries that started them

fn flow_at(flows: &[Flow], at: usize) -> &Flow
    requires { at < length flows.now }
    ensures { slice_get flows.now at ≡ Some result.now }
{
    &flows[at]
}

// Whether the workflow started then or later.
fn is_by(started: u32, flow: &Flow) -> bool
    ensures { result ≡ nat_le started flow.now.row.started }
{
    started <= flow.row.started
}

// The place before the first that started then or later.
fn place_of(sorted: &[Flow], started: u32) -> usize
    ensures within { result ≤ length sorted.now }
    ensures place { (f : machine.Flow) → f.row.started ≡ started →
        machine.placed f (map flow_of sorted.now) ≡ insert (map flow_of sorted.now) result f }
{
    'places: for i in 0..sorted.len() {
        let flow = flow_at(sorted, i);
        if is_by(started, flow) {
            return i;
        }
    }
    sorted.len()
}

fn put_flow(sorted: &mut Vec<Flow>, flow: Flow) -> Result<(), Memory>
    ensures { OnOk result (map flow_of sorted.new.items ≡ machine.placed (flow_of flow) (map flow_of sorted.old.items)) }
{
    let place = place_of(sorted.as_slice(), flow.row.started);
    sorted.insert(place, flow)?;
    Ok(())
}

/// The workflows, the first started first; those of one entry stay in their order.
pub fn by_start(alloc: Global, flows: Vec<Flow>) -> Result<Vec<Flow>, Memory>
    ensures { IfOk result (λ sorted. map flow_of sorted.items ≡ machine.by_start (map flow_of flows.items)) }
{
    // They are taken from the end.
    let mut flows = flows;
    let mut sorted = Vec::new(alloc);
    'flows: while let Some(flow) = flows.pop() {
        put_flow(&mut sorted, flow)?;
    }
    Ok(sorted)
}

// ---- those that run

fn is_pending(row: &FlowRow) -> bool
    ensures { result ≡ queues.is_pending row.now.status }
{
    matches!(row.status, Status::Pending)
}

fn running(alloc: Global, flows: Vec<Flow>) -> Result<Vec<Flow>, Memory>
    ensures { IfOk result (λ left. map flow_of left.items ≡ filter is_pending (map flow_of flows.items)) }
{
    let mut left = Vec::new(alloc);
    'flows: for flow in flows {
        if is_pending(&flow.row) {
            left.push(flow)?;
        } else {
            let_go(flow);
        }
    }
    Ok(left)
}

fn ids_of(alloc: Global, flows: &[Flow]) -> Result<Vec<Txt>, Memory>
    ensures { IfOk result (λ ids. ids.items ≡ map (λ (f : machine.Flow). f.id) (map flow_of flows.now)) }
{
    let mut ids = Vec::new(alloc);
    'flows: for flow in flows {
        ids.push(flow.id.copy()?)?;
    }
    Ok(ids)
}

/// The IDs of the running workflows, the first started first; of one entry the lowest ID first.
pub fn pending(alloc: Global, state: &State) -> Result<Vec<Txt>, Memory>
    requires { IsFormed (state_of state.now).history }
    ensures { IfOk result (λ ids. ids.items ≡ pending_ids (state_of state.now)) }
{
    let flows = flows_now(alloc, state.history.as_slice())?;
    let flows = running(alloc, flows)?;
    let flows = by_start(alloc, flows)?;
    ids_of(alloc, &flows)
}
