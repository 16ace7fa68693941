//! What a dequeue comes to.

ghost use Rattle.std.specs.Prelude.{◌≡◌, ◌+◌, ◌++◌, ◌∷◌, [], List, length, map, filter, IfOk, OnOk};
ghost use Rattle.r3_entry.specs.declared.entry.Entry.{Entry};
ghost use Rattle.sys_queue.specs.Rows as rule;
ghost use Rattle.r3_model.specs.Acts as acts;
ghost use Rattle.r3_model.specs.Event.{EntryOf};
ghost use Rattle.r3_model.specs.Functions.{language_of};
ghost use Rattle.r3_model.specs.Given.{Enters};
ghost use Rattle.r3_model.specs.Queues as machine;
ghost use Rattle.r3_model.specs.Rows.{Flow as F};
ghost use Rattle.r3_plain.specs.Flows.{declared_of, flow_of};
ghost use Rattle.r3_plain.specs.Kept.{Stands};
ghost use Rattle.r3_plain.specs.Words.{given_of};

use crate::commands::next;
use crate::declared::{Declared, queue_called};
use crate::flows::{Flow, by_start, flows_now, let_go};
use crate::given::Given;
use crate::past::Kept;
use crate::reply::Reply;
use fn_tree::checked::Checked;
use r3_acts::dequeue_entry;
use r3_past::Past;
use r3_rows::{FlowRow, Status};
use r3_value::{Memory, Txt};
use std::alloc::Global;
use sys_flow::Refusal;

fn is_in(name: &str, queue: &Option<Txt>) -> bool
    ensures { result ≡ rule.is_in name.now queue.now }
{
    match queue {
        None => false,
        Some(queue) => name == queue.as_str(),
    }
}

fn is_running(name: &str, row: &FlowRow) -> bool
    ensures { result ≡ rule.is_running name.now row.now }
{
    is_in(name, &row.queue) && matches!(row.status, Status::Pending)
}

fn is_waiting(name: &str, row: &FlowRow) -> bool
    ensures { result ≡ rule.is_waiting name.now row.now }
{
    is_in(name, &row.queue) && matches!(row.status, Status::Enqueued)
}

// How many of the queue's workflows run.
fn running_count(flows: &[Flow], name: &str) -> usize
    ensures { result ≡ length (machine.running name.now (map flow_of flows.now)) }
{
    let mut count = 0usize;
    'flows: for flow in flows {
        if is_running(name, &flow.row) {
            count += 1;
        }
    }
    count
}

fn keep_waiting(left: &mut Vec<Flow>, flow: Flow, name: &str) -> Result<(), Memory>
    ensures { OnOk result (map flow_of left.new.items ≡ map flow_of left.old.items ++ filter (λ (f : F). rule.is_waiting name.now f.row) (flow_of flow ∷ [])) }
{
    if is_waiting(name, &flow.row) {
        left.push(flow)?;
    } else {
        let_go(flow);
    }
    Ok(())
}

// Those that wait in the queue, in the order of their IDs.
fn waiting(alloc: Global, flows: Vec<Flow>, name: &str) -> Result<Vec<Flow>, Memory>
    ensures { IfOk result (λ left. map flow_of left.items ≡ filter (λ (f : F). rule.is_waiting name.now f.row) (map flow_of flows.items)) }
{
    let mut left = Vec::new(alloc);
    'flows: for flow in flows {
        keep_waiting(&mut left, flow, name)?;
    }
    Ok(left)
}

// The entry that starts a workflow.
fn start_of(alloc: Global, past: &Kept<'_>, flow: &Flow) -> Result<Given, Memory>
    requires stands { (h : List Entry) × Stands past.now h }
    ensures { IfOk result (λ g. (h : List Entry) → Stands past.now h →
        given_of g ≡ Enters (acts.dequeue_entry h flow.now.id flow.now.row) (EntryOf (length h + 1) flow.now.id)) }
{
    let entry = dequeue_entry(alloc, past.count(), &flow.id, &flow.row)?;
    match flow.id.copy() {
        Ok(id) => Ok(Given::Enters {
            entry,
            reply: Reply::EntryOf {
                number: next(past),
                id,
            },
        }),
        Err(_) => {
            drop_entry(entry);
            Err(Memory)
        }
    }
}

fn drop_entry(entry: r3_entry::Entry) {
    let _entry = entry;
}

// The one that was enqueued first is started, if one waits.
fn start_first(
    alloc: Global,
    past: &Kept<'_>,
    flows: Vec<Flow>,
    name: &str,
) -> Result<Given, Memory>
    requires stands { (h : List Entry) × Stands past.now h }
    ensures { IfOk result (λ g. (h : List Entry) → Stands past.now h →
        given_of g ≡ machine.dequeued_next h (machine.first_of (machine.waiting name.now (map flow_of flows.items)))) }
{
    let flows = waiting(alloc, flows, name)?;
    let flows = by_start(alloc, flows)?;
    match flows.first() {
        None => Ok(Given::Answers(Reply::Empty)),
        Some(flow) => start_of(alloc, past, flow),
    }
}

// The bound is looked at first.
fn dequeued_from(
    alloc: Global,
    past: &Kept<'_>,
    flows: Vec<Flow>,
    queue: &Declared,
) -> Result<Given, Memory>
    requires stands { (h : List Entry) × Stands past.now h }
    ensures { IfOk result (λ g. (h : List Entry) → Stands past.now h →
        given_of g ≡ machine.dequeued_next h (machine.next_of (declared_of queue.now) (map flow_of flows.items))) }
{
    let running = running_count(&flows, queue.name.as_str());
    if running >= queue.bound as usize {
        return Ok(Given::Answers(Reply::AtLimit { running }));
    }
    start_first(alloc, past, flows, queue.name.as_str())
}

/// What a dequeue of a queue comes to.
pub fn dequeued(
    alloc: Global,
    program: &Checked,
    past: &Kept<'_>,
    name: &str,
) -> Result<Given, Memory>
    requires stands { (h : List Entry) × Stands past.now h }
    ensures { IfOk result (λ g. (h : List Entry) → Stands past.now h →
        given_of g ≡ machine.dequeued h (language_of program.now) name.now) }
{
    past.is_past();
    match queue_called(program, name)? {
        None => Ok(Given::Answers(Reply::Refused(Refusal::UnknownQueue))),
        Some(queue) => {
            let flows = flows_now(alloc, past.history)?;
            let given = dequeued_from(alloc, past, flows, &queue)?;
            Ok(given)
        }
    }
}
