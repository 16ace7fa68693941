//! An executor takes up what a store holds.

ghost use Rattle.std.specs.Prelude.{◌≡◌, ◌≢◌, [], List, Some, None, length, IfOk, OnOk};
ghost use Rattle.r3_entry.specs.declared.entry.Entry.{Entry};
ghost use Rattle.r3_rows.specs.declared.rows.FlowRow.{FlowRow as Row};
ghost use Rattle.r3_formed.specs.Answers.{flow_ids};
ghost use Rattle.r3_store.specs.Holds.{Stands as StoreStands};
ghost use Rattle.sys_queue.specs.Lines.{declared_of, new_lines};
ghost use Rattle.sys_queue.specs.Index as queue;
ghost use Rattle.sys_pending.specs.Index as running;
ghost use Rattle.r3_model.specs.Rows.{flow_at};
ghost use Rattle.r3_model.specs.Run.{restarted};
ghost use Rattle.r3_exec.specs.Runs.{Stands, rows_now};

use crate::exec::Exec;
use crate::stored::Stored;
use fn_tree::checked::Checked;
use r3_laws::rows_gather;
use r3_past::flow_row;
use r3_store::Store;
use r3_value::{Memory, Txt};
use std::alloc::Global;
use std::collections::BTreeMap;
use sys_pending::Pending;
use sys_queue::Queues;

// Notes the row of a workflow that isn't noted yet.
fn note_first(
    alloc: Global,
    store: &Store,
    queues: &mut Queues,
    pending: &mut Pending,
    id: &Txt,
) -> Result<(), Memory>
    requires stands { (h : List Entry) × (row : Row) × StoreStands store.now h × (flow_at h (length h) id.now ≡ Some row) }
    ensures declared { declared_of queues.new ≡ declared_of queues.old }
    ensures noted { (h : List Entry) (row : Row) → StoreStands store.now h → flow_at h (length h) id.now ≡ Some row →
        OnOk result (queue.Follows queues.old queues.new id.now None row × running.Follows pending.old pending.new id.now None row) }
{
    let stored = Stored::of(store);
    match flow_row(alloc, &stored, id.as_str())? {
        Some(row) => {
            queues.note(alloc, id.as_str(), None, row)?;
            pending.note(alloc, id.as_str(), None, row)?;
            Ok(())
        }
        None => unreachable!(),
    }
}

// Notes the rows of these workflows, which are all that there are, in the order of their IDs.
fn gather(
    alloc: Global,
    store: &Store,
    queues: &mut Queues,
    pending: &mut Pending,
    ids: &[Txt],
) -> Result<(), Memory>
    requires stands { (h : List Entry) × StoreStands store.now h }
    requires all { (h : List Entry) → StoreStands store.now h → ids.now ≡ flow_ids h }
    requires empty { queue.IsIndexOf queues.old [] × running.IsIndexOf pending.old [] }
    ensures declared { declared_of queues.new ≡ declared_of queues.old }
    ensures gathered { (h : List Entry) → StoreStands store.now h →
        OnOk result (queue.IsIndexOf queues.new (rows_now h) × running.IsIndexOf pending.new (rows_now h)) }
{
    rows_gather();
    'ids: for id in ids {
        note_first(alloc, store, queues, pending, id)?;
    }
    Ok(())
}

// The queues and the running workflows, as the rows say.
fn indexes(alloc: Global, program: &Checked, store: &Store) -> Result<(Queues, Pending), Memory>
    requires stands { (h : List Entry) × StoreStands store.now h }
    ensures declared { IfOk result (λ i. declared_of i.0 ≡ declared_of (new_lines program.now)) }
    ensures gathered { (h : List Entry) → StoreStands store.now h →
        IfOk result (λ i. queue.IsIndexOf i.0 (rows_now h) × running.IsIndexOf i.1 (rows_now h)) }
{
    let mut queues = Queues::of(alloc, program)?;
    let mut pending = Pending::new(alloc);
    let ids = store.flows(alloc)?;
    gather(alloc, store, &mut queues, &mut pending, &ids)?;
    Ok((queues, pending))
}

impl Exec {
    /// Takes up a history that isn't empty. No snapshot is open, and none is pinned in the store.
    pub fn new(alloc: Global, program: Checked, store: Store) -> Result<Exec, Memory>
        requires { (h : List Entry) × StoreStands store h × (h ≢ []) × (store.pins ≡ []) }
        ensures stands { (h : List Entry) → StoreStands store h → IfOk result (λ e. Stands e (restarted h)) }
        ensures store { IfOk result (λ e. e.store ≡ store) }
        ensures program { IfOk result (λ e. e.program ≡ program) }
        ensures vacuumed { (h : List Entry) → StoreStands store h → IfOk result (λ e. e.vacuumed ≡ length h) }
    {
        let vacuumed = store.len();
        match indexes(alloc, &program, &store) {
            Ok((queues, pending)) => Ok(Exec {
                program,
                store,
                queues,
                pending,
                begun: BTreeMap::new(alloc),
                vacuumed,
            }),
            Err(_) => Err(Memory),
        }
    }
}
