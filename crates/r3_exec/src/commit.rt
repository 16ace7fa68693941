//! One more entry, with the change of a workflow's row noted.

ghost use Rattle.std.specs.Prelude.{◌≡◌, ◌⊎◌, ◌+◌, ◌≤◌, ◌<◌, ◌^◌, ◌++◌, ◌∷◌, [], ℕ, List, Some, None, Ok, Err, length, take, IfOk, OnOk, OnErr, IsErrOf};
ghost use Rattle.std.specs.Option.{option_copied, option_map, ForSome};
ghost use Rattle.r3_desk.specs.Causes.{Rose};
ghost use Rattle.r3_desk.specs.Moments.{LeavesImage};
ghost use Rattle.r3_entry.specs.declared.entry.Entry.{Entry as E};
ghost use Rattle.r3_entry.specs.Bytes.{entry as spelled};
ghost use Rattle.r3_entry.specs.Image.{IsHistoryOf};
ghost use Rattle.r3_entry.specs.Limits.{IsEntry};
ghost use Rattle.r3_rows.specs.declared.rows.FlowRow.{FlowRow as Row};
ghost use Rattle.r3_snap.specs.Conflicts.{keys_of};
ghost use Rattle.r3_formed.specs.Past.{first_conflict};
ghost use Rattle.r3_store.specs.Holds.{Stands as StoreStands, IsReadable, MayFollow, Holds};
ghost use Rattle.sys_queue.specs.Lines.{declared_of};
ghost use Rattle.sys_queue.specs.Index as queue;
ghost use Rattle.sys_pending.specs.Index as running;
ghost use Rattle.r3_model.specs.Rows.{flow_at};
ghost use Rattle.r3_model.specs.Machine.{Begun, full_of};
ghost use Rattle.r3_laws.specs.OfStates.{flows_in};
ghost use Rattle.r3_exec.specs.Ends.{limit_of};
ghost use Rattle.r3_exec.specs.Runs.{Keeps};
ghost use Rattle.r3_exec.specs.Placed.{Keeping, IsPlaced, IsChange, HasEntered, changed};

use crate::ends::ExecFault;
use crate::exec::Exec;
use crate::stored::Stored;
use r3_desk::Desk;
use r3_entry::Entry;
use r3_gate::Limit;
use r3_laws::rows_follow;
use r3_past::flow_row;
use r3_rows::{FlowRow, Key, Writes};
use r3_store::{CommitFault, reads_as_settled};
use r3_value::{Memory, Txt};
use std::alloc::Global;

/// What became of an entry.
#[derive(Debug, Drop)]
pub enum Placed {
    /// It stands as the entry of this number.
    Number(u32),
    /// There is no room.
    Full(Limit),
    /// An entry past its snapshot wrote one of its keys: the first that did.
    Conflict(u32),
}

// The workflow whose row is written.
fn changed(writes: &Writes) -> Option<&Txt>
    ensures { option_copied result ≡ changed writes.now }
{
    'writes: for write in writes.list() {
        match &write.0 {
            Key::Flow { id } => return Some(id),
            _ => {}
        }
    }
    None
}

// A copy of a workflow's row.
fn copied(row: Option<&FlowRow>) -> Result<Option<FlowRow>, Memory>
    ensures { IfOk result (λ r. r ≡ option_copied row.entry) }
{
    match row {
        None => Ok(None),
        Some(row) => Ok(Some(row.copy()?)),
    }
}

/// An entry that isn't placed.
pub fn let_go(entry: Entry) {
    let _entry = entry;
}

impl Exec {
    // Adds the entry to the store.
    fn commit<D: Desk>(
        &mut self,
        alloc: Global,
        desk: &mut D,
        entry: Entry,
    ) -> Result<Placed, ExecFault>
        requires limits { IsEntry entry }
        requires payload { length (spelled entry) ≤ 2 ^ 23 }
        requires readable { IsReadable self.old.store entry.snap }
        requires keeping { (h : List E) × (begun : Begun) × (k : ℕ) × Keeping D.size D.image D.may_leave desk.old self.old h begun k }
        ensures rest { self.new ≡ record self.old { store = self.new.store } }
        ensures pins { OnOk result (self.new.store.pins ≡ self.old.store.pins) }
        ensures number { (h : List E) (begun : Begun) (k : ℕ) (n : ℕ) →
            Keeping D.size D.image D.may_leave desk.old self.old h begun k → MayFollow h entry → result ≡ Ok (Placed.Number n) →
            (n ≡ length h + 1) × (full_of h entry ≡ None) × Holds D.size D.image D.may_leave desk.new self.new.store (h ++ entry ∷ []) k }
        ensures full { (h : List E) (begun : Begun) (k : ℕ) (l : _) →
            Keeping D.size D.image D.may_leave desk.old self.old h begun k → result ≡ Ok (Placed.Full l) →
            (full_of h entry ≡ Some (limit_of l)) × Keeping D.size D.image D.may_leave desk.new self.new h begun k }
        ensures conflict { (h : List E) → StoreStands self.old.store h → (j : ℕ) → result ≡ Ok (Placed.Conflict j) →
            first_conflict h entry.snap (keys_of entry.writes) ≡ Some j }
        ensures kept { (h : List E) (begun : Begun) (k : ℕ) (j : ℕ) →
            Keeping D.size D.image D.may_leave desk.old self.old h begun k → result ≡ Ok (Placed.Conflict j) →
            Keeping D.size D.image D.may_leave desk.new self.new h begun k }
        ensures found { (h : List E) → StoreStands self.old.store h → (j : ℕ) → first_conflict h entry.snap (keys_of entry.writes) ≡ Some j →
            (result ≡ Ok (Placed.Conflict j)) ⊎ (result ≡ Err ExecFault.Memory) }
        ensures crash { (h : List E) (begun : Begun) (k : ℕ) → Keeping D.size D.image D.may_leave desk.old self.old h begun k →
            LeavesImage D.moment D.reach D.may_leave D.said D.asked desk.old desk.new (IsHistoryOf (take k h)) }
        ensures reads { (h : List E) (begun : Begun) (k : ℕ) → Keeping D.size D.image D.may_leave desk.old self.old h begun k →
            ForSome (D.image desk.new) (IsHistoryOf (take k h)) }
        ensures disk { IsErrOf result ExecFault.Disk → Rose (D.disk_faults desk.old) (D.disk_faults desk.new) }
        ensures no_fault { (IsErrOf result ExecFault.Disk → ⊥) → D.disk_faults desk.new ≡ D.disk_faults desk.old }
        ensures syncs { (h : List E) → StoreStands self.old.store h → 0 < length h → D.syncs desk.new ≡ D.syncs desk.old }
        ensures said { D.said desk.new ≡ D.said desk.old }
        ensures asked { D.asked desk.new ≡ D.asked desk.old }
        ensures say_faults { D.say_faults desk.new ≡ D.say_faults desk.old }
        ensures ask_faults { D.ask_faults desk.new ≡ D.ask_faults desk.old }
    {
        match self.store.commit(alloc, desk, entry) {
            Ok(number) => Ok(Placed::Number(number)),
            Err(CommitFault::Full { limit }) => Ok(Placed::Full(limit)),
            Err(CommitFault::Conflict { entry }) => Ok(Placed::Conflict(entry)),
            Err(CommitFault::Disk) => Err(ExecFault::Disk),
            Err(CommitFault::Memory) => Err(ExecFault::Memory),
        }
    }

    // The workflow whose row the entry writes, with the row that it had.
    fn change(&self, alloc: Global, entry: &Entry) -> Result<Option<(Txt, Option<FlowRow>)>, Memory>
        requires stands { (h : List E) × StoreStands self.now.store h }
        ensures { (h : List E) → StoreStands self.now.store h → IfOk result (IsChange h entry.now.writes) }
    {
        match changed(&entry.writes) {
            None => Ok(None),
            Some(id) => {
                let stored = Stored::of(&self.store);
                let old = copied(flow_row(alloc, &stored, id.as_str())?)?;
                Ok(Some((id.copy()?, old)))
            }
        }
    }

    // Notes the new row of a workflow in the queues and among the running ones.
    fn note_row(&mut self, alloc: Global, id: &Txt, old: Option<&FlowRow>) -> Result<(), Memory>
        requires short { length id.now ≤ 200 }
        requires stands { (h : List E) × (row : Row) × StoreStands self.old.store h × (flow_at h (length h) id.now ≡ Some row) }
        ensures others { (self.new.program ≡ self.old.program) × (self.new.store ≡ self.old.store) × (self.new.begun ≡ self.old.begun)
            × (declared_of self.new.queues ≡ declared_of self.old.queues) × (self.new.vacuumed ≡ self.old.vacuumed) }
        ensures noted { (h : List E) (row : Row) → StoreStands self.old.store h → flow_at h (length h) id.now ≡ Some row →
            OnOk result (queue.Follows self.old.queues self.new.queues id.now (option_copied old.entry) row
            × running.Follows self.old.pending self.new.pending id.now (option_copied old.entry) row) }
    {
        let stored = Stored::of(&self.store);
        match flow_row(alloc, &stored, id.as_str())? {
            Some(row) => {
                self.queues.note(alloc, id.as_str(), old, row)?;
                self.pending.note(alloc, id.as_str(), old, row)?;
                Ok(())
            }
            None => unreachable!(),
        }
    }

    // The entry stands in the store: what it changed is noted.
    fn note(&mut self, alloc: Global, change: &Option<(Txt, Option<FlowRow>)>) -> Result<(), Memory>
        requires entered { (h : List E) × (e : E) × (begun : Begun) × HasEntered self.old h e begun × IsChange h e.writes change.now }
        ensures others { (self.new.program ≡ self.old.program) × (self.new.store ≡ self.old.store) × (self.new.begun ≡ self.old.begun)
            × (self.new.vacuumed ≡ self.old.vacuumed) }
        ensures noted { (h : List E) (e : E) (begun : Begun) → HasEntered self.old h e begun → IsChange h e.writes change.now →
            OnOk result (Keeps self.new (h ++ e ∷ []) begun) }
    {
        rows_follow();
        match change {
            None => Ok(()),
            Some((id, old)) => match self.note_row(alloc, id, old.as_ref()) {
                Ok(()) => Ok(()),
                Err(fault) => Err(fault),
            },
        }
    }

    // Adds the entry, whose change of a workflow's row is known.
    fn place_noting<D: Desk>(
        &mut self,
        alloc: Global,
        desk: &mut D,
        entry: Entry,
        change: &Option<(Txt, Option<FlowRow>)>,
    ) -> Result<Placed, ExecFault>
        requires change { (h : List E) → StoreStands self.old.store h → IsChange h entry.writes change.now }
        requires limits { IsEntry entry }
        requires payload { length (spelled entry) ≤ 2 ^ 23 }
        requires readable { IsReadable self.old.store entry.snap }
        requires one_flow { flows_in entry.writes ≤ 1 }
        requires keeping { (h : List E) × (begun : Begun) × (k : ℕ) × MayFollow h entry × Keeping D.size D.image D.may_leave desk.old self.old h begun k }
        ensures program { self.new.program ≡ self.old.program }
        ensures others { (self.new.begun ≡ self.old.begun) × (self.new.vacuumed ≡ self.old.vacuumed) }
        ensures placed { (h : List E) (begun : Begun) (k : ℕ) → Keeping D.size D.image D.may_leave desk.old self.old h begun k → MayFollow h entry →
            IfOk result (IsPlaced D.size D.image D.may_leave desk.new self.new h begun k entry) }
        ensures conflict { (h : List E) → StoreStands self.old.store h → (j : ℕ) → result ≡ Ok (Placed.Conflict j) →
            first_conflict h entry.snap (keys_of entry.writes) ≡ Some j }
        ensures found { (h : List E) → StoreStands self.old.store h → (j : ℕ) → first_conflict h entry.snap (keys_of entry.writes) ≡ Some j →
            (result ≡ Ok (Placed.Conflict j)) ⊎ (result ≡ Err ExecFault.Memory) }
        ensures crash { (h : List E) (begun : Begun) (k : ℕ) → Keeping D.size D.image D.may_leave desk.old self.old h begun k →
            LeavesImage D.moment D.reach D.may_leave D.said D.asked desk.old desk.new (IsHistoryOf (take k h)) }
        ensures reads { (h : List E) (begun : Begun) (k : ℕ) → Keeping D.size D.image D.may_leave desk.old self.old h begun k →
            ForSome (D.image desk.new) (IsHistoryOf (take k h)) }
        ensures disk { IsErrOf result ExecFault.Disk → Rose (D.disk_faults desk.old) (D.disk_faults desk.new) }
        ensures no_fault { (IsErrOf result ExecFault.Disk → ⊥) → D.disk_faults desk.new ≡ D.disk_faults desk.old }
        ensures syncs { (h : List E) → StoreStands self.old.store h → 0 < length h → D.syncs desk.new ≡ D.syncs desk.old }
        ensures said { D.said desk.new ≡ D.said desk.old }
        ensures asked { D.asked desk.new ≡ D.asked desk.old }
        ensures say_faults { D.say_faults desk.new ≡ D.say_faults desk.old }
        ensures ask_faults { D.ask_faults desk.new ≡ D.ask_faults desk.old }
    {
        match self.commit(alloc, desk, entry) {
            Ok(Placed::Number(number)) => match self.note(alloc, change) {
                Ok(()) => Ok(Placed::Number(number)),
                Err(_) => Err(ExecFault::Memory),
            },
            Ok(Placed::Full(limit)) => Ok(Placed::Full(limit)),
            Ok(Placed::Conflict(entry)) => Ok(Placed::Conflict(entry)),
            Err(fault) => Err(fault),
        }
    }

    /// Adds an entry that is within the limits and writes the row of one workflow at most.
    pub(crate) fn place<D: Desk>(
        &mut self,
        alloc: Global,
        desk: &mut D,
        entry: Entry,
    ) -> Result<Placed, ExecFault>
        requires limits { IsEntry entry }
        requires payload { length (spelled entry) ≤ 2 ^ 23 }
        requires readable { IsReadable self.old.store entry.snap }
        requires one_flow { flows_in entry.writes ≤ 1 }
        requires keeping { (h : List E) × (begun : Begun) × (k : ℕ) × MayFollow h entry × Keeping D.size D.image D.may_leave desk.old self.old h begun k }
        ensures program { self.new.program ≡ self.old.program }
        ensures others { (self.new.begun ≡ self.old.begun) × (self.new.vacuumed ≡ self.old.vacuumed) }
        ensures placed { (h : List E) (begun : Begun) (k : ℕ) → Keeping D.size D.image D.may_leave desk.old self.old h begun k → MayFollow h entry →
            IfOk result (IsPlaced D.size D.image D.may_leave desk.new self.new h begun k entry) }
        ensures conflict { (h : List E) → StoreStands self.old.store h → (j : ℕ) → result ≡ Ok (Placed.Conflict j) →
            first_conflict h entry.snap (keys_of entry.writes) ≡ Some j }
        ensures found { (h : List E) → StoreStands self.old.store h → (j : ℕ) → first_conflict h entry.snap (keys_of entry.writes) ≡ Some j →
            (result ≡ Ok (Placed.Conflict j)) ⊎ (result ≡ Err ExecFault.Memory) }
        ensures crash { (h : List E) (begun : Begun) (k : ℕ) → Keeping D.size D.image D.may_leave desk.old self.old h begun k →
            LeavesImage D.moment D.reach D.may_leave D.said D.asked desk.old desk.new (IsHistoryOf (take k h)) }
        ensures reads { (h : List E) (begun : Begun) (k : ℕ) → Keeping D.size D.image D.may_leave desk.old self.old h begun k →
            ForSome (D.image desk.new) (IsHistoryOf (take k h)) }
        ensures disk { IsErrOf result ExecFault.Disk → Rose (D.disk_faults desk.old) (D.disk_faults desk.new) }
        ensures no_fault { (IsErrOf result ExecFault.Disk → ⊥) → D.disk_faults desk.new ≡ D.disk_faults desk.old }
        ensures syncs { (h : List E) → StoreStands self.old.store h → 0 < length h → D.syncs desk.new ≡ D.syncs desk.old }
        ensures said { D.said desk.new ≡ D.said desk.old }
        ensures asked { D.asked desk.new ≡ D.asked desk.old }
        ensures say_faults { D.say_faults desk.new ≡ D.say_faults desk.old }
        ensures ask_faults { D.ask_faults desk.new ≡ D.ask_faults desk.old }
    {
        reads_as_settled::<D>();
        match self.change(alloc, &entry) {
            Ok(change) => self.place_noting(alloc, desk, entry, &change),
            Err(_) => {
                let_go(entry);
                Err(ExecFault::Memory)
            }
        }
    }
}
