//! The executor.

ghost use Rattle.std.specs.Prelude.{◌≡◌, ◌++◌, ◌∷◌, [], ℕ, Ok, length, map, IfOk, OnOk, IsErrOf};
ghost use Rattle.std.specs.Option.{option_copied};
ghost use Rattle.std.specs.Option.{ForSome};
ghost use Rattle.std.specs.List.{filter_map};
ghost use Rattle.r3_desk.specs.Causes.{Rose};
ghost use Rattle.r3_model.specs.Machine.{State};
ghost use Rattle.r3_model.specs.Run.{pending_ids};
ghost use Rattle.r3_model.specs.Rows.{flow_at, row_at};
ghost use Rattle.r3_model.specs.Language.{Queue};
ghost use Rattle.r3_model.specs.Functions.{queue_of};
ghost use Rattle.r3_exec.specs.Does.{IsRead, Leaves, SyncsWithin};

use crate::ends::ExecFault;
use fn_tree::checked::Checked;
use fn_tree::program::Item;
use r3_commands::has_table;
use r3_desk::Desk;
use r3_laws::pending_tell;
use r3_past::{flow_row, user_row};
use r3_rows::FlowRow;
use r3_store::Store;
use r3_value::{Memory, Txt, Val};
use std::alloc::Global;
use std::collections::BTreeMap;
use sys_pending::Pending;
use sys_queue::Queues;

/// The plain machine over a store: its program, the queues and the running workflows as the rows say, and the
/// open snapshots by the IDs of their workflows, each of them pinned in the store.
///
/// The versions of the rows that no open snapshot reads are discarded from time to time.
#[derive(Drop)]
pub struct Exec {
    pub(crate) program: Checked,
    pub(crate) store: Store,
    pub(crate) queues: Queues,
    pub(crate) pending: Pending,
    pub(crate) begun: BTreeMap<Txt, u32>,
    // the number of entries when versions were discarded last, or when it was made
    pub(crate) vacuumed: u32,
}

// The queue that an item declares.
fn add_queue(names: &mut Vec<Txt>, item: &Item) -> Result<(), Memory>
    ensures { OnOk result (names.new.items ≡ names.old.items ++ map (λ (q : Queue). q.name) (filter_map queue_of (item.now ∷ []))) }
{
    match item {
        Item::Queue { name, .. } => {
            names.push(name.copy()?)?;
            Ok(())
        }
        _ => Ok(()),
    }
}

impl Exec {
    ghost use Rattle.r3_exec.specs.Runs.{Stands, Runs, language};

    /// The number of entries.
    pub fn len(&self) -> u32
        ensures { (st : State) → Stands self.now st → result ≡ length st.history }
    {
        self.store.len()
    }

    /// Whether a table is declared.
    pub fn has_table(&self, table: &str) -> bool
        ensures { result ≡ (language self.now).has_table table.now }
    {
        has_table(&self.program, table)
    }

    /// The row of a workflow, None where no workflow has the ID.
    pub fn flow(&self, alloc: Global, id: &str) -> Result<Option<&FlowRow>, Memory>
        requires { (st : State) × Stands self.now st }
        ensures { (st : State) → Stands self.now st →
            IfOk result (λ r. option_copied r ≡ flow_at st.history (length st.history) id.now) }
    {
        flow_row(alloc, self, id)
    }

    /// The value of a row, None where it is absent.
    pub fn row(&self, alloc: Global, table: &str, key: &str) -> Result<Option<&Val>, Memory>
        requires { (st : State) × Stands self.now st }
        ensures { (st : State) → Stands self.now st →
            IfOk result (λ v. option_copied v ≡ row_at st.history (length st.history) table.now key.now) }
    {
        user_row(alloc, self, table, key)
    }

    /// The declared queues, in their order.
    pub fn queues(&self, alloc: Global) -> Result<Vec<Txt>, Memory>
        ensures { IfOk result (λ names. names.items ≡ map (λ (q : Queue). q.name) (language self.now).queues) }
    {
        let mut names = Vec::new(alloc);
        'items: for item in &self.program.program().items {
            add_queue(&mut names, item)?;
        }
        Ok(names)
    }

    /// The IDs of the running workflows, the first started first; of one entry the lowest ID first. It takes as
    /// long as there are such.
    pub fn pending(&self, alloc: Global) -> Result<Vec<Txt>, Memory>
        ensures { (st : State) → Stands self.now st → IfOk result (λ ids. ids.items ≡ pending_ids st) }
    {
        pending_tell();
        self.pending.ids(alloc)
    }

    /// Makes all entries lasting. It takes no memory.
    pub fn settle<D: Desk>(&mut self, desk: &mut D) -> Result<(), ExecFault>
        requires { (st : State) × (k : ℕ) × Runs D.size D.image D.may_leave desk.old self.old st k }
        ensures settled { (st : State) (k : ℕ) → Runs D.size D.image D.may_leave desk.old self.old st k →
            OnOk result (Runs D.size D.image D.may_leave desk.new self.new st (length st.history)) }
        ensures program { self.new.program ≡ self.old.program }
        ensures others { (self.new.begun ≡ self.old.begun) × (self.new.vacuumed ≡ self.old.vacuumed) }

        // Where all is settled already, nothing is written or synced.
        ensures idle { (st : State) → Runs D.size D.image D.may_leave desk.old self.old st (length st.history) →
            (result ≡ Ok tt) × (self.new ≡ self.old) × (desk.new ≡ desk.old) }

        // A crash at any moment leaves what was settled, with all entries since or without.
        ensures crash { (st : State) (k : ℕ) → Runs D.size D.image D.may_leave desk.old self.old st k →
            Leaves D.moment D.reach D.said D.asked desk.old desk.new st.history k }
        ensures reads { (st : State) (k : ℕ) → Runs D.size D.image D.may_leave desk.old self.old st k →
            ForSome (D.image desk.new) (IsRead st.history k) }
        ensures disk { IsErrOf result ExecFault.Disk → Rose (D.disk_faults desk.old) (D.disk_faults desk.new) }
        ensures no_fault { (IsErrOf result ExecFault.Disk → ⊥) → D.disk_faults desk.new ≡ D.disk_faults desk.old }
        ensures only_disk { IsErrOf result ExecFault.Memory → ⊥ }
        ensures few_syncs { SyncsWithin (D.syncs desk.old) (D.syncs desk.new) 2 }
        ensures said { D.said desk.new ≡ D.said desk.old }
        ensures asked { D.asked desk.new ≡ D.asked desk.old }
        ensures say_faults { D.say_faults desk.new ≡ D.say_faults desk.old }
        ensures ask_faults { D.ask_faults desk.new ≡ D.ask_faults desk.old }
    {
        match self.store.settle(desk) {
            Ok(()) => Ok(()),
            Err(_) => Err(ExecFault::Disk),
        }
    }
}
