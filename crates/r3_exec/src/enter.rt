//! The entry of an event.

ghost use Rattle.std.specs.Prelude.{◌≡◌, ◌≢◌, ◌<◌, [], ℕ, List, Option, length, take, IfOk, OnOk, IsErrOf};
ghost use Rattle.std.specs.Option.{ForSome};
ghost use Rattle.r3_desk.specs.Causes.{Rose};
ghost use Rattle.r3_desk.specs.Moments.{LeavesImage};
ghost use Rattle.r3_value.specs.declared.value.Outcome.{Outcome};
ghost use Rattle.r3_entry.specs.declared.entry.Entry.{Entry as E};
ghost use Rattle.r3_entry.specs.Image.{IsHistoryOf};
ghost use Rattle.r3_model.specs.Event.{Event, Reply};
ghost use Rattle.r3_model.specs.Machine.{State, Begun};
ghost use Rattle.r3_store.specs.Holds.{Stands as StoreStands};
ghost use Rattle.r3_exec.specs.Discards.{DiscardsWhenDue};
ghost use Rattle.r3_exec.specs.Runs.{Keeps, Runs, language};
ghost use Rattle.r3_exec.specs.Entered.{Gives, HasCome, closing, after_closing};

use crate::commit::{Placed, let_go};
use crate::ends::ExecFault;
use crate::exec::Exec;
use r3_desk::Desk;
use r3_entry::{Act, Entry};
use r3_gate::Limit;
use r3_laws::{
    enters_light, enters_what_follows, keeps_valid, programs_are_lawful, programs_are_limited,
};
use r3_store::{holds_in_memory, may_follow, reads_as_settled};
use r3_value::{Memory, Txt};
use std::alloc::Global;

const MOST_ENTRIES: u32 = 1_000_000;

/// What the entry of an event came to.
#[derive(Debug, Drop)]
pub enum Entered {
    /// It stands as the entry of this number.
    Number(u32),
    /// There is no room.
    Full(Limit),
}

// The workflow whose snapshot an act closes.
fn closing(act: &Act) -> Result<Option<Txt>, Memory>
    ensures { IfOk result (λ id. id ≡ closing act.now) }
{
    match act {
        Act::Txn { id, .. } => Ok(Some(id.copy()?)),
        Act::Cancel { id } => Ok(Some(id.copy()?)),
        Act::Recover { id } => Ok(Some(id.copy()?)),
        _ => Ok(None),
    }
}

impl Exec {
    // Closes the snapshot of a workflow, if one is to be closed.
    fn close_of(&mut self, id: &Option<Txt>)
        requires { (h : List E) × (begun : Begun) × Keeps self.old h begun }
        ensures program { self.new.program ≡ self.old.program }
        ensures gate { self.new.store.gate ≡ self.old.store.gate }
        ensures discards { DiscardsWhenDue self.old self.new }
        ensures closed { (h : List E) (begun : Begun) → Keeps self.old h begun → Keeps self.new h (after_closing id.now begun) }
    {
        match id {
            None => {}
            Some(id) => self.close(id),
        }
    }

    // Where there are fewer entries than may be.
    fn enter_within<D: Desk>(
        &mut self,
        alloc: Global,
        desk: &mut D,
        entry: Entry,
        id: &Option<Txt>,
    ) -> Result<Entered, ExecFault>
        requires closing { id.now ≡ closing entry.act }
        requires room { (h : List E) × StoreStands self.old.store h × (length h < 1000000) }
        requires gives { (st : State) × (k : ℕ) × (ev : Event) × (answer : Option Outcome) × (r : Reply)
            × Runs D.size D.image D.may_leave desk.old self.old st k × Gives (language self.old) st ev answer entry r }
        ensures program { self.new.program ≡ self.old.program }
        ensures discards { OnOk result (DiscardsWhenDue self.old self.new) }
        ensures come { (st : State) (k : ℕ) (ev : Event) (answer : Option Outcome) (r : Reply) →
            Runs D.size D.image D.may_leave desk.old self.old st k → Gives (language self.old) st ev answer entry r →
            IfOk result (HasCome (language self.old) D.size D.image D.may_leave desk.new self.new st k ev answer entry r) }
        ensures crash { (st : State) (k : ℕ) → Runs D.size D.image D.may_leave desk.old self.old st k →
            LeavesImage D.moment D.reach D.may_leave D.said D.asked desk.old desk.new (IsHistoryOf (take k st.history)) }
        ensures reads { (st : State) (k : ℕ) → Runs D.size D.image D.may_leave desk.old self.old st k →
            ForSome (D.image desk.new) (IsHistoryOf (take k st.history)) }
        ensures disk { IsErrOf result ExecFault.Disk → Rose (D.disk_faults desk.old) (D.disk_faults desk.new) }
        ensures no_fault { (IsErrOf result ExecFault.Disk → ⊥) → D.disk_faults desk.new ≡ D.disk_faults desk.old }
        ensures syncs { D.syncs desk.new ≡ D.syncs desk.old }
        ensures said { D.said desk.new ≡ D.said desk.old }
        ensures asked { D.asked desk.new ≡ D.asked desk.old }
        ensures say_faults { D.say_faults desk.new ≡ D.say_faults desk.old }
        ensures ask_faults { D.ask_faults desk.new ≡ D.ask_faults desk.old }
    {
        programs_are_lawful();
        programs_are_limited();
        enters_what_follows();
        enters_light();
        keeps_valid();
        may_follow();
        holds_in_memory::<D>();
        self.program.holds_values();
        self.program.program();
        match self.place(alloc, desk, entry) {
            Ok(Placed::Number(number)) => {
                self.close_of(id);
                Ok(Entered::Number(number))
            }
            Ok(Placed::Full(limit)) => Ok(Entered::Full(limit)),
            Ok(Placed::Conflict(_)) => unreachable!(),
            Err(fault) => Err(fault),
        }
    }

    /// The entry of an event, on all that stands before it: it is appended where there is room, and the snapshot that
    /// it closes is closed.
    pub(crate) fn enter<D: Desk>(
        &mut self,
        alloc: Global,
        desk: &mut D,
        entry: Entry,
    ) -> Result<Entered, ExecFault>
        requires gives { (st : State) × (k : ℕ) × (ev : Event) × (answer : Option Outcome) × (r : Reply)
            × Runs D.size D.image D.may_leave desk.old self.old st k × Gives (language self.old) st ev answer entry r }
        ensures program { self.new.program ≡ self.old.program }
        ensures discards { OnOk result (DiscardsWhenDue self.old self.new) }
        ensures come { (st : State) (k : ℕ) (ev : Event) (answer : Option Outcome) (r : Reply) →
            Runs D.size D.image D.may_leave desk.old self.old st k → Gives (language self.old) st ev answer entry r →
            IfOk result (HasCome (language self.old) D.size D.image D.may_leave desk.new self.new st k ev answer entry r) }
        ensures crash { (st : State) (k : ℕ) → Runs D.size D.image D.may_leave desk.old self.old st k →
            LeavesImage D.moment D.reach D.may_leave D.said D.asked desk.old desk.new (IsHistoryOf (take k st.history)) }
        ensures reads { (st : State) (k : ℕ) → Runs D.size D.image D.may_leave desk.old self.old st k →
            ForSome (D.image desk.new) (IsHistoryOf (take k st.history)) }
        ensures disk { IsErrOf result ExecFault.Disk → Rose (D.disk_faults desk.old) (D.disk_faults desk.new) }
        ensures no_fault { (IsErrOf result ExecFault.Disk → ⊥) → D.disk_faults desk.new ≡ D.disk_faults desk.old }
        ensures syncs { D.syncs desk.new ≡ D.syncs desk.old }
        ensures said { D.said desk.new ≡ D.said desk.old }
        ensures asked { D.asked desk.new ≡ D.asked desk.old }
        ensures say_faults { D.say_faults desk.new ≡ D.say_faults desk.old }
        ensures ask_faults { D.ask_faults desk.new ≡ D.ask_faults desk.old }
    {
        reads_as_settled::<D>();
        if self.store.len() >= MOST_ENTRIES {
            let_go(entry);
            return Ok(Entered::Full(Limit::Entries));
        }
        match closing(&entry.act) {
            Ok(id) => self.enter_within(alloc, desk, entry, &id),
            Err(_) => {
                let_go(entry);
                Err(ExecFault::Memory)
            }
        }
    }
}
