//! A turn that asks for a transaction: the first opens its snapshot, and the next commits what its body wrote.

ghost use Rattle.std.specs.Prelude.{◌≡◌, ℕ, List, length, IfOk, OnOk, IsErrOf, Ok};
ghost use Rattle.std.specs.Option.{ForSome};
ghost use Rattle.r3_desk.specs.Causes.{Rose};
ghost use Rattle.fn_tree.specs.declared.flow.Request.{Request as Asked};
ghost use Rattle.r3_entry.specs.declared.entry.Entry.{Entry as E};
ghost use Rattle.r3_store.specs.Holds.{Stands as StoreStands};
ghost use Rattle.r3_model.specs.Acts.{txn_entry};
ghost use Rattle.r3_model.specs.Event.{Turn};
ghost use Rattle.r3_model.specs.Machine.{Begun, State, closed};
ghost use Rattle.r3_model.specs.Turns.{call_of_turn, run_on, turned};
ghost use Rattle.r3_exec.specs.Discards.{DiscardsWhenDue};
ghost use Rattle.r3_exec.specs.Does.{Does, IsRead, Leaves};
ghost use Rattle.r3_exec.specs.Ends.{turn_reply};
ghost use Rattle.r3_exec.specs.Runs.{Keeps, Runs, Stands, language};
ghost use Rattle.r3_exec.specs.Turning.{Comes, IsFirst, IsTxn, IsTxnEntry, begun_after, begun_at, end_of};

use crate::commit::Placed;
use crate::ends::{ExecFault, TurnEnd};
use crate::exec::Exec;
use crate::turning::Turning;
use fn_tree::flow::Request;
use r3_acts::txn_entry;
use r3_desk::Desk;
use r3_entry::Entry;
use r3_formed::first_conflict_is;
use r3_laws::{keeps_valid, programs_are_lawful, programs_are_limited};
use r3_steps::Steps;
use r3_store::{holds_in_memory, reads_as_settled};
use r3_turns::txn_run;
use r3_value::{Memory, Txt};
use std::alloc::Global;
use std::sync::ledger::Ledger;

impl Exec {
    // The entry of a transaction, whose body is run on its open snapshot.
    fn txn_draft<L: Ledger>(
        &self,
        alloc: Global,
        id: &Txt,
        request: &Request,
        snap: u32,
        steps: &mut Steps<L>,
    ) -> Result<Entry, Memory>
        requires txn { (st : State) × Stands self.now st × IsTxn (language self.now) st id.now request.now snap }
        ensures { IfOk result (λ e. (h : List E) → StoreStands self.now.store h →
            e ≡ txn_entry h id.now request.now snap (run_on (language self.now) h id.now snap request.now)) }
    {
        let run = txn_run(alloc, self, &self.program, request, snap, steps)?;
        let entry = txn_entry(alloc, id, request, snap, run)?;
        Ok(entry)
    }

    // A transaction has ended: its snapshot is closed.
    fn closing(&mut self, id: &Txt, end: TurnEnd) -> TurnEnd
        requires { (h : List E) × (begun : Begun) × Keeps self.old h begun }
        ensures end { result ≡ end }
        ensures closed { (h : List E) (begun : Begun) → Keeps self.old h begun → Keeps self.new h (closed id.now begun) }
        ensures gate { self.new.store.gate ≡ self.old.store.gate }
        ensures program { self.new.program ≡ self.old.program }
        ensures discards { DiscardsWhenDue self.old self.new }
    {
        self.close(id);
        end
    }

    // What a transaction comes to whose entry came to this. Where there was no room, its snapshot stays open.
    fn ended(&mut self, id: &Txt, placed: Placed) -> TurnEnd
        requires { (h : List E) × (begun : Begun) × Keeps self.old h begun }
        ensures end { result ≡ end_of placed }
        ensures begun { (h : List E) (begun : Begun) → Keeps self.old h begun → Keeps self.new h (begun_after id.now placed begun) }
        ensures gate { self.new.store.gate ≡ self.old.store.gate }
        ensures program { self.new.program ≡ self.old.program }
        ensures discards { DiscardsWhenDue self.old self.new }
    {
        match placed {
            Placed::Number(number) => self.closing(id, TurnEnd::Entry { number }),
            Placed::Conflict(entry) => self.closing(id, TurnEnd::Conflict { entry }),
            Placed::Full(limit) => TurnEnd::Full { limit },
        }
    }

    // The entry of a transaction is appended, unless a later one has written one of its keys.
    fn commit_entry<D: Desk>(
        &mut self,
        alloc: Global,
        desk: &mut D,
        id: &Txt,
        entry: Entry,
    ) -> Result<TurnEnd, ExecFault>
        requires commits { (st : State) × (k : ℕ) × Runs D.size D.image D.may_leave desk.old self.old st k × IsTxnEntry (language self.old) st id.now entry }
        ensures does { (st : State) (k : ℕ) → Runs D.size D.image D.may_leave desk.old self.old st k → IsTxnEntry (language self.old) st id.now entry →
            IfOk result (λ end. Does D.size D.image D.may_leave D.asked D.syncs desk.old desk.new self.new st k (Turn id.now) (turn_reply end)) }
        ensures program { self.new.program ≡ self.old.program }
        ensures discards { OnOk result (DiscardsWhenDue self.old self.new) }
        ensures crash { (st : State) (k : ℕ) → Runs D.size D.image D.may_leave desk.old self.old st k →
            Leaves D.moment D.reach D.said D.asked desk.old desk.new st.history k }
        ensures reads { (st : State) (k : ℕ) → Runs D.size D.image D.may_leave desk.old self.old st k →
            ForSome (D.image desk.new) (IsRead st.history k) }
        ensures disk { IsErrOf result ExecFault.Disk → Rose (D.disk_faults desk.old) (D.disk_faults desk.new) }
        ensures no_fault { (IsErrOf result ExecFault.Disk → ⊥) → D.disk_faults desk.new ≡ D.disk_faults desk.old }
        ensures ask_faults { D.ask_faults desk.new ≡ D.ask_faults desk.old }
        ensures not_again { result ≡ Ok TurnEnd.Again → ⊥ }
        ensures asked { D.asked desk.new ≡ D.asked desk.old }
        ensures syncs { D.syncs desk.new ≡ D.syncs desk.old }
        ensures said { D.said desk.new ≡ D.said desk.old }
        ensures say_faults { D.say_faults desk.new ≡ D.say_faults desk.old }
    {
        programs_are_lawful();
        programs_are_limited();
        keeps_valid();
        first_conflict_is();
        holds_in_memory::<D>();
        self.program.holds_values();
        self.program.program();
        match self.place(alloc, desk, entry) {
            Ok(placed) => Ok(self.ended(id, placed)),
            Err(fault) => Err(fault),
        }
    }

    // The snapshot of a transaction is opened.
    fn begin(&mut self, alloc: Global, id: &Txt) -> Result<u32, Memory>
        requires begins { (st : State) × (q : Asked) × Stands self.old st × IsFirst (language self.old) st id.now q }
        ensures begun { (st : State) (q : Asked) → Stands self.old st → IsFirst (language self.old) st id.now q →
            IfOk result (λ snap. (snap ≡ length st.history) × Stands self.new (begun_at id.now st)) }
        ensures gate { self.new.store.gate ≡ self.old.store.gate }
        ensures program { self.new.program ≡ self.old.program }
        ensures discards { OnOk result (DiscardsWhenDue self.old self.new) }
    {
        programs_are_lawful();
        programs_are_limited();
        keeps_valid();
        self.program.holds_values();
        self.program.program();
        match self.open(alloc, id) {
            Ok(snap) => Ok(snap),
            Err(fault) => Err(fault),
        }
    }

    /// A transaction that is asked for goes one turn on: its snapshot is opened, or its entry committed there.
    pub(crate) fn commit_turn<D: Desk, L: Ledger>(
        &mut self,
        alloc: Global,
        desk: &mut D,
        id: &Txt,
        request: &Request,
        steps: &mut Steps<L>,
    ) -> Result<TurnEnd, ExecFault>
        requires comes { (h : List E) → StoreStands self.old.store h →
            Comes (language self.old) h id.now (turned (language self.old) h id.now) (call_of_turn (language self.old) h id.now) (Turning.Commits request.now) }
        requires runs { (st : State) × (k : ℕ) × Runs D.size D.image D.may_leave desk.old self.old st k }
        ensures does { (st : State) (k : ℕ) → Runs D.size D.image D.may_leave desk.old self.old st k →
            IfOk result (λ end. Does D.size D.image D.may_leave D.asked D.syncs desk.old desk.new self.new st k (Turn id.now) (turn_reply end)) }
        ensures program { self.new.program ≡ self.old.program }
        ensures discards { OnOk result (DiscardsWhenDue self.old self.new) }
        ensures crash { (st : State) (k : ℕ) → Runs D.size D.image D.may_leave desk.old self.old st k →
            Leaves D.moment D.reach D.said D.asked desk.old desk.new st.history k }
        ensures reads { (st : State) (k : ℕ) → Runs D.size D.image D.may_leave desk.old self.old st k →
            ForSome (D.image desk.new) (IsRead st.history k) }
        ensures disk { IsErrOf result ExecFault.Disk → Rose (D.disk_faults desk.old) (D.disk_faults desk.new) }
        ensures no_fault { (IsErrOf result ExecFault.Disk → ⊥) → D.disk_faults desk.new ≡ D.disk_faults desk.old }
        ensures ask_faults { D.ask_faults desk.new ≡ D.ask_faults desk.old }
        ensures not_again { result ≡ Ok TurnEnd.Again → ⊥ }
        ensures asked { D.asked desk.new ≡ D.asked desk.old }
        ensures syncs { D.syncs desk.new ≡ D.syncs desk.old }
        ensures said { D.said desk.new ≡ D.said desk.old }
        ensures say_faults { D.say_faults desk.new ≡ D.say_faults desk.old }
    {
        reads_as_settled::<D>();
        holds_in_memory::<D>();
        match self.snapshot(id) {
            Some(snap) => match self.txn_draft(alloc, id, request, snap, steps) {
                Ok(entry) => self.commit_entry(alloc, desk, id, entry),
                Err(_) => Err(ExecFault::Memory),
            },
            None => match self.begin(alloc, id) {
                Ok(snap) => Ok(TurnEnd::Began { snap }),
                Err(_) => Err(ExecFault::Memory),
            },
        }
    }
}
