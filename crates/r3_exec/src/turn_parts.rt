//! The parts of a turn: its entry, its external call.

ghost use Rattle.std.specs.Prelude.{◌≡◌, ◌⊎◌, ◌+◌, ℕ, List, Some, length, take, IfOk, OnOk, OnErr, IsErrOf, Ok};
ghost use Rattle.std.specs.Option.{ForSome};
ghost use Rattle.r3_desk.specs.Causes.{Rose};
ghost use Rattle.r3_desk.specs.Moments.{LeavesImage};
ghost use Rattle.r3_value.specs.declared.value.Outcome.{Outcome as O};
ghost use Rattle.r3_entry.specs.declared.entry.Entry.{Entry as E};
ghost use Rattle.r3_entry.specs.Image.{IsHistoryOf};
ghost use Rattle.r3_entry.specs.Limits.{IsOutcome};
ghost use Rattle.r3_store.specs.Holds.{Stands as StoreStands};
ghost use Rattle.r3_model.specs.Event as reply;
ghost use Rattle.r3_model.specs.Event.{Turn};
ghost use Rattle.r3_model.specs.Machine.{State};
ghost use Rattle.r3_model.specs.Turns.{call_of_turn, turned};
ghost use Rattle.r3_exec.specs.Does.{Does, AskedFirst, IsRead, Leaves, SyncsWithin};
ghost use Rattle.r3_exec.specs.Ends.{turn_reply};
ghost use Rattle.r3_exec.specs.Entered.{HasNumber, reply_after};
ghost use Rattle.r3_exec.specs.Discards.{DiscardsWhenDue};
ghost use Rattle.r3_exec.specs.Runs.{Runs, language};
ghost use Rattle.r3_exec.specs.Turning.{Comes, HasRecorded, IsCalled};

use crate::ends::{ExecFault, TurnEnd};
use crate::enter::Entered;
use crate::exec::Exec;
use crate::turning::Turning;
use fn_tree::flow::Request;
use r3_acts::outside_entry;
use r3_desk::{AskFault, Desk};
use r3_entry::Entry;
use r3_store::{holds_beside_the_disk, reads_as_settled};
use r3_value::{Memory, Outcome, Txt};
use std::alloc::Global;

// What a turn came to whose entry came to this.
fn turn_end(entered: Entered) -> TurnEnd
    ensures reply { (h : List E) → HasNumber h entered → turn_reply result ≡ reply_after (reply.Entry (length h + 1)) entered }
    ensures not_again { result ≡ TurnEnd.Again → ⊥ }
{
    match entered {
        Entered::Number(number) => TurnEnd::Entry { number },
        Entered::Full(limit) => TurnEnd::Full { limit },
    }
}

// An outcome is within its limits.
fn is_outcome(outcome: &Outcome)
    ensures { IsOutcome outcome.now }
{
    match outcome {
        Outcome::Value(value) => {
            value.weight();
        }
        Outcome::Failure(word) => {
            word.as_str();
        }
    }
}

impl Exec {
    /// The entry of a turn that makes no call.
    pub(crate) fn enter_turn<D: Desk>(
        &mut self,
        alloc: Global,
        desk: &mut D,
        id: &Txt,
        entry: Entry,
    ) -> Result<TurnEnd, ExecFault>
        requires comes { (h : List E) → StoreStands self.old.store h →
            Comes (language self.old) h id.now (turned (language self.old) h id.now) (call_of_turn (language self.old) h id.now) (Turning.Enters entry) }
        requires runs { (st : State) × (k : ℕ) × Runs D.size D.image D.may_leave desk.old self.old st k }
        ensures does { (st : State) (k : ℕ) → Runs D.size D.image D.may_leave desk.old self.old st k →
            IfOk result (λ end. Does D.size D.image D.may_leave D.asked D.syncs desk.old desk.new self.new st k (Turn id.now) (turn_reply end)) }
        ensures program { self.new.program ≡ self.old.program }
        ensures discards { OnOk result (DiscardsWhenDue self.old self.new) }
        ensures crash { (st : State) (k : ℕ) → Runs D.size D.image D.may_leave desk.old self.old st k →
            Leaves D.moment D.reach D.said D.asked desk.old desk.new st.history k }
        ensures reads { (st : State) (k : ℕ) → Runs D.size D.image D.may_leave desk.old self.old st k →
            ForSome (D.image desk.new) (IsRead st.history k) }
        ensures disk { IsErrOf result ExecFault.Disk → Rose (D.disk_faults desk.old) (D.disk_faults desk.new) }
        ensures no_fault { (IsErrOf result ExecFault.Disk → ⊥) → D.disk_faults desk.new ≡ D.disk_faults desk.old }
        ensures ask_faults { D.ask_faults desk.new ≡ D.ask_faults desk.old }
        ensures not_again { result ≡ Ok TurnEnd.Again → ⊥ }
        ensures asked { D.asked desk.new ≡ D.asked desk.old }
        ensures syncs { D.syncs desk.new ≡ D.syncs desk.old }
        ensures said { D.said desk.new ≡ D.said desk.old }
        ensures say_faults { D.say_faults desk.new ≡ D.say_faults desk.old }
    {
        match self.enter(alloc, desk, entry) {
            Ok(entered) => Ok(turn_end(entered)),
            Err(fault) => Err(fault),
        }
    }

    // The answer of an external call is recorded.
    fn record_turn<D: Desk>(
        &mut self,
        alloc: Global,
        desk: &mut D,
        id: &Txt,
        request: &Request,
        outcome: Outcome,
    ) -> Result<TurnEnd, ExecFault>
        requires called { (st : State) × (k : ℕ) × Runs D.size D.image D.may_leave desk.old self.old st k × IsCalled (language self.old) st id.now request.now }
        ensures recorded { (st : State) (k : ℕ) → Runs D.size D.image D.may_leave desk.old self.old st k → IsCalled (language self.old) st id.now request.now →
            IfOk result (HasRecorded (language self.old) D.size D.image D.may_leave desk.new self.new st k id.now outcome) }
        ensures program { self.new.program ≡ self.old.program }
        ensures discards { OnOk result (DiscardsWhenDue self.old self.new) }
        ensures crash { (st : State) (k : ℕ) → Runs D.size D.image D.may_leave desk.old self.old st k →
            Leaves D.moment D.reach D.said D.asked desk.old desk.new st.history k }
        ensures reads { (st : State) (k : ℕ) → Runs D.size D.image D.may_leave desk.old self.old st k →
            ForSome (D.image desk.new) (IsRead st.history k) }
        ensures disk { IsErrOf result ExecFault.Disk → Rose (D.disk_faults desk.old) (D.disk_faults desk.new) }
        ensures no_fault { (IsErrOf result ExecFault.Disk → ⊥) → D.disk_faults desk.new ≡ D.disk_faults desk.old }
        ensures ask_faults { D.ask_faults desk.new ≡ D.ask_faults desk.old }
        ensures not_again { result ≡ Ok TurnEnd.Again → ⊥ }
        ensures asked { D.asked desk.new ≡ D.asked desk.old }
        ensures said { D.said desk.new ≡ D.said desk.old }
        ensures say_faults { D.say_faults desk.new ≡ D.say_faults desk.old }
        ensures syncs { D.syncs desk.new ≡ D.syncs desk.old }
    {
        reads_as_settled::<D>();
        is_outcome(&outcome);
        match outside_entry(alloc, self.store.len(), id, request, outcome) {
            Ok(entry) => match self.enter(alloc, desk, entry) {
                Ok(entered) => Ok(turn_end(entered)),
                Err(fault) => Err(fault),
            },
            Err(_) => Err(ExecFault::Memory),
        }
    }

    // The outside is asked, where all is settled.
    fn ask_turn<D: Desk>(
        &mut self,
        alloc: Global,
        desk: &mut D,
        id: &Txt,
        request: &Request,
    ) -> Result<TurnEnd, ExecFault>
        requires called { (st : State) × Runs D.size D.image D.may_leave desk.old self.old st (length st.history) × IsCalled (language self.old) st id.now request.now }
        ensures does { (st : State) (k : ℕ) → Runs D.size D.image D.may_leave desk.old self.old st (length st.history) → IsCalled (language self.old) st id.now request.now →
            IfOk result (λ end. Does D.size D.image D.may_leave D.asked D.syncs desk.old desk.new self.new st k (Turn id.now) (turn_reply end)) }
        ensures program { self.new.program ≡ self.old.program }
        ensures discards { OnOk result (DiscardsWhenDue self.old self.new) }
        ensures crash { (st : State) → Runs D.size D.image D.may_leave desk.old self.old st (length st.history) →
            Leaves D.moment D.reach D.said D.asked desk.old desk.new st.history (length st.history) }
        ensures reads { (st : State) → Runs D.size D.image D.may_leave desk.old self.old st (length st.history) →
            ForSome (D.image desk.new) (IsHistoryOf st.history) }
        ensures early { (st : State) → Runs D.size D.image D.may_leave desk.old self.old st (length st.history) → IsCalled (language self.old) st id.now request.now →
            OnErr result (AskedFirst (language self.old) st (Turn id.now) (D.asked desk.old) (D.asked desk.new)) }
        ensures disk { IsErrOf result ExecFault.Disk → Rose (D.disk_faults desk.old) (D.disk_faults desk.new) }
        ensures no_fault { (IsErrOf result ExecFault.Disk → ⊥) → D.disk_faults desk.new ≡ D.disk_faults desk.old }
        ensures again { result ≡ Ok TurnEnd.Again → Rose (D.ask_faults desk.old) (D.ask_faults desk.new) }
        ensures answered { (result ≡ Ok TurnEnd.Again → ⊥) → D.ask_faults desk.new ≡ D.ask_faults desk.old }
        ensures said { D.said desk.new ≡ D.said desk.old }
        ensures say_faults { D.say_faults desk.new ≡ D.say_faults desk.old }
        ensures syncs { D.syncs desk.new ≡ D.syncs desk.old }
    {
        reads_as_settled::<D>();
        holds_beside_the_disk::<D>();
        match desk.ask(id.as_str(), request.n, request.name.as_str(), &request.args) {
            Ok(outcome) => match self.record_turn(alloc, desk, id, request, outcome) {
                Ok(end) => Ok(end),
                Err(fault) => Err(fault),
            },
            Err(AskFault::Fault) => Ok(TurnEnd::Again),
            Err(AskFault::Memory) => Err(ExecFault::Memory),
        }
    }

    /// All is settled, the outside is asked, and its answer recorded.
    pub(crate) fn call_turn<D: Desk>(
        &mut self,
        alloc: Global,
        desk: &mut D,
        id: &Txt,
        request: &Request,
    ) -> Result<TurnEnd, ExecFault>
        requires comes { (h : List E) → StoreStands self.old.store h →
            Comes (language self.old) h id.now (turned (language self.old) h id.now) (call_of_turn (language self.old) h id.now) (Turning.Calls request.now) }
        requires runs { (st : State) × (k : ℕ) × Runs D.size D.image D.may_leave desk.old self.old st k }
        ensures does { (st : State) (k : ℕ) → Runs D.size D.image D.may_leave desk.old self.old st k →
            IfOk result (λ end. Does D.size D.image D.may_leave D.asked D.syncs desk.old desk.new self.new st k (Turn id.now) (turn_reply end)) }
        ensures program { self.new.program ≡ self.old.program }
        ensures discards { OnOk result (DiscardsWhenDue self.old self.new) }
        ensures crash { (st : State) (k : ℕ) → Runs D.size D.image D.may_leave desk.old self.old st k →
            Leaves D.moment D.reach D.said D.asked desk.old desk.new st.history k }
        ensures reads { (st : State) (k : ℕ) → Runs D.size D.image D.may_leave desk.old self.old st k →
            ForSome (D.image desk.new) (IsRead st.history k) }
        ensures early { (st : State) (k : ℕ) → Runs D.size D.image D.may_leave desk.old self.old st k →
            OnErr result (AskedFirst (language self.old) st (Turn id.now) (D.asked desk.old) (D.asked desk.new)) }
        ensures asked_kept { (st : State) (k : ℕ) → Runs D.size D.image D.may_leave desk.old self.old st k →
            OnErr result ((D.asked desk.new ≡ D.asked desk.old) ⊎ ForSome (D.image desk.new) (IsHistoryOf st.history)) }
        ensures few_syncs { SyncsWithin (D.syncs desk.old) (D.syncs desk.new) 2 }
        ensures disk { IsErrOf result ExecFault.Disk → Rose (D.disk_faults desk.old) (D.disk_faults desk.new) }
        ensures no_fault { (IsErrOf result ExecFault.Disk → ⊥) → D.disk_faults desk.new ≡ D.disk_faults desk.old }
        ensures again { result ≡ Ok TurnEnd.Again → Rose (D.ask_faults desk.old) (D.ask_faults desk.new) }
        ensures answered { (result ≡ Ok TurnEnd.Again → ⊥) → D.ask_faults desk.new ≡ D.ask_faults desk.old }
        ensures said { D.said desk.new ≡ D.said desk.old }
        ensures say_faults { D.say_faults desk.new ≡ D.say_faults desk.old }
    {
        match self.settle(desk) {
            Ok(()) => match self.ask_turn(alloc, desk, id, request) {
                Ok(end) => Ok(end),
                Err(fault) => Err(fault),
            },
            Err(fault) => Err(fault),
        }
    }
}
