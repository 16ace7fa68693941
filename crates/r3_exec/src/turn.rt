//! One turn of a workflow.

ghost use Rattle.std.specs.Prelude.{◌≡◌, ◌⊎◌, ℕ, List, length, IfOk, OnOk, OnErr, IsErrOf, IsSome, Ok};
ghost use Rattle.std.specs.Option.{ForSome};
ghost use Rattle.r3_desk.specs.Causes.{Rose};
ghost use Rattle.r3_entry.specs.Image.{IsHistoryOf};
ghost use Rattle.r3_model.specs.Machine.{State};
ghost use Rattle.r3_model.specs.Rows.{flow_at};
ghost use Rattle.r3_model.specs.Event.{Turn};
ghost use Rattle.r3_exec.specs.Discards.{DiscardsWhenDue};
ghost use Rattle.r3_exec.specs.Runs.{Runs, language};
ghost use Rattle.r3_exec.specs.Does.{Does, AskedFirst, IsRead, Leaves, SyncsWithin};
ghost use Rattle.r3_exec.specs.Ends.{turn_reply};

use crate::ends::{ExecFault, TurnEnd};
use crate::exec::Exec;
use crate::turning::Turning;
use r3_desk::Desk;
use r3_steps::Steps;
use r3_store::reads_as_settled;
use r3_value::Txt;
use std::alloc::Global;
use std::sync::ledger::Ledger;

impl Exec {
    // One turn, by what it comes to.
    fn turn_of<D: Desk, L: Ledger>(
        &mut self,
        alloc: Global,
        desk: &mut D,
        id: &Txt,
        steps: &mut Steps<L>,
    ) -> Result<TurnEnd, ExecFault>
        requires known { (st : State) × (k : ℕ) × Runs D.size D.image D.may_leave desk.old self.old st k
            × IsSome (flow_at st.history (length st.history) id.now) }
        ensures does { (st : State) (k : ℕ) → Runs D.size D.image D.may_leave desk.old self.old st k →
            IfOk result (λ end. Does D.size D.image D.may_leave D.asked D.syncs desk.old desk.new self.new st k (Turn id.now) (turn_reply end)) }
        ensures program { self.new.program ≡ self.old.program }
        ensures discards { OnOk result (DiscardsWhenDue self.old self.new) }
        ensures crash { (st : State) (k : ℕ) → Runs D.size D.image D.may_leave desk.old self.old st k →
            Leaves D.moment D.reach D.said D.asked desk.old desk.new st.history k }
        ensures reads { (st : State) (k : ℕ) → Runs D.size D.image D.may_leave desk.old self.old st k →
            ForSome (D.image desk.new) (IsRead st.history k) }
        ensures early { (st : State) (k : ℕ) → Runs D.size D.image D.may_leave desk.old self.old st k →
            OnErr result (AskedFirst (language self.old) st (Turn id.now) (D.asked desk.old) (D.asked desk.new)) }
        ensures asked_kept { (st : State) (k : ℕ) → Runs D.size D.image D.may_leave desk.old self.old st k →
            OnErr result ((D.asked desk.new ≡ D.asked desk.old) ⊎ ForSome (D.image desk.new) (IsHistoryOf st.history)) }
        ensures few_syncs { SyncsWithin (D.syncs desk.old) (D.syncs desk.new) 2 }
        ensures disk { IsErrOf result ExecFault.Disk → Rose (D.disk_faults desk.old) (D.disk_faults desk.new) }
        ensures no_fault { (IsErrOf result ExecFault.Disk → ⊥) → D.disk_faults desk.new ≡ D.disk_faults desk.old }
        ensures again { result ≡ Ok TurnEnd.Again → Rose (D.ask_faults desk.old) (D.ask_faults desk.new) }
        ensures answered { (result ≡ Ok TurnEnd.Again → ⊥) → D.ask_faults desk.new ≡ D.ask_faults desk.old }
        ensures said { D.said desk.new ≡ D.said desk.old }
        ensures say_faults { D.say_faults desk.new ≡ D.say_faults desk.old }
    {
        reads_as_settled::<D>();
        match self.turning(alloc, id, steps) {
            Ok(Turning::NotPending(status)) => Ok(TurnEnd::None { status }),
            Ok(Turning::Unexpected { n, recorded, asked }) => Ok(TurnEnd::Unexpected {
                n,
                recorded,
                asked,
            }),
            Ok(Turning::Waiting { id }) => Ok(TurnEnd::Waiting { id }),
            Ok(Turning::Enters(entry)) => self.enter_turn(alloc, desk, id, entry),
            Ok(Turning::Commits(request)) => self.commit_turn(alloc, desk, id, &request, steps),
            Ok(Turning::Calls(request)) => self.call_turn(alloc, desk, id, &request),
            Err(_) => Err(ExecFault::Memory),
        }
    }

    /// One turn of a workflow that is there: its function is run on its recorded steps, and goes one step on.
    ///
    /// Where the outside is to be asked, all entries are settled first. After `None`, `Waiting`, `Again`,
    /// `Unexpected` and `Full` the history is as before.
    pub fn turn<D: Desk, L: Ledger>(
        &mut self,
        alloc: Global,
        desk: &mut D,
        id: &str,
        steps: &mut Steps<L>,
    ) -> Result<TurnEnd, ExecFault>
        requires known { (st : State) × (k : ℕ) × Runs D.size D.image D.may_leave desk.old self.old st k
            × IsSome (flow_at st.history (length st.history) id.now) }
        ensures does { (st : State) (k : ℕ) → Runs D.size D.image D.may_leave desk.old self.old st k →
            IfOk result (λ end. Does D.size D.image D.may_leave D.asked D.syncs desk.old desk.new self.new st k (Turn id.now) (turn_reply end)) }
        ensures program { self.new.program ≡ self.old.program }

        // Versions are discarded where it closes a snapshot, if 1,024 entries were added since the last time.
        ensures discards { OnOk result (DiscardsWhenDue self.old self.new) }

        // Whatever it comes to, a crash at any moment leaves what was settled before, or all that stood before the event,
        // and that for sure once its call is asked. So reads the disk.
        ensures crash { (st : State) (k : ℕ) → Runs D.size D.image D.may_leave desk.old self.old st k →
            Leaves D.moment D.reach D.said D.asked desk.old desk.new st.history k }
        ensures reads { (st : State) (k : ℕ) → Runs D.size D.image D.may_leave desk.old self.old st k →
            ForSome (D.image desk.new) (IsRead st.history k) }
        ensures early { (st : State) (k : ℕ) → Runs D.size D.image D.may_leave desk.old self.old st k →
            OnErr result (AskedFirst (language self.old) st (Turn id.now) (D.asked desk.old) (D.asked desk.new)) }

        // Where it fails, nothing was asked, or all that stood before it is on the disk.
        ensures asked_kept { (st : State) (k : ℕ) → Runs D.size D.image D.may_leave desk.old self.old st k →
            OnErr result ((D.asked desk.new ≡ D.asked desk.old) ⊎ ForSome (D.image desk.new) (IsHistoryOf st.history)) }

        // Nothing is settled but before a call.
        ensures few_syncs { SyncsWithin (D.syncs desk.old) (D.syncs desk.new) 2 }
        ensures disk { IsErrOf result ExecFault.Disk → Rose (D.disk_faults desk.old) (D.disk_faults desk.new) }
        ensures no_fault { (IsErrOf result ExecFault.Disk → ⊥) → D.disk_faults desk.new ≡ D.disk_faults desk.old }
        ensures again { result ≡ Ok TurnEnd.Again → Rose (D.ask_faults desk.old) (D.ask_faults desk.new) }
        ensures answered { (result ≡ Ok TurnEnd.Again → ⊥) → D.ask_faults desk.new ≡ D.ask_faults desk.old }
        ensures said { D.said desk.new ≡ D.said desk.old }
        ensures say_faults { D.say_faults desk.new ≡ D.say_faults desk.old }
    {
        reads_as_settled::<D>();
        match Txt::new(alloc, id) {
            Ok(id) => self.turn_of(alloc, desk, &id, steps),
            Err(_) => Err(ExecFault::Memory),
        }
    }
}
