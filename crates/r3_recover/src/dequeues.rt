//! The dequeues of a round.

ghost use Rattle.std.specs.Prelude.{◌≡◌, ◌∷◌, ◌≤◌, ◌<◌, ℕ, List, [], true, false, MatchResult, IsErrOf, OnOk};
ghost use Rattle.r3_desk.specs.Causes.{Rose};
ghost use Rattle.r3_model.specs.Drain.{changes};
ghost use Rattle.r3_model.specs.Event.{Spent};
ghost use Rattle.r3_model.specs.Language.{Text};
ghost use Rattle.r3_model.specs.Machine.{State};
ghost use Rattle.r3_exec.specs.Runs.{language};
ghost use Rattle.r3_exec.specs.Ends.{dequeue_reply};
ghost use Rattle.r3_recover.specs.Drained.{DoesDrain, EndsEarly};
ghost use Rattle.r3_recover.specs.Rounds.{Queues, Point};

use crate::round::Round;
use r3_desk::Desk;
use r3_exec::{DequeueEnd, Exec, ExecFault};
use r3_model::only_appends;
use r3_store::reads_as_settled;
use r3_value::Txt;
use std::alloc::Global;

// Whether a workflow was started.
fn has_started(end: &DequeueEnd) -> bool
    ensures { result ≡ changes (dequeue_reply end.now) }
{
    match end {
        DequeueEnd::Started { .. } => true,
        _ => false,
    }
}

// The next dequeue.
fn dequeue_next<D: Desk>(
    alloc: Global,
    exec: &mut Exec,
    desk: &mut D,
    queue: &Txt,
    round: &mut Round,
) -> Result<(), ExecFault>
    requires left { 0 < round.old.left }
    requires point { (from : D) × (st : State) × (k : ℕ) × (turns : ℕ) × (names : List Text)
        × Point D.size D.image D.may_leave D.moment D.reach D.said D.asked D.syncs
        from desk.old exec.old st k turns (Queues (queue.now ∷ names)) round.old.left round.old.changed }
    ensures goes { (from : D) (st : State) (k turns : ℕ) (names : List Text) →
        Point D.size D.image D.may_leave D.moment D.reach D.said D.asked D.syncs
        from desk.old exec.old st k turns (Queues (queue.now ∷ names)) round.old.left round.old.changed →
        MatchResult result
        (λ done. Point D.size D.image D.may_leave D.moment D.reach D.said D.asked D.syncs
        from desk.new exec.new st k turns (Queues names) round.new.left round.new.changed)
        (λ fault. EndsEarly D.image D.moment D.reach D.said D.asked D.syncs (language exec.old) from desk.new st k turns) }
    ensures fewer { round.new.left ≤ round.old.left }
    ensures counted { OnOk result (round.new.left < round.old.left) }
    ensures program { exec.new.program ≡ exec.old.program }
    ensures syncs { D.syncs desk.new ≡ D.syncs desk.old }
    ensures disk { IsErrOf result ExecFault.Disk → Rose (D.disk_faults desk.old) (D.disk_faults desk.new) }
    ensures no_fault { (IsErrOf result ExecFault.Disk → ⊥) → D.disk_faults desk.new ≡ D.disk_faults desk.old }
    ensures asked { D.asked desk.new ≡ D.asked desk.old }
    ensures ask_faults { D.ask_faults desk.new ≡ D.ask_faults desk.old }
    ensures said { D.said desk.new ≡ D.said desk.old }
    ensures say_faults { D.say_faults desk.new ≡ D.say_faults desk.old }
{
    only_appends();
    match exec.dequeue(alloc, desk, queue.as_str()) {
        Ok(end) => {
            round.take(has_started(&end));
            Ok(())
        }
        Err(fault) => Err(fault),
    }
}

/// One dequeue of each queue, as long as there is any left. It tells whether there were as many.
pub fn dequeue_each<D: Desk>(
    alloc: Global,
    exec: &mut Exec,
    desk: &mut D,
    queues: &[Txt],
    round: &mut Round,
) -> Result<bool, ExecFault>
    requires { (from : D) × (st : State) × (k : ℕ) × (turns : ℕ)
        × Point D.size D.image D.may_leave D.moment D.reach D.said D.asked D.syncs
        from desk.old exec.old st k turns (Queues queues.now) round.old.left round.old.changed }
    ensures goes { (from : D) (st : State) (k turns : ℕ) →
        Point D.size D.image D.may_leave D.moment D.reach D.said D.asked D.syncs
        from desk.old exec.old st k turns (Queues queues.now) round.old.left round.old.changed →
        MatchResult result
        (λ all.
        (all ≡ true → Point D.size D.image D.may_leave D.moment D.reach D.said D.asked D.syncs
        from desk.new exec.new st k turns (Queues []) round.new.left round.new.changed)
        × (all ≡ false → DoesDrain D.size D.image D.may_leave D.moment D.reach D.said D.asked D.syncs
        from desk.new exec.new st k turns (Spent turns)))
        (λ fault. EndsEarly D.image D.moment D.reach D.said D.asked D.syncs (language exec.old) from desk.new st k turns) }
    ensures fewer { round.new.left ≤ round.old.left }
    ensures counted { OnOk result (round.new.changed ≡ true → round.old.changed ≡ false → round.new.left < round.old.left) }
    ensures program { exec.new.program ≡ exec.old.program }
    ensures syncs { D.syncs desk.new ≡ D.syncs desk.old }
    ensures disk { IsErrOf result ExecFault.Disk → Rose (D.disk_faults desk.old) (D.disk_faults desk.new) }
    ensures no_fault { (IsErrOf result ExecFault.Disk → ⊥) → D.disk_faults desk.new ≡ D.disk_faults desk.old }
    ensures asked { D.asked desk.new ≡ D.asked desk.old }
    ensures ask_faults { D.ask_faults desk.new ≡ D.ask_faults desk.old }
    ensures said { D.said desk.new ≡ D.said desk.old }
    ensures say_faults { D.say_faults desk.new ≡ D.say_faults desk.old }
{
    reads_as_settled::<D>();
    'queues: for queue in queues {
        if round.left == 0 {
            return Ok(false);
        }
        match dequeue_next(alloc, exec, desk, queue, round) {
            Ok(()) => {}
            Err(fault) => return Err(fault),
        }
    }
    Ok(true)
}
