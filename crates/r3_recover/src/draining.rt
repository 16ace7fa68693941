//! Drains.

ghost use Rattle.std.specs.Prelude.{◌≡◌, ◌-◌, ◌*◌, ◌≤◌, ◌<◌, ℕ, [], map, None, Ok, false, true, IfOk, OnOk, OnErr, IsErrOf, MatchOption, MatchResult};
ghost use Rattle.r3_desk.specs.Causes.{Rose};
ghost use Rattle.r3_model.specs.Language.{Queue};
ghost use Rattle.r3_model.specs.Machine.{State};
ghost use Rattle.r3_exec.specs.Does.{SyncsWithin};
ghost use Rattle.r3_exec.specs.Runs.{Runs, language};
ghost use Rattle.r3_recover.specs.Drained.{CountsFaults, DoesDrain, EndsEarly, Raised};
ghost use Rattle.r3_recover.specs.Ends.{drain_reply};
ghost use Rattle.r3_recover.specs.Rounds.{Point, Queues};

use crate::dequeues::dequeue_each;
use crate::ends::DrainEnd;
use crate::round::Round;
use crate::turns::turn_each;
use r3_desk::Desk;
use r3_exec::{Exec, ExecFault};
use r3_laws::{pending_tell, rows_follow};
use r3_steps::Steps;
use r3_store::reads_as_settled;
use r3_value::Txt;
use std::alloc::Global;
use std::sync::ledger::Ledger;

// The turns of a round, after its dequeues. It gives the end of the drain, where that comes with the round.
fn give_turns<D: Desk, L: Ledger>(
    alloc: Global,
    exec: &mut Exec,
    desk: &mut D,
    turns: u32,
    round: &mut Round,
    steps: &mut Steps<L>,
) -> Result<Option<DrainEnd>, ExecFault>
    requires { (from : D) × (st : State) × (k : ℕ)
        × Point D.size D.image D.may_leave D.moment D.reach D.said D.asked D.syncs
        from desk.old exec.old st k turns (Queues []) round.old.left round.old.changed }
    ensures goes { (from : D) (st : State) (k : ℕ) →
        Point D.size D.image D.may_leave D.moment D.reach D.said D.asked D.syncs
        from desk.old exec.old st k turns (Queues []) round.old.left round.old.changed →
        MatchResult result
        (λ end. MatchOption end
        (Point D.size D.image D.may_leave D.moment D.reach D.said D.asked D.syncs
        from desk.new exec.new st k turns (Queues (map (λ (q : Queue). q.name) (language exec.old).queues)) round.new.left false)
        (λ e. DoesDrain D.size D.image D.may_leave D.moment D.reach D.said D.asked D.syncs
        from desk.new exec.new st k turns (drain_reply e)))
        (λ fault. EndsEarly D.image D.moment D.reach D.said D.asked D.syncs (language exec.old) from desk.new st k turns) }
    ensures fewer { round.new.left ≤ round.old.left }
    ensures counted { result ≡ Ok None → round.old.changed ≡ false → round.new.left < round.old.left }
    ensures program { exec.new.program ≡ exec.old.program }
    ensures few_syncs { SyncsWithin (D.syncs desk.old) (D.syncs desk.new) (2 * round.old.left) }
    ensures counted_syncs { OnOk result (SyncsWithin (D.syncs desk.old) (D.syncs desk.new) (2 * (round.old.left - round.new.left))) }
    ensures disk { IsErrOf result ExecFault.Disk → Rose (D.disk_faults desk.old) (D.disk_faults desk.new) }
    ensures no_fault { (IsErrOf result ExecFault.Disk → ⊥) → D.disk_faults desk.new ≡ D.disk_faults desk.old }
    ensures ask_faults { (n : ℕ) × Raised n (D.ask_faults desk.old) (D.ask_faults desk.new) }
    ensures unanswered { OnOk result (CountsFaults D.asked D.ask_faults desk.old desk.new) }
    ensures said { D.said desk.new ≡ D.said desk.old }
    ensures say_faults { D.say_faults desk.new ≡ D.say_faults desk.old }
{
    reads_as_settled::<D>();
    pending_tell();
    rows_follow();
    let ids = match exec.pending(alloc) {
        Ok(ids) => ids,
        Err(_) => return Err(ExecFault::Memory),
    };
    match turn_each(alloc, exec, desk, &ids, round, steps) {
        Ok(true) => {}
        Ok(false) => return Ok(Some(DrainEnd::Spent { turns })),
        Err(fault) => return Err(fault),
    }
    if !round.changed {
        return Ok(Some(DrainEnd::Idle {
            turns: turns - round.left,
        }));
    }
    if round.left == 0 {
        return Ok(Some(DrainEnd::Spent { turns }));
    }
    Ok(None)
}

// One round. It gives the end of the drain, where that comes with it.
fn go_round<D: Desk, L: Ledger>(
    alloc: Global,
    exec: &mut Exec,
    desk: &mut D,
    queues: &[Txt],
    turns: u32,
    left: &mut u32,
    steps: &mut Steps<L>,
) -> Result<Option<DrainEnd>, ExecFault>
    requires queues { queues.now ≡ map (λ (q : Queue). q.name) (language exec.old).queues }
    requires point { (from : D) × (st : State) × (k : ℕ)
        × Point D.size D.image D.may_leave D.moment D.reach D.said D.asked D.syncs
        from desk.old exec.old st k turns (Queues queues.now) left.old false }
    ensures goes { (from : D) (st : State) (k : ℕ) →
        Point D.size D.image D.may_leave D.moment D.reach D.said D.asked D.syncs
        from desk.old exec.old st k turns (Queues queues.now) left.old false →
        MatchResult result
        (λ end. MatchOption end
        (Point D.size D.image D.may_leave D.moment D.reach D.said D.asked D.syncs
        from desk.new exec.new st k turns (Queues queues.now) left.new false)
        (λ e. DoesDrain D.size D.image D.may_leave D.moment D.reach D.said D.asked D.syncs
        from desk.new exec.new st k turns (drain_reply e)))
        (λ fault. EndsEarly D.image D.moment D.reach D.said D.asked D.syncs (language exec.old) from desk.new st k turns) }
    ensures fewer { result ≡ Ok None → left.new < left.old }
    ensures program { exec.new.program ≡ exec.old.program }
    ensures few_syncs { SyncsWithin (D.syncs desk.old) (D.syncs desk.new) (2 * left.old) }
    ensures counted_syncs { OnOk result (SyncsWithin (D.syncs desk.old) (D.syncs desk.new) (2 * (left.old - left.new))) }
    ensures disk { IsErrOf result ExecFault.Disk → Rose (D.disk_faults desk.old) (D.disk_faults desk.new) }
    ensures no_fault { (IsErrOf result ExecFault.Disk → ⊥) → D.disk_faults desk.new ≡ D.disk_faults desk.old }
    ensures ask_faults { (n : ℕ) × Raised n (D.ask_faults desk.old) (D.ask_faults desk.new) }
    ensures unanswered { OnOk result (CountsFaults D.asked D.ask_faults desk.old desk.new) }
    ensures said { D.said desk.new ≡ D.said desk.old }
    ensures say_faults { D.say_faults desk.new ≡ D.say_faults desk.old }
{
    let mut round = Round {
        left: *left,
        changed: false,
    };
    match dequeue_each(alloc, exec, desk, queues, &mut round) {
        Ok(true) => {}
        Ok(false) => return Ok(Some(DrainEnd::Spent { turns })),
        Err(fault) => return Err(fault),
    }
    let end = give_turns(alloc, exec, desk, turns, &mut round, steps);
    *left = round.left;
    end
}

/// Rounds of dequeues and turns, `turns` in all.
///
/// A round is one dequeue of each declared queue, in their order, and then a turn of each workflow that runs
/// after them, the first started first. After a whole round that changed nothing the drain is idle; else it
/// is spent as soon as all are taken.
pub fn drain<D: Desk, L: Ledger>(
    alloc: Global,
    exec: &mut Exec,
    desk: &mut D,
    turns: u32,
    steps: &mut Steps<L>,
) -> Result<DrainEnd, ExecFault>
    requires { (st : State) × (k : ℕ) × Runs D.size D.image D.may_leave desk.old exec.old st k }
    ensures does { (st : State) (k : ℕ) → Runs D.size D.image D.may_leave desk.old exec.old st k →
        IfOk result (λ end. DoesDrain D.size D.image D.may_leave D.moment D.reach D.said D.asked D.syncs
        desk.old desk.new exec.new st k turns (drain_reply end)) }
    ensures program { exec.new.program ≡ exec.old.program }

    // Where it ends early, a crash leaves a prefix of what the machine has come to, and so reads the disk.
    ensures early { (st : State) (k : ℕ) → Runs D.size D.image D.may_leave desk.old exec.old st k →
        OnErr result (EndsEarly D.image D.moment D.reach D.said D.asked D.syncs (language exec.old) desk.old desk.new st k turns) }

    // It has as many calls as turns at most, and nothing else costs a sync.
    ensures few_syncs { SyncsWithin (D.syncs desk.old) (D.syncs desk.new) (2 * turns) }
    ensures disk { IsErrOf result ExecFault.Disk → Rose (D.disk_faults desk.old) (D.disk_faults desk.new) }
    ensures no_fault { (IsErrOf result ExecFault.Disk → ⊥) → D.disk_faults desk.new ≡ D.disk_faults desk.old }

    // The outside's count of faults rises once for each call that got no answer.
    ensures unanswered { OnOk result (CountsFaults D.asked D.ask_faults desk.old desk.new) }
    ensures ask_faults { (n : ℕ) × Raised n (D.ask_faults desk.old) (D.ask_faults desk.new) }
    ensures said { D.said desk.new ≡ D.said desk.old }
    ensures say_faults { D.say_faults desk.new ≡ D.say_faults desk.old }
{
    reads_as_settled::<D>();
    let queues = match exec.queues(alloc) {
        Ok(queues) => queues,
        Err(_) => return Err(ExecFault::Memory),
    };
    let mut left = turns;
    // Each round that ends nothing takes one at least.
    'rounds: loop {
        match go_round(alloc, exec, desk, &queues, turns, &mut left, steps) {
            Ok(Some(end)) => return Ok(end),
            Ok(None) => {}
            Err(fault) => return Err(fault),
        }
    }
}
