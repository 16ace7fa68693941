//! The turns of a round.

ghost use Rattle.std.specs.Prelude.{◌≡◌, ◌-◌, ◌*◌, ◌∷◌, ◌≤◌, ◌<◌, ℕ, List, [], true, false, MatchResult, IsErrOf, OnOk};
ghost use Rattle.r3_desk.specs.Causes.{Rose};
ghost use Rattle.r3_model.specs.Drain.{changes};
ghost use Rattle.r3_model.specs.Event.{Spent};
ghost use Rattle.r3_model.specs.Language.{Text};
ghost use Rattle.r3_model.specs.Machine.{State};
ghost use Rattle.r3_exec.specs.Does.{SyncsWithin};
ghost use Rattle.r3_exec.specs.Runs.{language};
ghost use Rattle.r3_exec.specs.Ends.{turn_reply};
ghost use Rattle.r3_recover.specs.Drained.{CountsFaults, DoesDrain, EndsEarly, Raised};
ghost use Rattle.r3_recover.specs.Rounds.{Turns, Point};

use crate::round::Round;
use r3_desk::Desk;
use r3_exec::{Exec, ExecFault, TurnEnd};
use r3_laws::rows_follow;
use r3_model::only_appends;
use r3_steps::Steps;
use r3_store::reads_as_settled;
use r3_value::Txt;
use std::alloc::Global;
use std::sync::ledger::Ledger;

// Whether the turn has changed something.
fn has_gone_on(end: &TurnEnd) -> bool
    ensures { result ≡ changes (turn_reply end.now) }
{
    match end {
        TurnEnd::Began { .. } | TurnEnd::Entry { .. } | TurnEnd::Conflict { .. } => true,
        _ => false,
    }
}

// The next turn.
fn turn_next<D: Desk, L: Ledger>(
    alloc: Global,
    exec: &mut Exec,
    desk: &mut D,
    id: &Txt,
    round: &mut Round,
    steps: &mut Steps<L>,
) -> Result<(), ExecFault>
    requires left { 0 < round.old.left }
    requires point { (from : D) × (st : State) × (k : ℕ) × (turns : ℕ) × (ids : List Text)
        × Point D.size D.image D.may_leave D.moment D.reach D.said D.asked D.syncs
        from desk.old exec.old st k turns (Turns (id.now ∷ ids)) round.old.left round.old.changed }
    ensures goes { (from : D) (st : State) (k turns : ℕ) (ids : List Text) →
        Point D.size D.image D.may_leave D.moment D.reach D.said D.asked D.syncs
        from desk.old exec.old st k turns (Turns (id.now ∷ ids)) round.old.left round.old.changed →
        MatchResult result
        (λ done. Point D.size D.image D.may_leave D.moment D.reach D.said D.asked D.syncs
        from desk.new exec.new st k turns (Turns ids) round.new.left round.new.changed)
        (λ fault. EndsEarly D.image D.moment D.reach D.said D.asked D.syncs (language exec.old) from desk.new st k turns) }
    ensures fewer { round.new.left ≤ round.old.left }
    ensures counted { OnOk result (round.new.left < round.old.left) }
    ensures program { exec.new.program ≡ exec.old.program }
    ensures few_syncs { SyncsWithin (D.syncs desk.old) (D.syncs desk.new) 2 }
    ensures disk { IsErrOf result ExecFault.Disk → Rose (D.disk_faults desk.old) (D.disk_faults desk.new) }
    ensures no_fault { (IsErrOf result ExecFault.Disk → ⊥) → D.disk_faults desk.new ≡ D.disk_faults desk.old }
    ensures ask_faults { (n : ℕ) × Raised n (D.ask_faults desk.old) (D.ask_faults desk.new) }
    ensures unanswered { OnOk result (CountsFaults D.asked D.ask_faults desk.old desk.new) }
    ensures said { D.said desk.new ≡ D.said desk.old }
    ensures say_faults { D.say_faults desk.new ≡ D.say_faults desk.old }
{
    only_appends();
    rows_follow();
    match exec.turn(alloc, desk, id.as_str(), steps) {
        Ok(end) => {
            round.take(has_gone_on(&end));
            Ok(())
        }
        Err(fault) => Err(fault),
    }
}

/// One turn of each of these workflows, as long as there is any left. It tells whether there were as many.
pub fn turn_each<D: Desk, L: Ledger>(
    alloc: Global,
    exec: &mut Exec,
    desk: &mut D,
    ids: &[Txt],
    round: &mut Round,
    steps: &mut Steps<L>,
) -> Result<bool, ExecFault>
    requires { (from : D) × (st : State) × (k : ℕ) × (turns : ℕ)
        × Point D.size D.image D.may_leave D.moment D.reach D.said D.asked D.syncs
        from desk.old exec.old st k turns (Turns ids.now) round.old.left round.old.changed }
    ensures goes { (from : D) (st : State) (k turns : ℕ) →
        Point D.size D.image D.may_leave D.moment D.reach D.said D.asked D.syncs
        from desk.old exec.old st k turns (Turns ids.now) round.old.left round.old.changed →
        MatchResult result
        (λ all.
        (all ≡ true → Point D.size D.image D.may_leave D.moment D.reach D.said D.asked D.syncs
        from desk.new exec.new st k turns (Turns []) round.new.left round.new.changed)
        × (all ≡ false → DoesDrain D.size D.image D.may_leave D.moment D.reach D.said D.asked D.syncs
        from desk.new exec.new st k turns (Spent turns)))
        (λ fault. EndsEarly D.image D.moment D.reach D.said D.asked D.syncs (language exec.old) from desk.new st k turns) }
    ensures fewer { round.new.left ≤ round.old.left }
    ensures counted { OnOk result (round.new.changed ≡ true → round.old.changed ≡ false → round.new.left < round.old.left) }
    ensures program { exec.new.program ≡ exec.old.program }

    // Each turn that was taken costs two syncs at most.
    ensures few_syncs { SyncsWithin (D.syncs desk.old) (D.syncs desk.new) (2 * round.old.left) }
    ensures counted_syncs { OnOk result (SyncsWithin (D.syncs desk.old) (D.syncs desk.new) (2 * (round.old.left - round.new.left))) }
    ensures disk { IsErrOf result ExecFault.Disk → Rose (D.disk_faults desk.old) (D.disk_faults desk.new) }
    ensures no_fault { (IsErrOf result ExecFault.Disk → ⊥) → D.disk_faults desk.new ≡ D.disk_faults desk.old }
    ensures ask_faults { (n : ℕ) × Raised n (D.ask_faults desk.old) (D.ask_faults desk.new) }
    ensures unanswered { OnOk result (CountsFaults D.asked D.ask_faults desk.old desk.new) }
    ensures said { D.said desk.new ≡ D.said desk.old }
    ensures say_faults { D.say_faults desk.new ≡ D.say_faults desk.old }
{
    reads_as_settled::<D>();
    'ids: for id in ids {
        if round.left == 0 {
            return Ok(false);
        }
        match turn_next(alloc, exec, desk, id, round, steps) {
            Ok(()) => {}
            Err(fault) => return Err(fault),
        }
    }
    Ok(true)
}
