//! Lines that may change something: a command, a turn, a dequeue, a drain.

ghost use Rattle.std.specs.Prelude.{◌≡◌, ℕ, List, length, IfOk, OnErr, IsErrOf, IsSome, IsTrue};
ghost use Rattle.std.specs.List.{list_any};
ghost use Rattle.std.specs.Str.{bytes_eq};
ghost use Rattle.r3_desk.specs.Causes.{Rose};
ghost use Rattle.r3_model.specs.Event as model;
ghost use Rattle.r3_model.specs.Language.{Queue};
ghost use Rattle.r3_model.specs.Machine.{State};
ghost use Rattle.r3_model.specs.Rows.{flow_at};
ghost use Rattle.r3_model.specs.Script as script;
ghost use Rattle.r3_exec.specs.Fit.{IsGiven};
ghost use Rattle.r3_exec.specs.Runs.{Runs, language};
ghost use Rattle.r3_recover.specs.Drained.{Raised};
ghost use Rattle.r3_session.specs.Answered.{StopsLine};
ghost use Rattle.r3_session.specs.Done.{IsDone};

use crate::looks::{is_declared, is_known, unknown_queue, unknown_turn};
use crate::texts::{command_text, dequeue_text, drain_text, turn_text};
use r3_desk::Desk;
use r3_exec::{Exec, ExecFault};
use r3_model::{drains_by_turns, only_appends};
use r3_steps::Steps;
use r3_store::reads_as_settled;
use std::alloc::Global;
use std::sync::ledger::Ledger;
use sys_flow::Command;

/// A command.
pub fn command<D: Desk>(
    alloc: Global,
    exec: &mut Exec,
    desk: &mut D,
    command: &Command,
) -> Result<Vec<u8>, ExecFault>
    requires given { IsGiven command.now }
    requires runs { (st : State) × Runs D.size D.image D.may_leave desk.old exec.old st (length st.history) }
    ensures does { (st : State) → Runs D.size D.image D.may_leave desk.old exec.old st (length st.history) →
        IfOk result (λ text. IsDone D.size D.image D.may_leave D.moment D.reach D.said D.asked D.syncs
        desk.old desk.new exec.new st (script.Does (model.Run command.now)) text.items) }
    ensures stops { (st : State) → Runs D.size D.image D.may_leave desk.old exec.old st (length st.history) →
        OnErr result (StopsLine D.image D.moment D.reach D.said D.asked D.syncs (language exec.old) desk.old desk.new st (script.Does (model.Run command.now))) }
    ensures program { exec.new.program ≡ exec.old.program }
    ensures disk { IsErrOf result ExecFault.Disk → Rose (D.disk_faults desk.old) (D.disk_faults desk.new) }
    ensures no_fault { (IsErrOf result ExecFault.Disk → ⊥) → D.disk_faults desk.new ≡ D.disk_faults desk.old }
    ensures ask_faults { D.ask_faults desk.new ≡ D.ask_faults desk.old }
    ensures said { D.said desk.new ≡ D.said desk.old }
    ensures say_faults { D.say_faults desk.new ≡ D.say_faults desk.old }
{
    only_appends();
    match exec.append(alloc, desk, command) {
        Ok(end) => Ok(command_text(alloc, &end)?),
        Err(fault) => Err(fault),
    }
}

// A turn of a workflow that is there.
fn known_turn<D: Desk, L: Ledger>(
    alloc: Global,
    exec: &mut Exec,
    desk: &mut D,
    id: &str,
    steps: &mut Steps<L>,
) -> Result<Vec<u8>, ExecFault>
    requires known { (st : State) × Runs D.size D.image D.may_leave desk.old exec.old st (length st.history)
        × IsSome (flow_at st.history (length st.history) id.now) }
    ensures does { (st : State) → Runs D.size D.image D.may_leave desk.old exec.old st (length st.history) →
        IfOk result (λ text. IsDone D.size D.image D.may_leave D.moment D.reach D.said D.asked D.syncs
        desk.old desk.new exec.new st (script.Does (model.Turn id.now)) text.items) }
    ensures stops { (st : State) → Runs D.size D.image D.may_leave desk.old exec.old st (length st.history) →
        OnErr result (StopsLine D.image D.moment D.reach D.said D.asked D.syncs (language exec.old) desk.old desk.new st (script.Does (model.Turn id.now))) }
    ensures program { exec.new.program ≡ exec.old.program }
    ensures disk { IsErrOf result ExecFault.Disk → Rose (D.disk_faults desk.old) (D.disk_faults desk.new) }
    ensures no_fault { (IsErrOf result ExecFault.Disk → ⊥) → D.disk_faults desk.new ≡ D.disk_faults desk.old }
    ensures ask_faults { (n : ℕ) × Raised n (D.ask_faults desk.old) (D.ask_faults desk.new) }
    ensures said { D.said desk.new ≡ D.said desk.old }
    ensures say_faults { D.say_faults desk.new ≡ D.say_faults desk.old }
{
    only_appends();
    match exec.turn(alloc, desk, id, steps) {
        Ok(end) => Ok(turn_text(alloc, &end)?),
        Err(fault) => Err(fault),
    }
}

/// A turn.
pub fn turn<D: Desk, L: Ledger>(
    alloc: Global,
    exec: &mut Exec,
    desk: &mut D,
    id: &str,
    steps: &mut Steps<L>,
) -> Result<Vec<u8>, ExecFault>
    requires runs { (st : State) × Runs D.size D.image D.may_leave desk.old exec.old st (length st.history) }
    ensures does { (st : State) → Runs D.size D.image D.may_leave desk.old exec.old st (length st.history) →
        IfOk result (λ text. IsDone D.size D.image D.may_leave D.moment D.reach D.said D.asked D.syncs
        desk.old desk.new exec.new st (script.Does (model.Turn id.now)) text.items) }
    ensures stops { (st : State) → Runs D.size D.image D.may_leave desk.old exec.old st (length st.history) →
        OnErr result (StopsLine D.image D.moment D.reach D.said D.asked D.syncs (language exec.old) desk.old desk.new st (script.Does (model.Turn id.now))) }
    ensures program { exec.new.program ≡ exec.old.program }
    ensures disk { IsErrOf result ExecFault.Disk → Rose (D.disk_faults desk.old) (D.disk_faults desk.new) }
    ensures no_fault { (IsErrOf result ExecFault.Disk → ⊥) → D.disk_faults desk.new ≡ D.disk_faults desk.old }
    ensures ask_faults { (n : ℕ) × Raised n (D.ask_faults desk.old) (D.ask_faults desk.new) }
    ensures said { D.said desk.new ≡ D.said desk.old }
    ensures say_faults { D.say_faults desk.new ≡ D.say_faults desk.old }
{
    reads_as_settled::<D>();
    drains_by_turns();
    match is_known(alloc, exec, id) {
        Ok(true) => known_turn(alloc, exec, desk, id, steps),
        Ok(false) => Ok(unknown_turn(alloc, id)?),
        Err(_) => Err(ExecFault::Memory),
    }
}

// A dequeue of a declared queue.
fn declared_dequeue<D: Desk>(
    alloc: Global,
    exec: &mut Exec,
    desk: &mut D,
    queue: &str,
) -> Result<Vec<u8>, ExecFault>
    requires declared { IsTrue (list_any (λ (q : Queue). bytes_eq q.name queue.now) (language exec.old).queues) }
    requires runs { (st : State) × Runs D.size D.image D.may_leave desk.old exec.old st (length st.history) }
    ensures does { (st : State) → Runs D.size D.image D.may_leave desk.old exec.old st (length st.history) →
        IfOk result (λ text. IsDone D.size D.image D.may_leave D.moment D.reach D.said D.asked D.syncs
        desk.old desk.new exec.new st (script.Does (model.Dequeue queue.now)) text.items) }
    ensures stops { (st : State) → Runs D.size D.image D.may_leave desk.old exec.old st (length st.history) →
        OnErr result (StopsLine D.image D.moment D.reach D.said D.asked D.syncs (language exec.old) desk.old desk.new st (script.Does (model.Dequeue queue.now))) }
    ensures program { exec.new.program ≡ exec.old.program }
    ensures disk { IsErrOf result ExecFault.Disk → Rose (D.disk_faults desk.old) (D.disk_faults desk.new) }
    ensures no_fault { (IsErrOf result ExecFault.Disk → ⊥) → D.disk_faults desk.new ≡ D.disk_faults desk.old }
    ensures ask_faults { D.ask_faults desk.new ≡ D.ask_faults desk.old }
    ensures said { D.said desk.new ≡ D.said desk.old }
    ensures say_faults { D.say_faults desk.new ≡ D.say_faults desk.old }
{
    only_appends();
    match exec.dequeue(alloc, desk, queue) {
        Ok(end) => Ok(dequeue_text(alloc, &end)?),
        Err(fault) => Err(fault),
    }
}

/// A dequeue.
pub fn dequeue<D: Desk>(
    alloc: Global,
    exec: &mut Exec,
    desk: &mut D,
    queue: &str,
) -> Result<Vec<u8>, ExecFault>
    requires runs { (st : State) × Runs D.size D.image D.may_leave desk.old exec.old st (length st.history) }
    ensures does { (st : State) → Runs D.size D.image D.may_leave desk.old exec.old st (length st.history) →
        IfOk result (λ text. IsDone D.size D.image D.may_leave D.moment D.reach D.said D.asked D.syncs
        desk.old desk.new exec.new st (script.Does (model.Dequeue queue.now)) text.items) }
    ensures stops { (st : State) → Runs D.size D.image D.may_leave desk.old exec.old st (length st.history) →
        OnErr result (StopsLine D.image D.moment D.reach D.said D.asked D.syncs (language exec.old) desk.old desk.new st (script.Does (model.Dequeue queue.now))) }
    ensures program { exec.new.program ≡ exec.old.program }
    ensures disk { IsErrOf result ExecFault.Disk → Rose (D.disk_faults desk.old) (D.disk_faults desk.new) }
    ensures no_fault { (IsErrOf result ExecFault.Disk → ⊥) → D.disk_faults desk.new ≡ D.disk_faults desk.old }
    ensures ask_faults { D.ask_faults desk.new ≡ D.ask_faults desk.old }
    ensures said { D.said desk.new ≡ D.said desk.old }
    ensures say_faults { D.say_faults desk.new ≡ D.say_faults desk.old }
{
    reads_as_settled::<D>();
    drains_by_turns();
    match is_declared(alloc, exec, queue) {
        Ok(true) => declared_dequeue(alloc, exec, desk, queue),
        Ok(false) => Ok(unknown_queue(alloc, queue)?),
        Err(_) => Err(ExecFault::Memory),
    }
}

/// A drain.
pub fn drain<D: Desk, L: Ledger>(
    alloc: Global,
    exec: &mut Exec,
    desk: &mut D,
    turns: u32,
    steps: &mut Steps<L>,
) -> Result<Vec<u8>, ExecFault>
    requires runs { (st : State) × Runs D.size D.image D.may_leave desk.old exec.old st (length st.history) }
    ensures does { (st : State) → Runs D.size D.image D.may_leave desk.old exec.old st (length st.history) →
        IfOk result (λ text. IsDone D.size D.image D.may_leave D.moment D.reach D.said D.asked D.syncs
        desk.old desk.new exec.new st (script.Drain turns) text.items) }
    ensures stops { (st : State) → Runs D.size D.image D.may_leave desk.old exec.old st (length st.history) →
        OnErr result (StopsLine D.image D.moment D.reach D.said D.asked D.syncs (language exec.old) desk.old desk.new st (script.Drain turns)) }
    ensures program { exec.new.program ≡ exec.old.program }
    ensures disk { IsErrOf result ExecFault.Disk → Rose (D.disk_faults desk.old) (D.disk_faults desk.new) }
    ensures no_fault { (IsErrOf result ExecFault.Disk → ⊥) → D.disk_faults desk.new ≡ D.disk_faults desk.old }
    ensures ask_faults { (n : ℕ) × Raised n (D.ask_faults desk.old) (D.ask_faults desk.new) }
    ensures said { D.said desk.new ≡ D.said desk.old }
    ensures say_faults { D.say_faults desk.new ≡ D.say_faults desk.old }
{
    only_appends();
    drains_by_turns();
    match r3_recover::drain(alloc, exec, desk, turns, steps) {
        Ok(end) => Ok(drain_text(alloc, end)?),
        Err(fault) => Err(fault),
    }
}
