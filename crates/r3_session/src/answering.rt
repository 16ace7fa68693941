//! A line, done and settled.

ghost use Rattle.std.specs.Prelude.{◌≡◌, ◌<◌, ℕ, List, length, IfOk, OnErr, IsErrOf};
ghost use Rattle.r3_desk.specs.Causes.{Rose};
ghost use Rattle.r3_lines.specs.Lines.{as_line, IsKept};
ghost use Rattle.r3_model.specs.Machine.{State};
ghost use Rattle.r3_exec.specs.Runs.{Runs, language};
ghost use Rattle.r3_recover.specs.Drained.{Raised};
ghost use Rattle.r3_session.specs.Answered.{DoesLine, StopsLine};
ghost use Rattle.r3_session.specs.Done.{IsDone};

use crate::events::{command, dequeue, drain, turn};
use crate::looks::{get, status, unformed, unread};
use r3_desk::Desk;
use r3_exec::{Exec, ExecFault};
use r3_lines::Line;
use r3_model::drains_by_turns;
use r3_steps::Steps;
use r3_store::reads_as_settled;
use std::alloc::Global;
use std::marker::Brand;
use std::sync::ledger::{Blank, Ledger};

// A line that may not be settled yet.
fn stepped<D: Desk, L: Ledger>(
    alloc: Global,
    exec: &mut Exec,
    desk: &mut D,
    line: &Line,
    steps: &mut Steps<L>,
) -> Result<Vec<u8>, ExecFault>
    requires kept { IsKept line.now }
    requires runs { (st : State) × Runs D.size D.image D.may_leave desk.old exec.old st (length st.history) }
    ensures does { (st : State) → Runs D.size D.image D.may_leave desk.old exec.old st (length st.history) →
        IfOk result (λ text. IsDone D.size D.image D.may_leave D.moment D.reach D.said D.asked D.syncs
        desk.old desk.new exec.new st (as_line line.now) text.items) }
    ensures stops { (st : State) → Runs D.size D.image D.may_leave desk.old exec.old st (length st.history) →
        OnErr result (StopsLine D.image D.moment D.reach D.said D.asked D.syncs (language exec.old) desk.old desk.new st (as_line line.now)) }
    ensures program { exec.new.program ≡ exec.old.program }
    ensures disk { IsErrOf result ExecFault.Disk → Rose (D.disk_faults desk.old) (D.disk_faults desk.new) }
    ensures no_fault { (IsErrOf result ExecFault.Disk → ⊥) → D.disk_faults desk.new ≡ D.disk_faults desk.old }
    ensures ask_faults { (n : ℕ) × Raised n (D.ask_faults desk.old) (D.ask_faults desk.new) }
    ensures said { D.said desk.new ≡ D.said desk.old }
    ensures say_faults { D.say_faults desk.new ≡ D.say_faults desk.old }
{
    reads_as_settled::<D>();
    drains_by_turns();
    match line {
        Line::Command(order) => command(alloc, exec, desk, order),
        Line::Turn(id) => turn(alloc, exec, desk, id.as_str(), steps),
        Line::Dequeue(queue) => dequeue(alloc, exec, desk, queue.as_str()),
        Line::Drain { turns } => drain(alloc, exec, desk, *turns, steps),
        Line::Status(id) => Ok(status(alloc, exec, id.as_str())?),
        Line::Get { table, key } => Ok(get(alloc, exec, table.as_str(), key.as_str())?),
        Line::Unread => Ok(unread(alloc)?),
        Line::Unformed => Ok(unformed(alloc)?),
    }
}

// The same, with a counter of its steps.
fn counted<D: Desk, L: Ledger>(
    alloc: Global,
    exec: &mut Exec,
    desk: &mut D,
    line: &Line,
    blank: Blank,
) -> Result<Vec<u8>, ExecFault>
    requires name { blank.name ≡ L.name }
    requires parts { blank.parts ≡ L.parts }
    requires some { 0 < blank.parts }
    requires kept { IsKept line.now }
    requires runs { (st : State) × Runs D.size D.image D.may_leave desk.old exec.old st (length st.history) }
    ensures does { (st : State) → Runs D.size D.image D.may_leave desk.old exec.old st (length st.history) →
        IfOk result (λ text. IsDone D.size D.image D.may_leave D.moment D.reach D.said D.asked D.syncs
        desk.old desk.new exec.new st (as_line line.now) text.items) }
    ensures stops { (st : State) → Runs D.size D.image D.may_leave desk.old exec.old st (length st.history) →
        OnErr result (StopsLine D.image D.moment D.reach D.said D.asked D.syncs (language exec.old) desk.old desk.new st (as_line line.now)) }
    ensures program { exec.new.program ≡ exec.old.program }
    ensures disk { IsErrOf result ExecFault.Disk → Rose (D.disk_faults desk.old) (D.disk_faults desk.new) }
    ensures no_fault { (IsErrOf result ExecFault.Disk → ⊥) → D.disk_faults desk.new ≡ D.disk_faults desk.old }
    ensures ask_faults { (n : ℕ) × Raised n (D.ask_faults desk.old) (D.ask_faults desk.new) }
    ensures said { D.said desk.new ≡ D.said desk.old }
    ensures say_faults { D.say_faults desk.new ≡ D.say_faults desk.old }
{
    let mut steps = Steps::<L>::new(blank);
    stepped(alloc, exec, desk, line, &mut steps)
}

// The same, counted for nobody.
fn done<D: Desk>(
    alloc: Global,
    exec: &mut Exec,
    desk: &mut D,
    line: &Line,
) -> Result<Vec<u8>, ExecFault>
    requires kept { IsKept line.now }
    requires runs { (st : State) × Runs D.size D.image D.may_leave desk.old exec.old st (length st.history) }
    ensures does { (st : State) → Runs D.size D.image D.may_leave desk.old exec.old st (length st.history) →
        IfOk result (λ text. IsDone D.size D.image D.may_leave D.moment D.reach D.said D.asked D.syncs
        desk.old desk.new exec.new st (as_line line.now) text.items) }
    ensures stops { (st : State) → Runs D.size D.image D.may_leave desk.old exec.old st (length st.history) →
        OnErr result (StopsLine D.image D.moment D.reach D.said D.asked D.syncs (language exec.old) desk.old desk.new st (as_line line.now)) }
    ensures program { exec.new.program ≡ exec.old.program }
    ensures disk { IsErrOf result ExecFault.Disk → Rose (D.disk_faults desk.old) (D.disk_faults desk.new) }
    ensures no_fault { (IsErrOf result ExecFault.Disk → ⊥) → D.disk_faults desk.new ≡ D.disk_faults desk.old }
    ensures ask_faults { (n : ℕ) × Raised n (D.ask_faults desk.old) (D.ask_faults desk.new) }
    ensures said { D.said desk.new ≡ D.said desk.old }
    ensures say_faults { D.say_faults desk.new ≡ D.say_faults desk.old }
{
    counted::<D, Brand>(alloc, exec, desk, line, Blank::new(1))
}

/// A line. The text of its reply is given when all is settled.
pub fn answered<D: Desk>(
    alloc: Global,
    exec: &mut Exec,
    desk: &mut D,
    line: &Line,
) -> Result<Vec<u8>, ExecFault>
    requires kept { IsKept line.now }
    requires runs { (st : State) × Runs D.size D.image D.may_leave desk.old exec.old st (length st.history) }
    ensures does { (st : State) → Runs D.size D.image D.may_leave desk.old exec.old st (length st.history) →
        IfOk result (λ text. DoesLine D.size D.image D.may_leave D.moment D.reach D.said D.asked D.syncs
        desk.old desk.new exec.new st (as_line line.now) text.items) }
    ensures stops { (st : State) → Runs D.size D.image D.may_leave desk.old exec.old st (length st.history) →
        OnErr result (StopsLine D.image D.moment D.reach D.said D.asked D.syncs (language exec.old) desk.old desk.new st (as_line line.now)) }
    ensures program { exec.new.program ≡ exec.old.program }
    ensures disk { IsErrOf result ExecFault.Disk → Rose (D.disk_faults desk.old) (D.disk_faults desk.new) }
    ensures no_fault { (IsErrOf result ExecFault.Disk → ⊥) → D.disk_faults desk.new ≡ D.disk_faults desk.old }
    ensures ask_faults { (n : ℕ) × Raised n (D.ask_faults desk.old) (D.ask_faults desk.new) }
    ensures said { D.said desk.new ≡ D.said desk.old }
    ensures say_faults { D.say_faults desk.new ≡ D.say_faults desk.old }
{
    match done(alloc, exec, desk, line) {
        Ok(text) => match exec.settle(desk) {
            Ok(()) => Ok(text),
            Err(fault) => Err(fault),
        },
        Err(fault) => Err(fault),
    }
}
