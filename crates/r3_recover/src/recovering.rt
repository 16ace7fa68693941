//! Recoveries: each running workflow of a store that was opened.

ghost use Rattle.std.specs.Prelude.{◌≡◌, ◌≢◌, ◌∷◌, [], List, IfOk, IfErr, OnOk, IsErrOf};
ghost use Rattle.std.specs.Option.{ForSome};
ghost use Rattle.r3_desk.specs.Causes.{Rose};
ghost use Rattle.r3_desk.specs.Moments.{LeavesImage};
ghost use Rattle.r3_entry.specs.declared.entry.Entry.{Entry};
ghost use Rattle.r3_entry.specs.Image.{IsHistoryOf};
ghost use Rattle.sys_flow.specs.declared.command.Command.TheVariants.{Recover};
ghost use Rattle.r3_model.specs.Language.{Text as Name};
ghost use Rattle.r3_recover.specs.Opened.{HasOpened, HasProgram, IsHalted};
ghost use Rattle.r3_recover.specs.Recovering.{IsTaken, Recovers};

use crate::ends::StartFault;
use fn_tree::checked::Checked;
use r3_desk::Desk;
use r3_exec::{Exec, ExecFault};
use r3_model::only_appends;
use r3_store::{Store, reads_as_settled};
use r3_value::{Memory, Txt};
use std::alloc::Global;
use sys_flow::{Command, Text};

// The command that recovers a workflow.
fn recovery(alloc: Global, id: &Txt) -> Result<Command, Memory>
    ensures { IfOk result (λ command. command ≡ Recover id.now) }
{
    match String::from_str(alloc, id.as_str()) {
        Ok(id) => Ok(Command::Recover {
            id: Text::from_string(id),
        }),
        Err(_) => Err(Memory),
    }
}

// The next recovery. Where there is no more room the workflow stays as it is.
fn recover_next<D: Desk>(
    alloc: Global,
    exec: &mut Exec,
    desk: &mut D,
    id: &Txt,
) -> Result<(), ExecFault>
    requires { (from : D) × (h : List Entry) × (ids : List Name)
        × Recovers D.size D.image D.may_leave D.moment D.reach D.said D.asked D.syncs
        from desk.old exec.old h (id.now ∷ ids) }
    ensures goes { (from : D) (h : List Entry) (ids : List Name) →
        Recovers D.size D.image D.may_leave D.moment D.reach D.said D.asked D.syncs
        from desk.old exec.old h (id.now ∷ ids) →
        OnOk result (Recovers D.size D.image D.may_leave D.moment D.reach D.said D.asked D.syncs
        from desk.new exec.new h ids) }
    ensures crash { (from : D) (h : List Entry) (ids : List Name) →
        Recovers D.size D.image D.may_leave D.moment D.reach D.said D.asked D.syncs
        from desk.old exec.old h (id.now ∷ ids) →
        LeavesImage D.moment D.reach D.may_leave D.said D.asked from desk.new (IsHistoryOf h) }
    ensures reads { (from : D) (h : List Entry) (ids : List Name) →
        Recovers D.size D.image D.may_leave D.moment D.reach D.said D.asked D.syncs
        from desk.old exec.old h (id.now ∷ ids) → ForSome (D.image desk.new) (IsHistoryOf h) }
    ensures program { exec.new.program ≡ exec.old.program }
    ensures syncs { D.syncs desk.new ≡ D.syncs desk.old }
    ensures disk { IsErrOf result ExecFault.Disk → Rose (D.disk_faults desk.old) (D.disk_faults desk.new) }
    ensures no_fault { (IsErrOf result ExecFault.Disk → ⊥) → D.disk_faults desk.new ≡ D.disk_faults desk.old }
    ensures said { D.said desk.new ≡ D.said desk.old }
    ensures asked { D.asked desk.new ≡ D.asked desk.old }
    ensures say_faults { D.say_faults desk.new ≡ D.say_faults desk.old }
    ensures ask_faults { D.ask_faults desk.new ≡ D.ask_faults desk.old }
{
    only_appends();
    let command = match recovery(alloc, id) {
        Ok(command) => command,
        Err(_) => return Err(ExecFault::Memory),
    };
    match exec.append(alloc, desk, &command) {
        Ok(_) => Ok(()),
        Err(fault) => Err(fault),
    }
}

// These recoveries.
fn recover_each<D: Desk>(
    alloc: Global,
    exec: &mut Exec,
    desk: &mut D,
    ids: &[Txt],
) -> Result<(), ExecFault>
    requires { (from : D) × (h : List Entry)
        × Recovers D.size D.image D.may_leave D.moment D.reach D.said D.asked D.syncs
        from desk.old exec.old h ids.now }
    ensures goes { (from : D) (h : List Entry) →
        Recovers D.size D.image D.may_leave D.moment D.reach D.said D.asked D.syncs
        from desk.old exec.old h ids.now →
        OnOk result (Recovers D.size D.image D.may_leave D.moment D.reach D.said D.asked D.syncs
        from desk.new exec.new h []) }
    ensures crash { (from : D) (h : List Entry) →
        Recovers D.size D.image D.may_leave D.moment D.reach D.said D.asked D.syncs
        from desk.old exec.old h ids.now →
        LeavesImage D.moment D.reach D.may_leave D.said D.asked from desk.new (IsHistoryOf h) }
    ensures reads { (from : D) (h : List Entry) →
        Recovers D.size D.image D.may_leave D.moment D.reach D.said D.asked D.syncs
        from desk.old exec.old h ids.now → ForSome (D.image desk.new) (IsHistoryOf h) }
    ensures program { exec.new.program ≡ exec.old.program }
    ensures syncs { D.syncs desk.new ≡ D.syncs desk.old }
    ensures disk { IsErrOf result ExecFault.Disk → Rose (D.disk_faults desk.old) (D.disk_faults desk.new) }
    ensures no_fault { (IsErrOf result ExecFault.Disk → ⊥) → D.disk_faults desk.new ≡ D.disk_faults desk.old }
    ensures said { D.said desk.new ≡ D.said desk.old }
    ensures asked { D.asked desk.new ≡ D.asked desk.old }
    ensures say_faults { D.say_faults desk.new ≡ D.say_faults desk.old }
    ensures ask_faults { D.ask_faults desk.new ≡ D.ask_faults desk.old }
{
    'ids: for id in ids {
        match recover_next(alloc, exec, desk, id) {
            Ok(()) => {}
            Err(fault) => return Err(fault),
        }
    }
    Ok(())
}

/// Recovers each running workflow of a store that isn't empty, the first started first.
pub fn recover_exec<D: Desk>(
    alloc: Global,
    desk: &mut D,
    store: Store,
    program: Checked,
) -> Result<Exec, StartFault>
    requires { (from : D) × (h : List Entry)
        × IsTaken D.size D.image D.may_leave D.moment D.reach D.said D.asked D.syncs from desk.old store h × (h ≢ []) }
    ensures does { (from : D) (h : List Entry) (text : Name) →
        IsTaken D.size D.image D.may_leave D.moment D.reach D.said D.asked D.syncs from desk.old store h →
        h ≢ [] → HasProgram h text →
        IfOk result (λ exec. HasOpened D.size D.image D.may_leave D.moment D.reach D.said D.asked D.syncs
        from desk.new exec text) }
    ensures crash { (from : D) (h : List Entry) →
        IsTaken D.size D.image D.may_leave D.moment D.reach D.said D.asked D.syncs from desk.old store h →
        h ≢ [] → LeavesImage D.moment D.reach D.may_leave D.said D.asked from desk.new (IsHistoryOf h) }
    ensures reads { (from : D) (h : List Entry) →
        IsTaken D.size D.image D.may_leave D.moment D.reach D.said D.asked D.syncs from desk.old store h →
        h ≢ [] → ForSome (D.image desk.new) (IsHistoryOf h) }
    ensures program { IfOk result (λ exec. exec.program ≡ program) }
    ensures syncs { D.syncs desk.new ≡ D.syncs desk.old }
    ensures halted { IfErr result IsHalted }
    ensures disk { IsErrOf result StartFault.Disk → Rose (D.disk_faults desk.old) (D.disk_faults desk.new) }
    ensures no_fault { (IsErrOf result StartFault.Disk → ⊥) → D.disk_faults desk.new ≡ D.disk_faults desk.old }
    ensures said { D.said desk.new ≡ D.said desk.old }
    ensures asked { D.asked desk.new ≡ D.asked desk.old }
    ensures say_faults { D.say_faults desk.new ≡ D.say_faults desk.old }
    ensures ask_faults { D.ask_faults desk.new ≡ D.ask_faults desk.old }
{
    reads_as_settled::<D>();
    let mut exec = match Exec::new(alloc, program, store) {
        Ok(exec) => exec,
        Err(_) => return Err(StartFault::Memory),
    };
    let ids = match exec.pending(alloc) {
        Ok(ids) => ids,
        Err(_) => return Err(StartFault::Memory),
    };
    match recover_each(alloc, &mut exec, desk, &ids) {
        Ok(()) => Ok(exec),
        Err(ExecFault::Disk) => Err(StartFault::Disk),
        Err(ExecFault::Memory) => Err(StartFault::Memory),
    }
}
