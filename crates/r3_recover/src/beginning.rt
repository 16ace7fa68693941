//! The first entry of a store.

ghost use Rattle.std.specs.Prelude.{◌≡◌, ◌⊎◌, ◌+◌, ◌≤◌, ◌∷◌, [], length, IfOk, IfErr, OnOk, IsErrOf};
ghost use Rattle.std.specs.Option.{ForSome, option_map};
ghost use Rattle.r3_desk.specs.Causes.{Rose};
ghost use Rattle.r3_desk.specs.Moments.{LeavesImage};
ghost use Rattle.r3_entry.specs.Image.{IsHistoryOf};
ghost use Rattle.r3_store.specs.Holds.{Holds};
ghost use Rattle.r3_store.specs.Opened.{Opens};
ghost use Rattle.r3_model.specs.Acts.{program_entry};
ghost use Rattle.r3_exec.specs.Does.{SyncsWithin};
ghost use Rattle.r3_recover.specs.Opened.{HasOpened, IsHalted};
ghost use Rattle.r3_recover.specs.Recovering.{IsTaken};

use crate::ends::StartFault;
use fn_tree::checked::Checked;
use r3_acts::program_entry;
use r3_desk::Desk;
use r3_entry::ProgramText;
use r3_exec::Exec;
use r3_laws::enters_light;
use r3_store::{CommitFault, Store, may_follow};
use std::alloc::Global;

// The entry of a program, to an empty store. There is room for it, and nothing stands in its way.
fn begin<D: Desk>(
    alloc: Global,
    desk: &mut D,
    store: &mut Store,
    text: &str,
) -> Result<(), StartFault>
    requires short { length text.now ≤ 1048576 }
    requires opens { Opens D.size D.image D.may_leave desk.old store.old [] }
    ensures begun { OnOk result (Holds D.size D.image D.may_leave desk.new store.new (program_entry [] text.now ∷ []) 0) }
    ensures pins { OnOk result (store.new.pins ≡ []) }
    ensures halted { IfErr result IsHalted }
    ensures crash { LeavesImage D.moment D.reach D.may_leave D.said D.asked desk.old desk.new (IsHistoryOf []) }
    ensures reads { ForSome (D.image desk.new) (IsHistoryOf []) }
    ensures at_most { (D.syncs desk.new ≡ D.syncs desk.old)
        ⊎ (D.syncs desk.new ≡ option_map (λ n. n + 1) (D.syncs desk.old)) }
    ensures disk { IsErrOf result StartFault.Disk → Rose (D.disk_faults desk.old) (D.disk_faults desk.new) }
    ensures no_fault { (IsErrOf result StartFault.Disk → ⊥) → D.disk_faults desk.new ≡ D.disk_faults desk.old }
    ensures said { D.said desk.new ≡ D.said desk.old }
    ensures asked { D.asked desk.new ≡ D.asked desk.old }
    ensures say_faults { D.say_faults desk.new ≡ D.say_faults desk.old }
    ensures ask_faults { D.ask_faults desk.new ≡ D.ask_faults desk.old }
{
    enters_light();
    may_follow();
    let copy = match String::from_str(alloc, text) {
        Ok(copy) => copy,
        Err(_) => return Err(StartFault::Memory),
    };
    let entry = program_entry(alloc, 0, ProgramText::from_string(copy));
    match store.commit(alloc, desk, entry) {
        Ok(_) => Ok(()),
        Err(CommitFault::Disk) => Err(StartFault::Disk),
        Err(CommitFault::Memory) => Err(StartFault::Memory),
        Err(CommitFault::Full { .. }) => unreachable!(),
        Err(CommitFault::Conflict { .. }) => unreachable!(),
    }
}

/// Appends the program to an empty store.
pub fn begin_exec<D: Desk>(
    alloc: Global,
    desk: &mut D,
    mut store: Store,
    program: Checked,
    text: &str,
) -> Result<Exec, StartFault>
    requires short { length text.now ≤ 1048576 }
    requires taken { (from : D)
        × IsTaken D.size D.image D.may_leave D.moment D.reach D.said D.asked D.syncs from desk.old store [] }
    ensures does { (from : D) →
        IsTaken D.size D.image D.may_leave D.moment D.reach D.said D.asked D.syncs from desk.old store [] →
        IfOk result (λ exec. HasOpened D.size D.image D.may_leave D.moment D.reach D.said D.asked D.syncs
        from desk.new exec text.now) }
    ensures crash { (from : D) →
        IsTaken D.size D.image D.may_leave D.moment D.reach D.said D.asked D.syncs from desk.old store [] →
        LeavesImage D.moment D.reach D.may_leave D.said D.asked from desk.new (IsHistoryOf []) }
    ensures reads { ForSome (D.image desk.new) (IsHistoryOf []) }
    ensures program { IfOk result (λ exec. exec.program ≡ program) }
    ensures few_syncs { SyncsWithin (D.syncs desk.old) (D.syncs desk.new) 1 }
    ensures halted { IfErr result IsHalted }
    ensures disk { IsErrOf result StartFault.Disk → Rose (D.disk_faults desk.old) (D.disk_faults desk.new) }
    ensures no_fault { (IsErrOf result StartFault.Disk → ⊥) → D.disk_faults desk.new ≡ D.disk_faults desk.old }
    ensures said { D.said desk.new ≡ D.said desk.old }
    ensures asked { D.asked desk.new ≡ D.asked desk.old }
    ensures say_faults { D.say_faults desk.new ≡ D.say_faults desk.old }
    ensures ask_faults { D.ask_faults desk.new ≡ D.ask_faults desk.old }
{
    enters_light();
    match begin(alloc, desk, &mut store, text) {
        Ok(()) => {}
        Err(fault) => return Err(fault),
    }
    match Exec::new(alloc, program, store) {
        Ok(exec) => Ok(exec),
        Err(_) => Err(StartFault::Memory),
    }
}
