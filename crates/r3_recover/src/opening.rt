//! The opening.

ghost use Rattle.std.specs.Prelude.{◌≡◌, ◌≢◌, ◌⊎◌, ◌≤◌, [], List, length, true, Err, IfOk, IfErr, IsErrOf, IsErrAnd};
ghost use Rattle.std.specs.Option.{ForSome};
ghost use Rattle.r3_desk.specs.Causes.{Rose};
ghost use Rattle.r3_desk.specs.Crash.{NothingPending};
ghost use Rattle.r3_desk.specs.Moments.{LeavesImage};
ghost use Rattle.r3_entry.specs.declared.entry.Entry.{Entry};
ghost use Rattle.r3_entry.specs.Image.{IsHistoryOf};
ghost use Rattle.r3_store.specs.Holds.{Stands};
ghost use Rattle.r3_exec.specs.Does.{SyncsWithin};
ghost use Rattle.r3_recover.specs.Opened.{HasOpened, HasProgram, HasCause, IsHalted, IsNoneOf, WasRead};
ghost use Rattle.r3_recover.specs.Recovering.{IsTaken, told_fault};

use crate::beginning::begin_exec;
use crate::ends::StartFault;
use crate::recovering::recover_exec;
use fn_tree::checked::Checked;
use r3_desk::Desk;
use r3_entry::one_history;
use r3_exec::Exec;
use r3_store::{OpenFault, Store};
use std::alloc::Global;

// The store's fault, as the opening tells it.
fn start_fault(fault: OpenFault) -> StartFault
    ensures { result ≡ told_fault fault }
{
    match fault {
        OpenFault::Disk => StartFault::Disk,
        OpenFault::Memory => StartFault::Memory,
        OpenFault::NotStore => StartFault::Store(OpenFault::NotStore),
        OpenFault::Damaged { entry } => StartFault::Store(OpenFault::Damaged { entry }),
        OpenFault::NotFormed { entry } => StartFault::Store(OpenFault::NotFormed { entry }),
    }
}

// Whether a store that isn't empty was begun with this text.
fn has_program(store: &Store, text: &str) -> bool
    ensures { (h : List Entry) → Stands store.now h → h ≢ [] → (result ≡ true → HasProgram h text.now) × (HasProgram h text.now → result ≡ true) }
{
    match store.programs() {
        [(number, first)] => *number == 1 && first.as_str() == text,
        _ => false,
    }
}

// Another program's store is let go.
fn refuse(_store: Store, _program: Checked) {}

// What is opened is begun or recovered, where it has this program.
fn take_up<D: Desk>(
    alloc: Global,
    desk: &mut D,
    store: Store,
    program: Checked,
    text: &str,
) -> Result<Exec, StartFault>
    requires short { length text.now ≤ 1048576 }
    requires taken { (from : D) × (h : List Entry)
        × IsTaken D.size D.image D.may_leave D.moment D.reach D.said D.asked D.syncs from desk.old store h }
    ensures does { (from : D) (h : List Entry) →
        IsTaken D.size D.image D.may_leave D.moment D.reach D.said D.asked D.syncs from desk.old store h →
        IfOk result (λ exec. HasOpened D.size D.image D.may_leave D.moment D.reach D.said D.asked D.syncs
        from desk.new exec text.now) }
    ensures crash { (from : D) (h : List Entry) →
        IsTaken D.size D.image D.may_leave D.moment D.reach D.said D.asked D.syncs from desk.old store h →
        LeavesImage D.moment D.reach D.may_leave D.said D.asked from desk.new (IsHistoryOf h) }
    ensures reads { (from : D) (h : List Entry) →
        IsTaken D.size D.image D.may_leave D.moment D.reach D.said D.asked D.syncs from desk.old store h →
        ForSome (D.image desk.new) (IsHistoryOf h) }
    ensures other_alone { result ≡ Err StartFault.Other → desk.new ≡ desk.old }
    ensures not_store { (fault : _) → result ≡ Err (StartFault.Store fault) → ⊥ }
    ensures program { IfOk result (λ exec. exec.program ≡ program) }
    ensures few_syncs { SyncsWithin (D.syncs desk.old) (D.syncs desk.new) 1 }
    ensures other { (h : List Entry) → Stands store h → (HasProgram h text.now → ⊥) → result ≡ Err StartFault.Other }
    ensures opens { (h : List Entry) → Stands store h → HasProgram h text.now → IfErr result IsHalted }
    ensures disk { IsErrOf result StartFault.Disk → Rose (D.disk_faults desk.old) (D.disk_faults desk.new) }
    ensures no_fault { (IsErrOf result StartFault.Disk → ⊥) → D.disk_faults desk.new ≡ D.disk_faults desk.old }
    ensures said { D.said desk.new ≡ D.said desk.old }
    ensures asked { D.asked desk.new ≡ D.asked desk.old }
    ensures say_faults { D.say_faults desk.new ≡ D.say_faults desk.old }
    ensures ask_faults { D.ask_faults desk.new ≡ D.ask_faults desk.old }
{
    if store.len() == 0 {
        return begin_exec(alloc, desk, store, program, text);
    }
    if !has_program(&store, text) {
        refuse(store, program);
        return Err(StartFault::Other);
    }
    recover_exec(alloc, desk, store, program)
}

// The program isn't wanted.
fn let_go(_program: Checked) {}

/// Takes up the store that the file is, with the program that it was begun with, whose text this is.
///
/// To an empty store the program is appended. Else each running workflow is recovered, the first started
/// first; where there is no more room, it stays as it is.
pub fn open_exec<D: Desk>(
    alloc: Global,
    desk: &mut D,
    program: Checked,
    text: &str,
) -> Result<Exec, StartFault>
    requires pending { NothingPending (D.image desk.old) (D.may_leave desk.old) }
    requires short { length text.now ≤ 1048576 }
    ensures does { IfOk result (λ exec. HasOpened D.size D.image D.may_leave D.moment D.reach D.said D.asked D.syncs
        desk.old desk.new exec text.now) }
    ensures program { IfOk result (λ exec. exec.program ≡ program) }
    ensures causes { IfErr result (HasCause (D.image desk.old) text.now) }

    // No other answer comes where the image is told, but for a disk that fails and want of memory.
    ensures other { (h : List Entry) → ForSome (D.image desk.old) (λ i. IsHistoryOf h i → (HasProgram h text.now → ⊥) →
        IsErrAnd result (λ fault. (fault ≡ StartFault.Other) ⊎ IsHalted fault)) }
    ensures opens { (h : List Entry) → ForSome (D.image desk.old) (λ i. IsHistoryOf h i → HasProgram h text.now →
        IfErr result IsHalted) }

    // Whatever it comes to, a crash leaves the history that was there, and so reads the disk.
    ensures crash { (h : List Entry) → ForSome (D.image desk.old) (λ i. IsHistoryOf h i →
        LeavesImage D.moment D.reach D.may_leave D.said D.asked desk.old desk.new (IsHistoryOf h)) }
    ensures reads { (h : List Entry) → ForSome (D.image desk.old) (λ i. IsHistoryOf h i →
        ForSome (D.image desk.new) (IsHistoryOf h)) }
    ensures kept { (fault : _) → result ≡ Err (StartFault.Store fault) → D.image desk.new ≡ D.image desk.old }
    ensures other_kept { result ≡ Err StartFault.Other → D.image desk.new ≡ D.image desk.old }

    // Where the file is no store, or one of another program, it is left alone, whatever is answered.
    ensures alone { ForSome (D.image desk.old) (λ i. IsNoneOf text.now i →
        WasRead D.image D.may_leave D.moment D.reach D.said D.asked D.syncs desk.old desk.new) }

    // The header of a new file costs a sync, and nothing else does.
    ensures few_syncs { SyncsWithin (D.syncs desk.old) (D.syncs desk.new) 1 }
    ensures store_syncs { (fault : _) → result ≡ Err (StartFault.Store fault) → D.syncs desk.new ≡ D.syncs desk.old }
    ensures other_syncs { result ≡ Err StartFault.Other → D.syncs desk.new ≡ D.syncs desk.old }
    ensures disk { IsErrOf result StartFault.Disk → Rose (D.disk_faults desk.old) (D.disk_faults desk.new) }
    ensures no_fault { (IsErrOf result StartFault.Disk → ⊥) → D.disk_faults desk.new ≡ D.disk_faults desk.old }
    ensures said { D.said desk.new ≡ D.said desk.old }
    ensures asked { D.asked desk.new ≡ D.asked desk.old }
    ensures say_faults { D.say_faults desk.new ≡ D.say_faults desk.old }
    ensures ask_faults { D.ask_faults desk.new ≡ D.ask_faults desk.old }
{
    one_history();
    match Store::open(alloc, desk) {
        Ok(store) => take_up(alloc, desk, store, program, text),
        Err(fault) => {
            let_go(program);
            Err(start_fault(fault))
        }
    }
}
