//! Opening a store.

ghost use Rattle.std.specs.Prelude.{◌≡◌, ◌⊎◌, ◌<◌, List, ℕ, Err, Some, IfOk, IfErr, IsErrOf, IsErrAnd, MatchResult};
ghost use Rattle.std.specs.Option.{ForSome};
ghost use Rattle.r3_desk.specs.Crash.{NothingPending};
ghost use Rattle.r3_desk.specs.Causes.{Rose};
ghost use Rattle.r3_desk.specs.Moments.{LeavesImage};
ghost use Rattle.r3_entry.specs.declared.entry.Entry.{Entry};
ghost use Rattle.r3_entry.specs.Image.{IsHistoryOf};
ghost use Rattle.r3_gate.specs.Log.{IsForeign, IsDamaged};
ghost use Rattle.r3_store.specs.Opened.{Reads, IsUnformed, IsStopped, IsCaused, open_fault, formed_fault};

use crate::fault::OpenFault;
use r3_desk::Desk;
use r3_entry::{beginnings_are_formed, one_spelling};
use r3_formed::{LoadFault, Loaded, load};
use r3_gate::{Gate, GateFault};
use std::alloc::Global;

fn fault_of(fault: GateFault) -> OpenFault
    ensures { result ≡ open_fault fault }
{
    match fault {
        GateFault::NotStore => OpenFault::NotStore,
        GateFault::Damaged { entry } => OpenFault::Damaged { entry },
        GateFault::Disk => OpenFault::Disk,
        GateFault::Full { limit: _ } => OpenFault::Memory,
        GateFault::Memory => OpenFault::Memory,
    }
}

fn fault_of_load(fault: LoadFault) -> OpenFault
    ensures same { result ≡ formed_fault fault }
    ensures disk { result ≡ OpenFault.Disk → ⊥ }
{
    match fault {
        LoadFault::NotFormed { entry } => OpenFault::NotFormed { entry },
        LoadFault::Memory => OpenFault::Memory,
    }
}

/// Reads the history that the file is, and checks each entry against those before it. It writes nothing.
pub fn read_history<D: Desk>(
    alloc: Global,
    desk: &mut D,
    keep: bool,
) -> Result<(Gate, Loaded), OpenFault>
    requires { NothingPending (D.image desk.old) (D.may_leave desk.old) }
    ensures ok { IfOk result (λ r.
        (h : List Entry) × Reads D.size D.image D.may_leave desk.new r.0 r.1 keep h) }
    ensures causes { IfErr result (IsCaused (D.image desk.old)) }
    ensures on_history { (h : List Entry) → ForSome (D.image desk.old) (λ i. IsHistoryOf h i →
        MatchResult result (λ r. Reads D.size D.image D.may_leave desk.new r.0 r.1 keep h) IsStopped) }
    ensures on_foreign { ForSome (D.image desk.old) (λ i. IsForeign i →
        IsErrAnd result (λ f. (f ≡ OpenFault.NotStore) ⊎ IsStopped f)) }
    ensures on_damaged { (k : ℕ) → ForSome (D.image desk.old) (λ i. IsDamaged i k →
        IsErrAnd result (λ f. (f ≡ OpenFault.Damaged k) ⊎ IsStopped f)) }
    ensures on_unformed { (k : ℕ) → ForSome (D.image desk.old) (λ i. IsUnformed i k →
        IsErrAnd result (λ f. (f ≡ OpenFault.NotFormed k) ⊎ IsStopped f)) }
    ensures crash { LeavesImage D.moment D.reach D.may_leave D.said D.asked desk.old desk.new
        (λ c. D.image desk.old ≡ Some c) }
    ensures quiet { NothingPending (D.image desk.new) (D.may_leave desk.new) }
    ensures image { D.image desk.new ≡ D.image desk.old }
    ensures syncs { D.syncs desk.new ≡ D.syncs desk.old }
    ensures disk { IsErrOf result OpenFault.Disk →
        Rose (D.disk_faults desk.old) (D.disk_faults desk.new) }
    ensures no_fault { (IsErrOf result OpenFault.Disk → ⊥) →
        D.disk_faults desk.new ≡ D.disk_faults desk.old }
    ensures said { D.said desk.new ≡ D.said desk.old }
    ensures asked { D.asked desk.new ≡ D.asked desk.old }
    ensures say_faults { D.say_faults desk.new ≡ D.say_faults desk.old }
    ensures ask_faults { D.ask_faults desk.new ≡ D.ask_faults desk.old }
{
    one_spelling();
    beginnings_are_formed();
    let (gate, payloads) = match Gate::open(alloc, desk) {
        Ok(opened) => opened,
        Err(fault) => return Err(fault_of(fault)),
    };
    match load(alloc, &payloads.list, keep) {
        Ok(loaded) => Ok((gate, loaded)),
        Err(fault) => Err(fault_of_load(fault)),
    }
}
