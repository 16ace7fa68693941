//! Opening a store, and reading its history alone.

ghost use Rattle.std.specs.Prelude.{◌<◌, Err, ◌≡◌, ◌⊎◌, List, ℕ, Some, IfOk, IfErr, IsErrOf, IsErrAnd, MatchResult};
ghost use Rattle.std.specs.Option.{ForSome};
ghost use Rattle.r3_desk.specs.Crash.{NothingPending};
ghost use Rattle.r3_desk.specs.Causes.{Rose};
ghost use Rattle.r3_desk.specs.Moments.{LeavesImage};
ghost use Rattle.r3_entry.specs.declared.entry.Entry.{Entry};
ghost use Rattle.r3_entry.specs.Formed.{IsFormed};
ghost use Rattle.r3_entry.specs.Image.{IsHistoryOf};
ghost use Rattle.r3_gate.specs.Log.{IsForeign, IsDamaged};
ghost use Rattle.r3_store.specs.Holds.{Stands};
ghost use Rattle.r3_store.specs.Opened.{Opens, IsUnformed, IsStopped, IsCaused};

use crate::Store;
use crate::fault::OpenFault;
use crate::open::read_history;
use r3_desk::Desk;
use r3_entry::Entry;
use r3_formed::Loaded;
use r3_snap::Pins;
use std::alloc::Global;

impl Store {
    /// Opens the store that the file is. It reads the file once and writes nothing.
    pub fn open<D: Desk>(alloc: Global, desk: &mut D) -> Result<Store, OpenFault>
        requires { NothingPending (D.image desk.old) (D.may_leave desk.old) }
        ensures ok { IfOk result (λ s.
            (h : List Entry) × Opens D.size D.image D.may_leave desk.new s h) }
        ensures causes { IfErr result (IsCaused (D.image desk.old)) }

        // No other answer comes where the image is told, but for a disk that fails and want of memory.
        ensures on_history { (h : List Entry) → ForSome (D.image desk.old) (λ i. IsHistoryOf h i →
            MatchResult result (λ s. Stands s h) IsStopped) }
        ensures on_foreign { ForSome (D.image desk.old) (λ i. IsForeign i →
            IsErrAnd result (λ f. (f ≡ OpenFault.NotStore) ⊎ IsStopped f)) }
        ensures on_damaged { (k : ℕ) → ForSome (D.image desk.old) (λ i. IsDamaged i k →
            IsErrAnd result (λ f. (f ≡ OpenFault.Damaged k) ⊎ IsStopped f)) }
        ensures on_unformed { (k : ℕ) → ForSome (D.image desk.old) (λ i. IsUnformed i k →
            IsErrAnd result (λ f. (f ≡ OpenFault.NotFormed k) ⊎ IsStopped f)) }

        // A crash leaves what a read gives.
        ensures crash { LeavesImage D.moment D.reach D.may_leave D.said D.asked desk.old desk.new
            (λ c. D.image desk.old ≡ Some c) }
        ensures quiet { NothingPending (D.image desk.new) (D.may_leave desk.new) }
        ensures image { D.image desk.new ≡ D.image desk.old }
        ensures syncs { D.syncs desk.new ≡ D.syncs desk.old }
        ensures disk { IsErrOf result OpenFault.Disk →
            Rose (D.disk_faults desk.old) (D.disk_faults desk.new) }
        ensures no_fault { (IsErrOf result OpenFault.Disk → ⊥) →
            D.disk_faults desk.new ≡ D.disk_faults desk.old }
        ensures said { D.said desk.new ≡ D.said desk.old }
        ensures asked { D.asked desk.new ≡ D.asked desk.old }
        ensures say_faults { D.say_faults desk.new ≡ D.say_faults desk.old }
        ensures ask_faults { D.ask_faults desk.new ≡ D.ask_faults desk.old }
    {
        let (gate, loaded) = match read_history(alloc, desk, false) {
            Ok(read) => read,
            Err(fault) => return Err(fault),
        };
        let Loaded {
            chains,
            entries: _,
            texts,
        } = loaded;
        Ok(Store {
            gate,
            chains,
            pins: Pins::new(alloc),
            oldest: 0,
            texts,
        })
    }

    /// The entries of the store that the file is. It writes nothing.
    pub fn history<D: Desk>(alloc: Global, desk: &mut D) -> Result<Vec<Entry>, OpenFault>
        requires { NothingPending (D.image desk.old) (D.may_leave desk.old) }
        ensures ok { IfOk result (λ es.
            IsFormed es.items × ForSome (D.image desk.old) (IsHistoryOf es.items)) }
        ensures causes { IfErr result (IsCaused (D.image desk.old)) }

        // No other answer comes where the image is told, but for a disk that fails and want of memory.
        ensures on_history { (h : List Entry) → ForSome (D.image desk.old) (λ i. IsHistoryOf h i →
            MatchResult result (λ es. es.items ≡ h) IsStopped) }
        ensures on_foreign { ForSome (D.image desk.old) (λ i. IsForeign i →
            IsErrAnd result (λ f. (f ≡ OpenFault.NotStore) ⊎ IsStopped f)) }
        ensures on_damaged { (k : ℕ) → ForSome (D.image desk.old) (λ i. IsDamaged i k →
            IsErrAnd result (λ f. (f ≡ OpenFault.Damaged k) ⊎ IsStopped f)) }
        ensures on_unformed { (k : ℕ) → ForSome (D.image desk.old) (λ i. IsUnformed i k →
            IsErrAnd result (λ f. (f ≡ OpenFault.NotFormed k) ⊎ IsStopped f)) }

        // A crash leaves what a read gives.
        ensures crash { LeavesImage D.moment D.reach D.may_leave D.said D.asked desk.old desk.new
            (λ c. D.image desk.old ≡ Some c) }
        ensures quiet { NothingPending (D.image desk.new) (D.may_leave desk.new) }
        ensures image { D.image desk.new ≡ D.image desk.old }
        ensures syncs { D.syncs desk.new ≡ D.syncs desk.old }
        ensures disk { IsErrOf result OpenFault.Disk →
            Rose (D.disk_faults desk.old) (D.disk_faults desk.new) }
        ensures no_fault { (IsErrOf result OpenFault.Disk → ⊥) →
            D.disk_faults desk.new ≡ D.disk_faults desk.old }
        ensures said { D.said desk.new ≡ D.said desk.old }
        ensures asked { D.asked desk.new ≡ D.asked desk.old }
        ensures say_faults { D.say_faults desk.new ≡ D.say_faults desk.old }
        ensures ask_faults { D.ask_faults desk.new ≡ D.ask_faults desk.old }
    {
        let (_, loaded) = match read_history(alloc, desk, true) {
            Ok(read) => read,
            Err(fault) => return Err(fault),
        };
        let Loaded {
            chains: _,
            entries,
            texts: _,
        } = loaded;
        Ok(entries)
    }
}
