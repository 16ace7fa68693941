//! Making commits lasting.

ghost use Rattle.std.specs.Prelude.{◌+◌, ◌<◌, take, Ok, Err, ◌≡◌, ◌⊎◌, List, ℕ, length, OnOk, OnErr, IsErrOf};
ghost use Rattle.std.specs.Option.{option_map, ForSome};
ghost use Rattle.r3_desk.specs.Causes.{Rose};
ghost use Rattle.r3_desk.specs.Moments.{LeavesImage};
ghost use Rattle.r3_entry.specs.declared.entry.Entry.{Entry};
ghost use Rattle.r3_entry.specs.Image.{IsHistoryOf};
ghost use Rattle.r3_store.specs.Holds.{Holds};

use crate::Store;
use crate::fault::CommitFault;
use r3_desk::Desk;
use r3_entry::Entry;
use r3_gate::reads_as_published;

impl Store {
    /// Makes all commits lasting. It takes no memory. After `Disk` the store isn't used again: open it
    /// anew.
    pub fn settle<D: Desk>(&mut self, desk: &mut D) -> Result<(), CommitFault>
        requires { (h : List Entry) × (k : ℕ)
            × Holds D.size D.image D.may_leave desk.old self.old h k }
        ensures settled { (h : List Entry) (k : ℕ) →
            Holds D.size D.image D.may_leave desk.old self.old h k →
            OnOk result (Holds D.size D.image D.may_leave desk.new self.new h (length h)) }
        ensures pins { self.new.pins ≡ self.old.pins }

        // Where all is settled already, nothing is written or synced.
        ensures idle { (h : List Entry) →
            Holds D.size D.image D.may_leave desk.old self.old h (length h) →
            (result ≡ Ok tt) × (self.new ≡ self.old) × (desk.new ≡ desk.old) }

        // A crash at any moment leaves what was settled, with all commits since or without.
        ensures crash { (h : List Entry) (k : ℕ) →
            Holds D.size D.image D.may_leave desk.old self.old h k →
            LeavesImage D.moment D.reach D.may_leave D.said D.asked desk.old desk.new
            (λ c. IsHistoryOf (take k h) c ⊎ IsHistoryOf h c) }
        ensures reads { (h : List Entry) (k : ℕ) →
            Holds D.size D.image D.may_leave desk.old self.old h k →
            ForSome (D.image desk.new) (λ i. IsHistoryOf (take k h) i ⊎ IsHistoryOf h i) }
        ensures only_disk { OnErr result (result ≡ Err CommitFault.Disk) }
        ensures disk { IsErrOf result CommitFault.Disk →
            Rose (D.disk_faults desk.old) (D.disk_faults desk.new) }
        ensures no_fault { (IsErrOf result CommitFault.Disk → ⊥) →
            D.disk_faults desk.new ≡ D.disk_faults desk.old }
        ensures at_most { (D.syncs desk.new ≡ D.syncs desk.old)
            ⊎ (D.syncs desk.new ≡ option_map (λ n. n + 1) (D.syncs desk.old))
            ⊎ (D.syncs desk.new ≡ option_map (λ n. n + 2) (D.syncs desk.old)) }
        ensures said { D.said desk.new ≡ D.said desk.old }
        ensures asked { D.asked desk.new ≡ D.asked desk.old }
        ensures say_faults { D.say_faults desk.new ≡ D.say_faults desk.old }
        ensures ask_faults { D.ask_faults desk.new ≡ D.ask_faults desk.old }
    {
        reads_as_published::<D>();
        if !self.gate.has_staged() {
            return Ok(());
        }
        match self.gate.publish(desk) {
            Ok(()) => Ok(()),
            Err(_) => Err(CommitFault::Disk),
        }
    }
}
