//! Laws of the definitions: each is the contract of a function that does nothing.

ghost use Rattle.std.specs.Prelude.{◌≡◌, ℕ, List, Some, take};
ghost use Rattle.r3_entry.specs.Formed.{Follows};
ghost use Rattle.r3_entry.specs.declared.entry.Entry.{Entry};
ghost use Rattle.r3_entry.specs.Image.{IsHistoryOf};
ghost use Rattle.r3_store.specs.Holds.{Holds, MayFollow, SameStore, Stands};
ghost use Rattle.r3_store.specs.declared.store.Store.{Store};

use r3_desk::Desk;
use r3_gate::reads_as_published;

/// Whatever was committed since, a read gives what was settled, and so does a crash.
pub fn reads_as_settled<D: Desk>()
    ensures read { (desk : D) (store : Store) (h : List Entry) (k : ℕ) (image : List ℕ) →
        Holds D.size D.image D.may_leave desk store h k →
        D.image desk ≡ Some image → IsHistoryOf (take k h) image }
    ensures crash { (desk : D) (store : Store) (h : List Entry) (k : ℕ) (image : List ℕ) →
        Holds D.size D.image D.may_leave desk store h k →
        D.may_leave desk image → IsHistoryOf (take k h) image }
{
    reads_as_published::<D>();
}

/// What is held goes on where the desk's disk stays as it is, as it does while bytes are said and calls are
/// asked.
pub fn holds_beside_the_disk<D: Desk>()
    ensures { (old new : D) (store : Store) (h : List Entry) (k : ℕ) →
        D.size new ≡ D.size old → D.image new ≡ D.image old →
        ((image : List ℕ) → D.may_leave new image → D.may_leave old image) →
        Holds D.size D.image D.may_leave old store h k →
        Holds D.size D.image D.may_leave new store h k }
{}

/// And where the store's memory alone changes: pins, versions that nobody reads, and all that a refused
/// commit leaves.
pub fn holds_in_memory<D: Desk>()
    ensures gate { (desk : D) (old new : Store) (h : List Entry) (k : ℕ) →
        new.gate ≡ old.gate → Stands new h →
        Holds D.size D.image D.may_leave desk old h k →
        Holds D.size D.image D.may_leave desk new h k }
    ensures same { (desk : D) (old new : Store) (h : List Entry) (k : ℕ) →
        SameStore old new →
        Holds D.size D.image D.may_leave desk old h k →
        Holds D.size D.image D.may_leave desk new h k }
{}

/// What may follow a history by all rules may follow it but for a conflict.
pub fn may_follow()
    ensures { (h : List Entry) (e : Entry) → Follows h e → MayFollow h e }
{}
