//! Laws of the log's bytes.

ghost use Rattle.std.specs.Prelude.{◌≡◌, ℕ, List, Some};
ghost use Rattle.r3_gate.specs.Gate.{Tracks};
ghost use Rattle.r3_gate.specs.Log.{IsLog, IsForeign, IsDamaged};
ghost use Rattle.r3_gate.specs.declared.gate.Gate.{Gate};

use r3_desk::Desk;

/// An image is the log of at most one list of payloads.
pub fn one_list()
    ensures { (image : List ℕ) (ps qs : List (List ℕ)) →
        IsLog image ps → IsLog image qs → ps ≡ qs }
{}

/// An image is damaged at one record at most.
pub fn one_damage()
    ensures { (image : List ℕ) (j k : ℕ) → IsDamaged image j → IsDamaged image k → j ≡ k }
{}

/// An image is one of three at most: a log, damaged, or no log.
pub fn one_verdict()
    ensures log_not_damaged { (image : List ℕ) (ps : List (List ℕ)) (k : ℕ) →
        IsLog image ps → IsDamaged image k → ⊥ }
    ensures log_not_foreign { (image : List ℕ) (ps : List (List ℕ)) →
        IsLog image ps → IsForeign image → ⊥ }
    ensures damaged_not_foreign { (image : List ℕ) (k : ℕ) →
        IsDamaged image k → IsForeign image → ⊥ }
{}

/// Whatever is staged, a read gives the log of the committed payloads, and so does a crash.
pub fn reads_as_published<D: Desk>()
    ensures read { (desk : D) (gate : Gate) (ps qs : List (List ℕ)) (image : List ℕ) →
        Tracks D.size D.image D.may_leave desk gate ps qs →
        D.image desk ≡ Some image → IsLog image ps }
    ensures crash { (desk : D) (gate : Gate) (ps qs : List (List ℕ)) (image : List ℕ) →
        Tracks D.size D.image D.may_leave desk gate ps qs →
        D.may_leave desk image → IsLog image ps }
{}
