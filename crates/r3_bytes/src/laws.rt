//! Laws of the spelling.

ghost use Rattle.std.specs.Prelude.{◌≡◌, ◌++◌, ℕ, List};
ghost use Rattle.r3_value.specs.Value.{Value};
ghost use Rattle.r3_value.specs.declared.value.Outcome.{Outcome};
ghost use Rattle.r3_bytes.specs.Spelling as spell;

/// A field has one spelling, and no spelling begins another.
///
/// So what was written is read again, whatever follows it, and fields that stand one after the other need
/// no mark between them.
pub fn one_spelling()
    ensures byte { (m n : ℕ) (a b : List ℕ) → spell.byte m ++ a ≡ spell.byte n ++ b → (m ≡ n) × (a ≡ b) }
    ensures number { (m n : ℕ) (a b : List ℕ) → spell.IsNumber m → spell.IsNumber n → spell.number m ++ a ≡ spell.number n ++ b → (m ≡ n) × (a ≡ b) }
    ensures text { (s t a b : List ℕ) → spell.IsText s → spell.IsText t → spell.string s ++ a ≡ spell.string t ++ b → (s ≡ t) × (a ≡ b) }
    ensures value { (v w : Value) (a b : List ℕ) → spell.IsValueTo 16 v → spell.IsValueTo 16 w → spell.value v ++ a ≡ spell.value w ++ b → (v ≡ w) × (a ≡ b) }
    ensures outcome { (o p : Outcome) (a b : List ℕ) → spell.IsOutcome o → spell.IsOutcome p → spell.outcome o ++ a ≡ spell.outcome p ++ b → (o ≡ p) × (a ≡ b) }
{}
