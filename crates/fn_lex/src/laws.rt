//! What holds of a text's tokens. The functions have no code: their contracts are the laws.

ghost use Rattle.std.specs.Prelude.{◌≡◌, ℕ, List, Option};
ghost use Rattle.std.specs.List.{AllByRecursion};
ghost use Rattle.fn_lex.specs.Lexed.{Lexed, IsSlice, AreInOrder};
ghost use Rattle.fn_lex.specs.declared.span.Token.{Token as Span};

/// A text has one list of tokens, and one first bad place or none.
pub fn one_reading()
    ensures { (text : List ℕ) (ts us : List Span) (bad worse : Option ℕ) → Lexed 0 text ts bad → Lexed 0 text us worse → (ts ≡ us) × (bad ≡ worse) }
{}

/// A token is the slice of its span, the longest lexeme at its place, and keeps the limits of its kind.
pub fn spans_are_slices()
    ensures { (text : List ℕ) (ts : List Span) (bad : Option ℕ) → Lexed 0 text ts bad → AllByRecursion (IsSlice text) ts }
{}

/// Tokens stand in order and don't overlap.
pub fn spans_are_in_order()
    ensures { (text : List ℕ) (ts : List Span) (bad : Option ℕ) → Lexed 0 text ts bad → AreInOrder 0 ts }
{}
