//! Which rule of a part is taken.

ghost use Rattle.std.specs.Prelude.{◌≡◌, ◌∷◌, [], MatchOption, IfSome, Some, None, map};
ghost use Rattle.fn_grammar.specs.Steps.{starts, chosen};
ghost use Rattle.fn_grammar.specs.Written.{seen, IsToken};

use crate::letter::{Letter, fits, is_terminal};
use crate::symbol::Symbol;

/// A rule that this symbol leads may be taken before the next token.
fn leads(symbol: Symbol, next: Option<Letter>) -> bool
    requires { IfSome next IsToken }
    ensures { result ≡ starts (symbol ∷ []) (seen next.entry) }
{
    if is_terminal(symbol) {
        match next {
            None => false,
            Some(letter) => fits(symbol, letter),
        }
    } else {
        true
    }
}

/// The rule may be taken before the next token.
#[tactic(auto, using(crate::proofs::ChoiceLemmas::starts_lead))]
fn starts(rule: &[Symbol], next: Option<Letter>) -> bool
    requires { IfSome next IsToken }
    ensures { result ≡ starts rule.now (seen next.entry) }
{
    match rule {
        [] => true,
        [s, _behind @ ..] => leads(*s, next),
    }
}

/// The first of the rules that may be taken before the next token.
pub fn choose(
    rules: &'static [&'static [Symbol]],
    next: Option<Letter>,
) -> Option<&'static [Symbol]>
    requires { IfSome next IsToken }
    ensures { MatchOption result (chosen (map (λ r. r.now) rules.now) (seen next.entry) ≡ None)
        (λ r. chosen (map (λ r. r.now) rules.now) (seen next.entry) ≡ Some r.now) }
{
    for rule in rules {
        if starts(*rule, next) {
            return Some(*rule);
        }
    }
    None
}
