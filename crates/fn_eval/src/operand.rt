//! The parts of values that operators need, and the words of failures.

ghost use Rattle.std.specs.Prelude.{◌≡◌, IfOk};
ghost use Rattle.fn_tree.specs.Arithmetic as meaning;
ghost use Rattle.fn_tree.specs.Values as values;

use r3_value::{Memory, Outcome, Txt, Val};
use std::alloc::Global;

pub fn int_of(v: &Val) -> Option<i64>
    ensures { result ≡ values.int_of v.now }
{
    match v {
        Val::Int(z) => Some(*z),
        _ => None,
    }
}

pub fn bool_of(v: &Val) -> Option<bool>
    ensures { result ≡ values.bool_of v.now }
{
    match v {
        Val::Bool(b) => Some(*b),
        _ => None,
    }
}

pub fn failure(alloc: Global, word: &str) -> Result<Outcome, Memory>
    ensures { IfOk result (λ o. o ≡ Outcome.Failure word.now) }
{
    match Txt::new(alloc, word) {
        Ok(word) => Ok(Outcome::Failure(word)),
        Err(_) => Err(Memory),
    }
}

#[tactic(auto, unfolding(fn_tree::specs::Arithmetic::type_failure))]
pub fn type_failure(alloc: Global) -> Result<Outcome, Memory>
    ensures { IfOk result (λ o. o ≡ meaning.type_failure) }
{
    failure(alloc, "type")
}
