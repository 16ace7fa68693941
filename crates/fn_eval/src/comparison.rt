//! Operators that give a Bool.

ghost use Rattle.std.specs.Prelude.{◌≡◌, IfOk};
ghost use Rattle.fn_tree.specs.Comparison as meaning;

use crate::operand::{bool_of, type_failure};
use r3_value::{Memory, Outcome, Val};
use std::alloc::Global;

#[tactic(auto, unfolding(fn_tree::specs::Comparison::equal))]
pub fn equal(_alloc: Global, a: Val, b: Val) -> Result<Outcome, Memory>
    ensures { IfOk result (λ o. o ≡ meaning.equal a b) }
{
    Ok(Outcome::Value(Val::Bool(a == b)))
}

#[tactic(auto, unfolding(fn_tree::specs::Comparison::unequal))]
pub fn unequal(_alloc: Global, a: Val, b: Val) -> Result<Outcome, Memory>
    ensures { IfOk result (λ o. o ≡ meaning.unequal a b) }
{
    let same = a == b;
    Ok(Outcome::Value(Val::Bool(!same)))
}

#[tactic(auto, unfolding(fn_tree::specs::Comparison::less))]
pub fn less(alloc: Global, a: Val, b: Val) -> Result<Outcome, Memory>
    ensures { IfOk result (λ o. o ≡ meaning.less a b) }
{
    match (&a, &b) {
        (Val::Int(x), Val::Int(y)) => Ok(Outcome::Value(Val::Bool(*x < *y))),
        (Val::Text(s), Val::Text(t)) => Ok(Outcome::Value(Val::Bool(bytes_lt(
            s.as_str().as_bytes(),
            t.as_str().as_bytes(),
        )))),
        _ => type_failure(alloc),
    }
}

#[tactic(auto, unfolding(fn_tree::specs::Comparison::less_or_equal))]
pub fn less_or_equal(alloc: Global, a: Val, b: Val) -> Result<Outcome, Memory>
    ensures { IfOk result (λ o. o ≡ meaning.less_or_equal a b) }
{
    match (&a, &b) {
        (Val::Int(x), Val::Int(y)) => Ok(Outcome::Value(Val::Bool(*x <= *y))),
        (Val::Text(s), Val::Text(t)) => Ok(Outcome::Value(Val::Bool(!bytes_lt(
            t.as_str().as_bytes(),
            s.as_str().as_bytes(),
        )))),
        _ => type_failure(alloc),
    }
}

#[tactic(auto, unfolding(fn_tree::specs::Comparison::greater))]
pub fn greater(alloc: Global, a: Val, b: Val) -> Result<Outcome, Memory>
    ensures { IfOk result (λ o. o ≡ meaning.greater a b) }
{
    match (&a, &b) {
        (Val::Int(x), Val::Int(y)) => Ok(Outcome::Value(Val::Bool(*y < *x))),
        (Val::Text(s), Val::Text(t)) => Ok(Outcome::Value(Val::Bool(bytes_lt(
            t.as_str().as_bytes(),
            s.as_str().as_bytes(),
        )))),
        _ => type_failure(alloc),
    }
}

#[tactic(auto, unfolding(fn_tree::specs::Comparison::greater_or_equal))]
pub fn greater_or_equal(alloc: Global, a: Val, b: Val) -> Result<Outcome, Memory>
    ensures { IfOk result (λ o. o ≡ meaning.greater_or_equal a b) }
{
    match (&a, &b) {
        (Val::Int(x), Val::Int(y)) => Ok(Outcome::Value(Val::Bool(*y <= *x))),
        (Val::Text(s), Val::Text(t)) => Ok(Outcome::Value(Val::Bool(!bytes_lt(
            s.as_str().as_bytes(),
            t.as_str().as_bytes(),
        )))),
        _ => type_failure(alloc),
    }
}

#[tactic(auto, unfolding(fn_tree::specs::Comparison::inverted))]
pub fn inverted(alloc: Global, a: Val) -> Result<Outcome, Memory>
    ensures { IfOk result (λ o. o ≡ meaning.inverted a) }
{
    match bool_of(&a) {
        Some(b) => Ok(Outcome::Value(Val::Bool(!b))),
        None => type_failure(alloc),
    }
}

#[tactic(auto, unfolding(fn_tree::specs::Comparison::truth))]
pub fn truth(alloc: Global, a: Val) -> Result<Outcome, Memory>
    ensures { IfOk result (λ o. o ≡ meaning.truth a) }
{
    match bool_of(&a) {
        Some(b) => Ok(Outcome::Value(Val::Bool(b))),
        None => type_failure(alloc),
    }
}

// The first text stands before the second in byte order.
fn bytes_lt(s: &[u8], t: &[u8]) -> bool
    ensures { result ≡ meaning.bytes_lt s.now t.now }
{
    match t {
        [] => false,
        [y, t @ ..] => match s {
            [] => true,
            [x, s @ ..] => *x < *y || *x == *y && bytes_lt(s, t),
        },
    }
}
