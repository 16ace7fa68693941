//! Operators on Ints.

ghost use Rattle.std.specs.Prelude.{◌≡◌, IfOk};
ghost use Rattle.fn_tree.specs.Arithmetic as meaning;

use crate::operand::{failure, int_of, type_failure};
use r3_value::{Memory, Outcome, Val};
use std::alloc::Global;

#[tactic(auto, unfolding(fn_tree::specs::Arithmetic::sum))]
pub fn sum(alloc: Global, a: Val, b: Val) -> Result<Outcome, Memory>
    ensures { IfOk result (λ o. o ≡ meaning.sum a b) }
{
    match (int_of(&a), int_of(&b)) {
        (Some(x), Some(y)) => match x.checked_add(y) {
            Some(z) => Ok(Outcome::Value(Val::Int(z))),
            None => failure(alloc, "overflow"),
        },
        _ => type_failure(alloc),
    }
}

#[tactic(auto, unfolding(fn_tree::specs::Arithmetic::difference))]
pub fn difference(alloc: Global, a: Val, b: Val) -> Result<Outcome, Memory>
    ensures { IfOk result (λ o. o ≡ meaning.difference a b) }
{
    match (int_of(&a), int_of(&b)) {
        (Some(x), Some(y)) => match x.checked_sub(y) {
            Some(z) => Ok(Outcome::Value(Val::Int(z))),
            None => failure(alloc, "overflow"),
        },
        _ => type_failure(alloc),
    }
}

#[tactic(auto, unfolding(fn_tree::specs::Arithmetic::product))]
pub fn product(alloc: Global, a: Val, b: Val) -> Result<Outcome, Memory>
    ensures { IfOk result (λ o. o ≡ meaning.product a b) }
{
    match (int_of(&a), int_of(&b)) {
        (Some(x), Some(y)) => match x.checked_mul(y) {
            Some(z) => Ok(Outcome::Value(Val::Int(z))),
            None => failure(alloc, "overflow"),
        },
        _ => type_failure(alloc),
    }
}

#[tactic(auto, unfolding(fn_tree::specs::Arithmetic::quotient))]
pub fn quotient(alloc: Global, a: Val, b: Val) -> Result<Outcome, Memory>
    ensures { IfOk result (λ o. o ≡ meaning.quotient a b) }
{
    match (int_of(&a), int_of(&b)) {
        (Some(x), Some(y)) => {
            if y == 0 {
                return failure(alloc, "zero");
            }
            match x.checked_div(y) {
                Some(z) => Ok(Outcome::Value(Val::Int(z))),
                None => failure(alloc, "overflow"),
            }
        }
        _ => type_failure(alloc),
    }
}

#[tactic(auto, unfolding(fn_tree::specs::Arithmetic::remainder))]
pub fn remainder(alloc: Global, a: Val, b: Val) -> Result<Outcome, Memory>
    ensures { IfOk result (λ o. o ≡ meaning.remainder a b) }
{
    match (int_of(&a), int_of(&b)) {
        (Some(x), Some(y)) => {
            if y == 0 {
                return failure(alloc, "zero");
            }
            match x.checked_rem(y) {
                Some(z) => Ok(Outcome::Value(Val::Int(z))),
                None => failure(alloc, "overflow"),
            }
        }
        _ => type_failure(alloc),
    }
}

#[tactic(auto, unfolding(fn_tree::specs::Arithmetic::negated))]
pub fn negated(alloc: Global, a: Val) -> Result<Outcome, Memory>
    ensures { IfOk result (λ o. o ≡ meaning.negated a) }
{
    match int_of(&a) {
        Some(x) => match x.checked_neg() {
            Some(z) => Ok(Outcome::Value(Val::Int(z))),
            None => failure(alloc, "overflow"),
        },
        None => type_failure(alloc),
    }
}
