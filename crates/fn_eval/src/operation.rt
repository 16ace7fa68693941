ghost use Rattle.std.specs.Prelude.{◌≡◌, IfOk};
ghost use Rattle.fn_eval.specs.Operation.{outcome_of, outcome_of_both};

use crate::{arithmetic, comparison, sequences};
use r3_value::{Memory, Outcome, Val};
use std::alloc::Global;

/// An operator on one value. `Truth` gives a bool as it is.
#[derive(Clone, Copy)]
pub enum Unary {
    Neg,
    Not,
    Len,
    Str,
    Truth,
}

/// An operator on two values.
#[derive(Clone, Copy)]
pub enum Binary {
    Index,
    Eq,
    Ne,
    Lt,
    Le,
    Gt,
    Ge,
    Add,
    Sub,
    Join,
    Mul,
    Div,
    Rem,
}

impl Unary {
    pub fn apply(self, alloc: Global, a: Val) -> Result<Outcome, Memory>
        ensures { IfOk result (λ o. o ≡ outcome_of self a) }
    {
        match self {
            Unary::Neg => arithmetic::negated(alloc, a),
            Unary::Not => comparison::inverted(alloc, a),
            Unary::Len => sequences::length_of(alloc, a),
            Unary::Str => sequences::shown(alloc, a),
            Unary::Truth => comparison::truth(alloc, a),
        }
    }
}

impl Binary {
    pub fn apply(self, alloc: Global, a: Val, b: Val) -> Result<Outcome, Memory>
        ensures { IfOk result (λ o. o ≡ outcome_of_both self a b) }
    {
        match self {
            Binary::Index => sequences::indexed(alloc, a, b),
            Binary::Eq => comparison::equal(alloc, a, b),
            Binary::Ne => comparison::unequal(alloc, a, b),
            Binary::Lt => comparison::less(alloc, a, b),
            Binary::Le => comparison::less_or_equal(alloc, a, b),
            Binary::Gt => comparison::greater(alloc, a, b),
            Binary::Ge => comparison::greater_or_equal(alloc, a, b),
            Binary::Add => arithmetic::sum(alloc, a, b),
            Binary::Sub => arithmetic::difference(alloc, a, b),
            Binary::Join => sequences::joined(alloc, a, b),
            Binary::Mul => arithmetic::product(alloc, a, b),
            Binary::Div => arithmetic::quotient(alloc, a, b),
            Binary::Rem => arithmetic::remainder(alloc, a, b),
        }
    }
}
