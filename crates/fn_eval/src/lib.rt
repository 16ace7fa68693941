//! Evaluates expressions, exactly as their meaning says.
//!
//! A contract sees the end that the meaning gives: a value or a failure's word, the units left, and
//! the number of nodes evaluated, which is by how much the counter of steps rises. `eval` takes a
//! sound program. `evaluate` takes any items and answers also that it is stuck, so that what is built
//! over it stays total. What statements do is left to the crates above.
#![tactic(auto)]

mod arithmetic;
mod bindings;
mod comparison;
mod evaluation;
mod halt;
mod helpers;
mod operand;
mod operation;
mod sequences;
#[cfg(test)]
mod tests;

pub use bindings::{Env, bind};
pub use evaluation::{eval, evaluate, values};
pub use halt::{Fail, Halt};
pub use sequences::list_or_size;
