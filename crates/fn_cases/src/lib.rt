//! Worked cases of function bodies, from text to outcome.
//!
//! A contract sees a text as the items that the grammar gives for it, and a run as the meaning of a
//! transaction's body. The cases compare both with values worked out by hand; what a body does is left
//! to the crates below.
#![tactic(auto)]

mod calling;
#[cfg(test)]
mod cases;
mod reading;

pub use calling::transact;
pub use reading::{NoProgram, program};
