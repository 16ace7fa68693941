//! One workflow ID, one reply, and each step once: laws of the plain machine over events, and over calls on one
//! store with crashes between and inside them.
//!
//! Each law is the contract of a function that does nothing. A call is seen as the machine's call of `r3_model`
//! with what it left: all of its history, or the prefix that a crash left, with all that was acknowledged. How a
//! call is carried out is left to the crates above.
#![tactic(auto)]

mod calls;
mod starts;

pub use calls::{repeats_are_alike, stores_steps_once, whole_calls_go};
pub use starts::{accepts_repeats, keeps_starts, tells_starts};
