//! The calls of the program, as calls on one store: so one workflow ID has one reply, and each step is stored once,
//! whatever crashes.
//!
//! A law, as the contract of a function that does nothing: what `r3_serve` says of a call, done whole, ended
//! early or cut by a crash, makes it an invocation of which the laws of `r3_repeats` speak.
#![tactic(auto)]

mod calls;
mod lines;

pub use calls::{calls_are_on_one_store, calls_fit, calls_store_steps_once};
pub use lines::lines_keep_limits;
