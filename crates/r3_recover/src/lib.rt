//! The opening of a store, and drains.
//!
//! `open_exec` takes up what the disk holds, as after a crash or an end: a program is appended to an empty
//! store, and else each running workflow is recovered. `drain` gives turns round by round. Both say of each
//! outcome what the disk may hold if all ends there.
#![tactic(auto)]

mod beginning;
mod dequeues;
mod draining;
mod ends;
mod opening;
mod recovering;
mod round;
mod turns;

pub use draining::drain;
pub use ends::{DrainEnd, StartFault};
pub use opening::open_exec;
