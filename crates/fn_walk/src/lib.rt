//! Runs the bodies of transactions and of workflows, whatever they act on.
//!
//! A contract sees the end that a body's meaning gives: it goes on, returns, fails or asks. What
//! `get`, `put`, `call` and the like do is one trait, and the walk over the statements is written and
//! proved once over it. An ask whose answer is known goes on; any other stops the walk.
#![tactic(auto)]

mod acts;
mod body;
mod broken;
mod names;
mod parts;
mod place;

pub use acts::Acts;
pub use body::walk;
pub use broken::Break;
pub use parts::word;
pub use place::Place;
