//! The plain machine as a program: slow, without a store, a log or an environment.
//!
//! A history is a list of entries, and the open snapshots are a map from workflows to lengths of it. A contract
//! sees a `State` as the machine's, by `state_of`, and `step` is the machine's step on it. Every look at a
//! history goes through its entries; nothing is kept beside them. Worked cases are computed with it.
#![tactic(auto)]

mod answers;
mod came;
mod commands;
mod declared;
mod dequeues;
mod event;
mod flows;
mod given;
mod looks;
mod order;
mod past;
mod reply;
mod room;
mod rows;
mod snapshots;
mod state;
mod stepping;
mod turn;
mod turned;
mod txns;
mod writes;

pub use event::Event;
pub use flows::pending;
pub use reply::{Call, Limit, Out, Reply};
pub use state::State;
pub use stepping::step;
