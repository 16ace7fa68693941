//! The plain machine: what a store of workflows does at each event.
//!
//! The definitions stand in specs/, over a list of entries and a map of open snapshots. A program is
//! seen as a record of what the machine asks of it. How a history is kept, and in which bytes, is left
//! to the crates beside and above.
#![tactic(auto)]

mod laws;
mod names;

pub use laws::{drains_by_turns, only_appends, runs_in_parts};
pub use names::made_id;

#[cfg(test)]
mod tests;
