//! The entry of each act, as the plain machine has it.
//!
//! Each function is given the number of entries that stand before the new one, and the rows that it
//! needs. A contract sees the entry that the machine's definition makes on any history of that length.
//! Which act an event comes to, and what it is refused for, is left to the crates above.
#![tactic(auto)]

mod changes;
mod forks;
mod loads;
mod plain;
mod starts;
mod steps;
mod txns;

pub use changes::{cancel_entry, dequeue_entry, finish_entry, recover_entry, resume_entry};
pub use forks::fork_entry;
pub use loads::{load_entry, program_entry};
pub use starts::{child_entry, enqueue_entry, known_child_entry, start_entry};
pub use steps::{await_entry, outside_entry};
pub use txns::txn_entry;
