//! The multi-version store: a formed history in a log, with its versions in memory.
//!
//! A contract sees a `Store` together with the history that it holds, a list of entries: `Stands` says
//! that the memory agrees with it, `Holds` that the disk does too, and how many of its entries are
//! settled. The map at each snapshot that is pinned, and who wrote since, are told by version chains.
//! What entries mean for workflows is left to the crates above.
#![tactic(auto)]

mod fault;
mod laws;
mod open;
mod store;
#[cfg(test)]
mod tests;

pub use fault::{CommitFault, OpenFault};
pub use laws::{holds_beside_the_disk, holds_in_memory, may_follow, reads_as_settled};
pub use store::Store;
