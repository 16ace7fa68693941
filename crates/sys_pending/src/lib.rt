//! The running workflows, in the order in which they were started.
//!
//! A contract sees `Pending` as the list of their places: the number of the entry that started a workflow,
//! then its ID. It stands as the rows of the workflows say, as far as each change of a row is noted. What a
//! running workflow does next is left to the crates above.
#![tactic(auto)]

mod pending;
#[cfg(test)]
mod tests;

pub use pending::Pending;
