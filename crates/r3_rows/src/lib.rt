//! Rows: the keys of a history, the cells under them, what a transaction read and what an entry writes.
//!
//! A contract sees a key, a cell and a read item as they are declared, and `Writes` as the list of its
//! pairs in rising order of keys. Which rows make a history is left to the crates above.
#![tactic(auto)]

mod copies;
mod laws;
mod order;
mod rows;
mod same;
mod words;
mod writes;

pub use laws::order_of_keys;
pub use order::compare;
pub use rows::{Cell, FlowRow, Key, Read, Status, StepKind, StepRow};
pub use writes::Writes;

#[cfg(test)]
mod tests;
