//! Values as JSON and back, and lines of JSON.
//!
//! A contract sees a JSON as the data of `serde_json`, and says which data a value is, which value a
//! data is or why it is none, and which bytes a line has. What a line means is left to the crates above.
#![tactic(auto)]

mod fault;
mod laws;
mod lines;
mod sizes;
#[cfg(test)]
mod tests;
mod values;

pub use fault::{JsonFault, ReadFault};
pub use laws::reads_back;
pub use lines::{line, read};
pub use values::{from_json, to_json};
