//! Values that a workflow works on: null, booleans, numbers of 64 bits, texts, and lists of values.
//!
//! A contract sees a `Val` as it is built, a text as its bytes and a list as its values, so two values
//! are equal where they are built alike. Each value keeps the two limits that let it be stored and be
//! walked through without care: 4,096 bytes (its weight), and lists that nest 16 deep. A list knows both
//! numbers of itself, so they are never computed anew. How a value is written is left to other crates.
#![tactic(auto)]

mod fault;
#[cfg(test)]
mod tests;
mod text;
mod value;

pub use fault::{Memory, ValFault};
pub use text::Txt;
pub use value::{Outcome, Val, Vals};
