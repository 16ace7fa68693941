//! The checker of the function language: whether a program is sound, or where its first fault stands.
//!
//! A contract sees the first fault of a program, in the order of the text, as a definition that goes
//! through the tree. A program has none exactly where it is sound. A sound program never gets stuck.
//! How a text is read into a tree is left to the crates below, and how one is run to those above.
#![tactic(auto)]

mod checker;
mod declarations;
mod expression;
mod fault;
mod readable;
mod statement;
#[cfg(test)]
mod tests;
mod uses;
mod variables;

pub use checker::check;
pub use fault::{CheckError, CheckKind};
pub use readable::is_readable;
