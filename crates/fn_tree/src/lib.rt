//! The syntax tree of the function language, and its meaning.
//!
//! A contract sees a tree as plain data: a list is the list of its elements, and a box is what it
//! holds. The meaning stands in the definitions: what an expression gives, what a transaction's body
//! does on a map with versions, what a workflow's body does on a list of answers, and which programs
//! are sound. Each counts the expression nodes that are evaluated. How a text is read into a tree,
//! and how a tree is run, is left to the crates above.
#![tactic(auto)]

pub mod checked;
pub mod expr;
pub mod flow;
mod literals;
pub mod look;
pub mod program;
mod same;
pub mod stmt;
#[cfg(test)]
mod tests;
