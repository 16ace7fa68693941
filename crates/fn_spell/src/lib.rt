//! The spelling of a program of the function language: its tokens, each followed by a space.
//!
//! A contract sees a spelling as a list of tokens and marks, by recursion over the tree. Operations
//! with one or two operands stand in parentheses, so that how tightly they bind doesn't matter.
//! Where it keeps the limits of the grammar, the bytes are read as the same program.
#![tactic(auto)]

mod expressions;
mod items;
mod program;
mod statements;
mod texts;
mod words;

pub use program::spell;
