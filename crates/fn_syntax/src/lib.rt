//! The parser of the function language: tokens are read into a program, or refused at one place.
//!
//! A contract sees the programs of the grammar, and the place where no program goes on. The parser is
//! one loop over a stack of symbols, in which the next token chooses the rule. Whether a program is
//! sound, and what it means, is left to the crates above.
#![tactic(auto)]

mod actions;
mod bindings;
mod expressions;
mod fault;
mod items;
mod parser;
mod pops;
mod program;
mod stack;
mod statements;
#[cfg(test)]
mod tests;
mod texts;
mod trees;

pub use fault::SyntaxError;
pub use fn_spell::spell;
pub use program::parse;
