//! The lines of a script, read from its source.
//!
//! A contract sees a `Script` by `Reads`: which bytes its source has given so far, and which lines of them were
//! handed out. Lines end at newlines, blank ones are skipped, and a script has at most 2^26 bytes. What a line
//! means is left to the crates above.
#![tactic(auto)]

mod chunk;
mod fault;
mod piece;
mod script;

pub use fault::ScriptFault;
pub use script::Script;

#[cfg(test)]
mod tests;
