//! The words of a command line: which command they are.
//!
//! A contract sees a list of words as `command_of` reads it: the table of the commands, word by word.
//! What a command does, and whether its files are there, is left to the crates above.
#![tactic(auto)]

mod command;
mod line;
mod number;
mod positions;
#[cfg(test)]
mod tests;

pub use command::{Command, CommandLine};
pub use line::read;
