//! Lines of a script, as they are read.
//!
//! A contract sees a line as the plain machine's line that its bytes are. What a line does, and
//! what it is answered, is left to the crates above.
#![tactic(auto)]

mod forms;
mod line;
mod members;
mod read;
mod rows;

pub use line::Line;
pub use read::read_line;

#[cfg(test)]
mod tests;
