//! The real environment: a file, standard output and standard input, and an outside party behind two files.
//!
//! A contract learns from these objects only when they fail: they tell nothing of what the system holds.
#![tactic(auto)]

mod desk;
mod file;
mod outside;
mod shelf;
mod source;
#[cfg(test)]
mod tests;

pub use desk::HostDesk;
pub use shelf::HostShelf;
pub use source::HostSource;
