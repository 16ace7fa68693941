//! The whole program over any environment: `top` does what its words say, and tells the status.
//!
//! A contract sees its end as the one that the words, the files and the script reach.
#![tactic(auto)]

mod begin;
mod check;
mod command;
mod counts;
mod files;
mod functions;
mod generate;
mod halt;
mod program;
mod run;

pub use program::top;
