//! A script that is made from a number: transfers between accounts, run over a store without its replies being
//! said, and the summary of what the store then has.
//!
//! A contract sees the lines as the model's list of them, and a run as `Ran`: the machine's call on the same
//! history with these lines, the summary of its history, and what a crash leaves. Which program the store was
//! begun with is left to the caller; the program of the script is `BANK`.
#![tactic(auto)]

mod bank;
mod draws;
mod fault;
mod lines;
mod running;
mod script;
mod summary;

pub use bank::BANK;
pub use fault::GenFault;
pub use running::{run, run_opened};
pub use script::generate;
pub use summary::summary_of;

#[cfg(test)]
mod tests;
