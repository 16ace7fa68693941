//! Runs workflows on the answers of their recorded steps.
//!
//! A contract sees the end that the meaning gives on a list of answers: the body is done, asks for a
//! step that isn't recorded, or asks for another name than the recorded one. Each run begins anew with
//! the first statement, and an answer is taken by its number.
#![tactic(auto)]

mod asks;
mod find;
mod run;

pub use fn_tree::flow::{Answer, AskKind, FlowEnd, Request};
pub use run::run_flow;
