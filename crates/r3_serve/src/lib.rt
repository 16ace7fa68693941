//! A call that answers lines: each reply is said when all that it tells is settled.
//!
//! A contract sees how far the call has come by `Served`: the machine's call on the same history with the same
//! lines, what was said and asked, and what a crash leaves. `Stopped` is the same of a call that ended early.
#![tactic(auto)]

mod fault;
mod lines;
mod opening;
mod script;

pub use fault::{ScriptStop, ServeFault};
pub use lines::{enact, serve, serve_line};
pub use opening::open;
pub use script::serve_script;
