//! A session: the lines of a script, each with its reply.
//!
//! A contract sees a `Session` by its executor. `DoesLine` says that a line was answered as the plain machine
//! answers it, with the answers that the desk gave, and that all is settled when the reply is handed out;
//! `StopsLine` says how far a line came that ended early.
#![tactic(auto)]

mod answering;
mod events;
mod looks;
mod session;
mod texts;

pub use session::{Session, SessionFault};
