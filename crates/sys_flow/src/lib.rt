//! The rules of workflows: what a repeated ID, a child, an await, a cancel, a resume and a recovery come to.
//!
//! Each rule is a small function of a workflow's row, and its contract is the rule's definition in specs/.
//! Which entry a rule makes, and on which history, is left to the crates above.
#![tactic(auto)]

mod awaits;
mod children;
mod command;
mod repeats;
mod status;
mod text;

pub use awaits::{Awaited, awaited_of};
pub use children::{ChildFault, child_id};
pub use command::{Command, Refusal};
pub use repeats::{Repeat, repeat_of};
pub use status::{may_cancel, may_resume, recovered};
pub use text::Text;

#[cfg(test)]
mod tests;
