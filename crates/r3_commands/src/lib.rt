//! What a command comes to on a history: an entry that is to be appended, the answer of an ID that was
//! used before, or a refusal.
//!
//! A contract sees a draft as what the plain machine makes of the command. Whether the entry still has
//! room, and how it is appended, is left to the crates above.
#![tactic(auto)]

mod calls;
mod changes;
mod commands;
mod counts;
mod declared;
mod drafts;
mod enqueues;
mod forks;
mod loads;
mod starts;
mod texts;

pub use commands::draft;
pub use declared::{arity, has_queue, has_table};
pub use drafts::Draft;
