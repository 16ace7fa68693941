//! What a turn of a workflow comes to, piece by piece, on a history that can be read.
//!
//! A workflow's function is run on its recorded steps, and the body of a transaction on its snapshot; an
//! ask of a child and an await are an entry, or an answer. Each contract is the plain machine's on every
//! history that what is read stands for. Which piece comes when is left to the crates above.
#![tactic(auto)]

mod awaits;
mod children;
mod laws;
mod runs;

pub use awaits::{AwaitDraft, await_draft};
pub use children::child_draft;
pub use laws::asks_what_is_there;
pub use runs::{flow_end, txn_run};
