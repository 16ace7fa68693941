//! Laws of the plain machine: each is the contract of a function that does nothing.
//!
//! They speak of the definitions of `r3_model` alone, for every language that counts its steps and tells
//! its looks truly, as that of a sound program does.
#![tactic(auto)]

mod events;
mod histories;
mod pending;
mod programs;
mod states;

pub use events::{asks_unrecorded, queues_tell, tells_its_event};
pub use histories::{commits_once, expects_all, makes_what_it_reaches, repeats_what_it_made};
pub use pending::{pending_tell, rows_follow, rows_gather};
pub use programs::{programs_are_lawful, programs_are_limited};
pub use states::{enters_light, enters_what_follows, keeps_open, keeps_valid};
