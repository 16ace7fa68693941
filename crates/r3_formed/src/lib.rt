//! Formed histories, entry after entry: what one entry may do behind those before it, and the pass over
//! payloads that checks each and keeps its versions.
//!
//! A contract sees version chains together with the history whose maps they answer for: `StandFor` says
//! so, from the oldest index on that is still read. What is read and written where is left to the store.
#![tactic(auto)]

mod adding;
mod fault;
mod install;
mod laws;
mod limits;
mod loading;
mod looks;
mod rules;
#[cfg(test)]
mod tests;

pub use fault::LoadFault;
pub use install::{install_all, make_room};
pub use laws::{
    first_conflict_is, first_write_is, history_goes_on, trimmed_stand, versions_are_few,
};
pub use loading::{Loaded, load, put_text};
pub use looks::{flows_as_of, texts_between};
pub use rules::is_program_first;
