//! A history that can be read: its rows as they stood after its first entries.
//!
//! What keeps a history implements `Past`: a store over its version chains, or a plain list of entries. The
//! crates above decide on it what an event comes to, and never see how it is kept. `AsOf` is what a
//! transaction sees of it on a snapshot.
#![tactic(auto)]

mod as_of;
mod cells;
mod past;
mod step_rows;
mod workflows;

pub use as_of::AsOf;
pub use past::{Past, view_is};
pub use step_rows::{answers, recorded, recorded_below, recorded_count};
pub use workflows::{flow_row, user_row};
