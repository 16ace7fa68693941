//! Runs the bodies of transactions on a map with versions.
//!
//! A contract sees the map as the values and versions of its keys and the present keys of each range,
//! and the run as its outcome, its looks and its writes. A body sees its own writes over the map, and
//! each place that it looks at is recorded once. Where the map comes from is left to the crates above.
#![tactic(auto)]

mod held;
mod journal;
mod look_place;
mod mem_view;
mod merge;
mod on_view;
mod row_key;
mod run;
mod scan;
mod texts;
mod view;

pub use held::Held;
pub use mem_view::MemView;
pub use run::run_txn;
pub use view::View;
