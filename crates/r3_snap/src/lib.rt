//! Snapshots of transactions: which of them are pinned, and who wrote since.
//!
//! A contract sees `WriteSet` as the list of the keys, and `Pins` as the list of the pinned snapshots,
//! one for each pin. A conflict is looked for in the version chains of the written keys alone. What a
//! snapshot reads is left to the crates above.
#![tactic(auto)]

mod conflicts;
mod pins;
#[cfg(test)]
mod tests;

pub use conflicts::{WriteSet, conflict};
pub use pins::Pins;
