//! The log of a store: a file of records that a crash leaves whole or without effect.
//!
//! A contract sees the log as two lists of payloads: those that are committed, and behind them those
//! that are written and not committed yet. A record counts once the commit byte (`gate`) before it is
//! open; that byte is written last and alone, between two syncs. What a payload means is left to the
//! crates above.
#![tactic(auto)]

mod fault;
mod gate;
mod laws;
mod payloads;
mod reading;
mod record;
mod scan;

pub use fault::{GateFault, Limit};
pub use gate::Gate;
pub use laws::{one_damage, one_list, one_verdict, reads_as_published};
pub use payloads::Payloads;

#[cfg(test)]
mod tests;
