//! The store.

ghost use Rattle.std.specs.Prelude.{◌≡◌, ◌^◌};

mod committing;
mod holding;
mod opening;
mod reading;
mod settling;

use r3_chain::Chains;
use r3_entry::Entry;
use r3_gate::Gate;
use r3_rows::{Cell, Key};
use r3_snap::Pins;

/// A history, with its map at each snapshot that is pinned and at its length, and who wrote since.
#[derive(Drop)]
pub struct Store {
    gate: Gate,
    chains: Chains<Key, Cell>,
    // the snapshots that are held, one for each hold
    pins: Pins,
    // nothing is kept that only earlier snapshots saw
    oldest: u32,
    // the number and the text of each Program entry
    texts: Vec<(u32, String)>,
    // more than a log has writes
    ghost cap: { chains.cap ≡ 2 ^ 28 },
}

/// Drops an entry, in one place for all its variants.
pub fn let_go(_entry: Entry) {}
