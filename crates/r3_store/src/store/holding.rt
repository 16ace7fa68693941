//! Snapshots that are pinned, and versions that none of them reads.

ghost use Rattle.std.specs.Prelude.{◌+◌, ◌<◌, None, ◌≡◌, ◌++◌, ◌∷◌, ◌≤◌, [], List, ℕ, length, Contains, Some, OnOk, OnErr};
ghost use Rattle.std.specs.List.Sorted.{IsPermutation};
ghost use Rattle.r3_entry.specs.declared.entry.Entry.{Entry};
ghost use Rattle.r3_chain.specs.Versions.{trimmed_all};
ghost use Rattle.r3_store.specs.Holds.{Stands, IsReadable, IsOldestRead};

use crate::Store;
use r3_entry::Entry;
use r3_formed::trimmed_stand;
use r3_value::Memory;

impl Store {
    /// Pins a snapshot, which is pinned or the length: what it reads is kept until it is released as
    /// often.
    pub fn hold(&mut self, snap: u32) -> Result<(), Memory>
        requires { IsReadable self.old snap }
        ensures ok { OnOk result (self.new.pins ≡ self.old.pins ++ snap ∷ []) }
        ensures err { OnErr result (self.new ≡ self.old) }
        ensures gate { self.new.gate ≡ self.old.gate }
        ensures keeps { (h : List Entry) → Stands self.old h → Stands self.new h }
    {
        self.pins.hold(snap)?;
        Ok(())
    }

    /// Gives back one pin of a snapshot that is pinned. It takes no memory.
    pub fn release(&mut self, snap: u32)
        requires { Contains self.old.pins snap }
        ensures one { IsPermutation self.old.pins (snap ∷ self.new.pins) }
        ensures gate { self.new.gate ≡ self.old.gate }
        ensures keeps { (h : List Entry) → Stands self.old h → Stands self.new h }
    {
        self.pins.release(snap);
    }

    // The least index that is still read.
    fn oldest_read(&self) -> u32
        ensures is { IsOldestRead self.now result }
        ensures bounds { (h : List Entry) → Stands self.now h →
            (self.now.oldest ≤ result) × (result ≤ length h)
            × ((s : ℕ) → Contains self.now.pins s → result ≤ s) }
    {
        match self.pins.least() {
            Some(snap) => snap,
            None => self.gate.count(),
        }
    }

    /// Discards the versions that only snapshots before all pinned ones saw, or, where none is pinned,
    /// before the length. All reads at pinned snapshots and at the length stay. It takes no memory, and
    /// looks only at versions that have older ones behind them.
    pub fn vacuum(&mut self)
        ensures keeps { (h : List Entry) → Stands self.old h → Stands self.new h }

        // It keeps just what is read from the least pinned snapshot on, or, where none is pinned, at the
        // length.
        ensures oldest { IsOldestRead self.old self.new.oldest }
        ensures trims { self.new.chains.versions
            ≡ trimmed_all self.new.oldest self.old.chains.versions }
        ensures pins { self.new.pins ≡ self.old.pins }
        ensures gate { self.new.gate ≡ self.old.gate }
        ensures texts { self.new.texts ≡ self.old.texts }
    {
        let oldest = self.oldest_read();
        self.chains.trim(oldest);
        self.oldest = oldest;
        trimmed_stand();
    }
}
