//! A store, as a history that can be read.

ghost use Rattle.std.specs.Prelude.{◌≡◌, ℕ, List, length};
ghost use Rattle.r3_entry.specs.declared.entry.Entry.{Entry};
ghost use Rattle.r3_store.specs.Holds.{Stands};

use r3_past::Past;
use r3_rows::{Cell, Key};
use r3_store::Store;
use r3_value::{Memory, Txt};
use std::alloc::Global;

/// What a store holds.
#[derive(Drop)]
pub struct Stored<'a> {
    store: &'a Store,
}

impl<'a> Stored<'a> {
    /// What the store holds.
    pub fn of(store: &'a Store) -> Stored<'a>
        ensures { result.store.now ≡ store.now }
    {
        Stored { store }
    }
}

impl<'a> Past for Stored<'a> {
    ghost use Rattle.std.specs.Prelude.{List};
    ghost use Rattle.r3_entry.specs.declared.entry.Entry.{Entry};
    ghost use Rattle.r3_chain.specs.Versions.{as_of};
    ghost use Rattle.r3_store.specs.Holds.{Stands, IsReadable};

    ghost stands = { λ p h. Stands p.store.now h };

    ghost reads = { λ p k. ((h : List Entry) × Stands p.store.now h) × IsReadable p.store.now k };

    ghost map = { λ p k. as_of k p.store.now.chains.versions };

    fn is_past(&self) {}

    fn count(&self) -> u32 {
        self.store.len()
    }

    fn cell(&self, key: &Key, index: u32) -> Option<&Cell> {
        self.store.read_at(key, index)
    }

    fn version(&self, key: &Key, index: u32) -> u32 {
        self.store.version_at(key, index)
    }

    fn range(
        &self,
        alloc: Global,
        table: &str,
        lo: &str,
        hi: &str,
        index: u32,
    ) -> Result<Vec<(Txt, u32)>, Memory> {
        self.store.range_at(alloc, table, lo, hi, index)
    }
}
