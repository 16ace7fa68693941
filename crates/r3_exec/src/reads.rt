//! An executor, as a history that can be read.

use crate::exec::Exec;
use r3_past::Past;
use r3_rows::{Cell, Key};
use r3_value::{Memory, Txt};
use std::alloc::Global;

impl Past for Exec {
    ghost use Rattle.std.specs.Prelude.{List};
    ghost use Rattle.r3_entry.specs.declared.entry.Entry.{Entry};
    ghost use Rattle.r3_chain.specs.Versions.{as_of};
    ghost use Rattle.r3_store.specs.Holds.{Stands, IsReadable};

    ghost stands = { λ p h. Stands p.store h };

    ghost reads = { λ p k. ((h : List Entry) × Stands p.store h) × IsReadable p.store k };

    ghost map = { λ p k. as_of k p.store.chains.versions };

    fn is_past(&self) {}

    fn count(&self) -> u32 {
        self.store.len()
    }

    fn cell(&self, key: &Key, index: u32) -> Option<&Cell> {
        self.store.read_at(key, index)
    }

    fn version(&self, key: &Key, index: u32) -> u32 {
        self.store.version_at(key, index)
    }

    fn range(
        &self,
        alloc: Global,
        table: &str,
        lo: &str,
        hi: &str,
        index: u32,
    ) -> Result<Vec<(Txt, u32)>, Memory> {
        self.store.range_at(alloc, table, lo, hi, index)
    }
}
