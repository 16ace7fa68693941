//! What a store tells: its entries' number, its rows at a snapshot, its workflows and programs.

ghost use Rattle.std.specs.Prelude.{◌<◌, None, ◌≡◌, List, length, map, Some, IfOk};
ghost use Rattle.std.specs.Option.{option_map};
ghost use Rattle.r3_entry.specs.declared.entry.Entry.{Entry};
ghost use Rattle.r3_entry.specs.History.{cell_at, version_at, range_at};
ghost use Rattle.r3_formed.specs.Answers.{flow_ids, program_texts, text_of};
ghost use Rattle.r3_store.specs.Holds.{Stands, IsReadable};

use crate::Store;
use r3_entry::Entry;
use r3_formed::{flows_as_of, texts_between};
use r3_rows::{Cell, Key};
use r3_value::{Memory, Txt};
use std::alloc::Global;

impl Store {
    /// The number of entries.
    pub fn len(&self) -> u32
        ensures { (h : List Entry) → Stands self.now h → result ≡ length h }
    {
        self.gate.count()
    }

    /// The number and the text of each Program entry, in order.
    pub fn programs(&self) -> &[(u32, String)]
        ensures { (h : List Entry) → Stands self.now h → map text_of result.now ≡ program_texts h }
    {
        &self.texts
    }

    /// The IDs that have a flow row at the length, in byte order.
    pub fn flows(&self, alloc: Global) -> Result<Vec<Txt>, Memory>
        ensures { (h : List Entry) → Stands self.now h →
            IfOk result (λ ids. ids.items ≡ flow_ids h) }
    {
        let ids = flows_as_of(alloc, &self.chains, self.gate.count())?;
        Ok(ids)
    }

    /// What the key stood at. The index is pinned or the length.
    pub fn read_at(&self, key: &Key, index: u32) -> Option<&Cell>
        ensures { (h : List Entry) → Stands self.now h → IsReadable self.now index →
            option_map (λ c. c.now) result ≡ cell_at h index key.now }
    {
        match self.chains.read(key, index) {
            Some((cell, _)) => Some(cell),
            None => None,
        }
    }

    /// The number of the entry that last wrote the key, a deletion counting, or 0. The index is pinned
    /// or the length.
    pub fn version_at(&self, key: &Key, index: u32) -> u32
        ensures { (h : List Entry) → Stands self.now h → IsReadable self.now index →
            result ≡ version_at h index key.now }
    {
        self.chains.version(key, index)
    }

    /// The keys of the table from `lo` and below `hi` that were present, in byte order, with their
    /// versions. The index is pinned or the length.
    pub fn range_at(
        &self,
        alloc: Global,
        table: &str,
        lo: &str,
        hi: &str,
        index: u32,
    ) -> Result<Vec<(Txt, u32)>, Memory>
        ensures { (h : List Entry) → Stands self.now h → IsReadable self.now index →
            IfOk result (λ keys. keys.items ≡ range_at h index table.now lo.now hi.now) }
    {
        let keys = texts_between(alloc, &self.chains, table, lo, hi, index)?;
        Ok(keys)
    }
}
