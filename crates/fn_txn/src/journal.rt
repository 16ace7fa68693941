//! What a transaction records: its looks, and its writes so far.

ghost use Rattle.std.specs.Prelude.{◌≡◌, ◌≤◌, [], IfOk, map};
ghost use Rattle.std.specs.Option.{option_copied};
ghost use Rattle.fn_tree.specs.Writes.{rows_under, written_at};
ghost use Rattle.fn_txn.specs.RowKeys.{write_of};
ghost use Rattle.fn_txn.specs.Rows.{key_row};
ghost use Rattle.fn_txn.specs.Journals.{Recorded, looked, total_with, wrote_key};

use crate::look_place::{LookPlace, place, place_order};
use crate::merge::merged;
use crate::row_key::{RowKey, row_order};
use crate::view::View;
use fn_tree::look::Look;
use r3_value::{Memory, Txt, Val};
use sqlite_items::Items;
use std::alloc::Global;
use std::collections::{BTreeMap, BTreeSet};
use std::marker::Model;

/// At most so many keys are written, and so many items are read.
const MOST_KEYS: usize = 1024;

const MOST_ITEMS: usize = 4096;

/// The looks in order of the first, and the writes in rising order of table and key.
#[derive(Drop)]
pub struct Journal {
    looks: Vec<Look>,
    items: usize,
    // The places of the looks: a look is found without going through them.
    places: BTreeSet<LookPlace>,
    writes: BTreeMap<RowKey, Option<Val>>,
}

impl Model for Journal {
    ghost use Rattle.std.specs.Prelude.{map};
    ghost use Rattle.fn_tree.specs.Writes.{Log};
    ghost use Rattle.fn_txn.specs.RowKeys.{write_of};
    ghost use Rattle.fn_txn.specs.Journals.{IsKept};
    ghost use Rattle.fn_txn.specs.LogCode.{log_code};

    ghost Value = { Log };

    ghost coded = { log_code };

    ghost view = { λ j. record { looks = j.looks.items; writes = map write_of j.writes.entries } };

    ghost invariant = { λ j. IsKept j.looks.items j.items j.places.keys j.writes.entries };
}

// The number of read items with one look more, unless it passes the limit.
fn total(look: &Look, items: usize) -> Option<usize>
    requires { items ≤ 4096 }
    ensures { result ≡ total_with look.now items }
{
    let more = match look {
        Look::At { .. } => 0,
        Look::Range {
            table: _,
            lo: _,
            hi: _,
            keys,
        } => keys.len(),
    };
    if more < MOST_ITEMS && items < MOST_ITEMS - more {
        Some(items + 1 + more)
    } else {
        None
    }
}

// The writes in the order of their keys.
fn listed(
    alloc: Global,
    writes: BTreeMap<RowKey, Option<Val>>,
) -> Result<Items<(Txt, Txt, Option<Val>)>, Memory>
    ensures { IfOk result (λ ws. ws ≡ map write_of writes.entries) }
{
    let mut all = Items::new(alloc);
    for (row, left) in writes {
        let RowKey { table, key } = row;
        all.push((table, key, left))?;
    }
    Ok(all)
}

impl Journal {
    /// Nothing is recorded.
    pub fn new(alloc: Global) -> Journal
        ensures { result ≡ record { looks = []; writes = [] } }
    {
        Journal {
            looks: Vec::new(alloc),
            items: 0,
            places: BTreeSet::new(alloc),
            writes: BTreeMap::new(alloc),
        }
    }

    /// What the body left at the key, if it wrote it.
    #[tactic(auto, using(crate::proofs::OrderLemmas::lookup_is))]
    pub fn written(&self, key: &RowKey) -> Option<&Option<Val>>
        ensures { option_copied result ≡ written_at self.now.writes key.now.table key.now.key }
    {
        row_order();
        self.writes.get(key)
    }

    /// Records what the body leaves at the key. It answers false where that is one key too many.
    #[tactic(auto, using(crate::proofs::JournalLemmas::wrote_fits, crate::proofs::JournalLemmas::wrote_too_many))]
    pub fn write(&mut self, key: RowKey, left: Option<Val>) -> Result<bool, Memory>
        ensures { IfOk result (λ fits. Recorded fits (wrote_key key left self.old) self.old self.new) }
    {
        row_order();
        if self.writes.get(&key).is_none() && self.writes.len() >= MOST_KEYS {
            return Ok(false);
        }
        match self.writes.insert(key, left) {
            Ok(_) => Ok(true),
            Err(_) => Err(Memory),
        }
    }

    /// Records a look, once. It answers false where that makes too many read items.
    pub fn look(&mut self, look: Look) -> Result<bool, Memory>
        ensures { IfOk result (λ fits. Recorded fits (looked look self.old) self.old self.new) }
    {
        place_order();
        let at = place(&look)?;
        if self.places.contains(&at) {
            return Ok(true);
        }
        match total(&look, self.items) {
            None => Ok(false),
            Some(items) => {
                self.looks.reserve(1)?;
                self.places.insert(at)?;
                self.looks.push_reserved(look);
                self.items = items;
                Ok(true)
            }
        }
    }

    /// The rows of a range's keys with the writes over them.
    pub fn over<M: View>(
        &self,
        alloc: Global,
        view: &M,
        table: &Txt,
        lo: &Txt,
        hi: &Txt,
        keys: &[(Txt, u32)],
    ) -> Result<Vec<(Txt, Val)>, Memory>
        ensures { IfOk result (λ r. r.items ≡ rows_under self.now.writes table.now lo.now hi.now (map (key_row (M.versions view.now) table.now) keys.now)) }
    {
        let rows = merged(alloc, view, &self.writes, table, lo, hi, keys)?;
        Ok(rows)
    }

    /// The looks. The writes are dropped.
    pub fn into_looks(self) -> Items<Look>
        ensures { result ≡ self.looks }
    {
        let Journal {
            looks,
            items: _,
            places: _,
            writes: _,
        } = self;
        Items::from_vec(looks)
    }

    /// The looks and the writes.
    pub fn into_parts(
        self,
        alloc: Global,
    ) -> Result<(Items<Look>, Items<(Txt, Txt, Option<Val>)>), Memory>
        ensures { IfOk result (λ r. (r.0 ≡ self.looks) × (r.1 ≡ self.writes)) }
    {
        let Journal {
            looks,
            items: _,
            places: _,
            writes,
        } = self;
        let writes = listed(alloc, writes)?;
        Ok((Items::from_vec(looks), writes))
    }
}
