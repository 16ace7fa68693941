//! A map in memory, for tests.

ghost use Rattle.std.specs.Prelude.{◌≡◌, [], IfOk, map};
ghost use Rattle.std.specs.Option.{option_copied};
ghost use Rattle.fn_txn.specs.Held.{held_at, is_held, is_in_range, keys_held, version_in, versions_of};

use crate::held::Held;
use crate::scan::is_below;
use crate::view::View;
use r3_value::{Memory, Txt, Val};
use std::alloc::Global;

/// A map in memory: its rows, which the caller puts in rising order.
#[derive(Drop)]
pub struct MemView {
    pub rows: Vec<Held>,
}

fn is_row(h: &Held, table: &str, key: &str) -> bool
    ensures { result ≡ is_held table.now key.now h.now }
{
    h.table.as_str() == table && h.key.as_str() == key
}

fn row_of<'a>(rows: &'a [Held], table: &str, key: &str) -> Option<&'a Held>
    ensures { option_copied result ≡ held_at rows.now table.now key.now }
{
    for h in rows {
        if is_row(h, table, key) {
            return Some(h);
        }
    }
    None
}

fn is_listed(h: &Held, table: &str, lo: &str, hi: &str) -> bool
    ensures { result ≡ is_in_range table.now lo.now hi.now h.now }
{
    h.value.is_some()
        && h.table.as_str() == table
        && !is_below(h.key.as_str(), lo)
        && is_below(h.key.as_str(), hi)
}

fn version_at(rows: &[Held], table: &str, key: &str) -> u32
    ensures { result ≡ version_in (held_at rows.now table.now key.now) }
{
    match row_of(rows, table, key) {
        Some(h) => h.version,
        None => 0,
    }
}

fn keys_of(
    alloc: Global,
    rows: &[Held],
    table: &str,
    lo: &str,
    hi: &str,
) -> Result<Vec<(Txt, u32)>, Memory>
    ensures { IfOk result (λ ks. ks.items ≡ map (λ k. (k, version_in (held_at rows.now table.now k))) (keys_held rows.now table.now lo.now hi.now)) }
{
    let mut keys = Vec::new(alloc);
    for h in rows {
        if is_listed(h, table, lo, hi) {
            let version = version_at(rows, table, h.key.as_str());
            keys.push((h.key.copy()?, version))?;
        }
    }
    Ok(keys)
}

impl MemView {
    /// No rows.
    pub fn new(alloc: Global) -> MemView
        ensures { result.rows.items ≡ [] }
    {
        MemView {
            rows: Vec::new(alloc),
        }
    }
}

impl View for MemView {
    ghost versions = { λ m. versions_of m.rows.items };

    fn cell(&self, table: &str, key: &str) -> Result<Option<(&Val, u32)>, Memory> {
        match row_of(self.rows.as_slice(), table, key) {
            None => Ok(None),
            Some(h) => match &h.value {
                None => Ok(None),
                Some(v) => Ok(Some((v, h.version))),
            },
        }
    }

    fn version(&self, table: &str, key: &str) -> Result<u32, Memory> {
        Ok(version_at(self.rows.as_slice(), table, key))
    }

    fn keys(&self, table: &str, lo: &str, hi: &str) -> Result<Vec<(Txt, u32)>, Memory> {
        let alloc = *self.rows.allocator();
        keys_of(alloc, self.rows.as_slice(), table, lo, hi)
    }
}
