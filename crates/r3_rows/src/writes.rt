//! What an entry writes.

ghost use Rattle.std.specs.Prelude.{◌≡◌, ◌↔◌, [], OnOk, OnErr, IfOk, MatchResult, IsTrue, option_map};
ghost use Rattle.r3_rows.specs.Keys.{key_cmp};
ghost use Rattle.std.specs.FinMap.Entries.{put, find, is_sorted};
ghost use Rattle.r3_rows.specs.Pairs.{StandsAt, GoesAt};

use crate::copies::copy_cell;
use crate::order::compare;
use crate::rows::{Cell, Key};
use r3_value::Memory;
use std::alloc::Global;
use std::cmp::Ordering;
use std::marker::Model;

/// A map from keys to cells, kept in the order of the keys. None is a deletion.
#[derive(Debug, Drop)]
pub struct Writes {
    pairs: Vec<(Key, Option<Cell>)>,
}

impl Model for Writes {
    ghost use Rattle.std.specs.Prelude.{List, Option, IsTrue};
    ghost use Rattle.r3_rows.specs.declared.rows.Key.{Key};
    ghost use Rattle.r3_rows.specs.declared.rows.Cell.{Cell};
    ghost use Rattle.r3_rows.specs.Keys.{key_cmp};
    ghost use Rattle.std.specs.FinMap.Entries.{is_sorted};
    ghost use Rattle.std.specs.Coded.{codes};
    ghost use Rattle.r3_value.specs.Code.{items_code};

    ghost Value = { List (Key × Option Cell) };

    ghost coded = { Prim.hlevel (codes, items_code) };

    ghost view = { λ w. w.pairs.items };

    ghost invariant = { λ w. IsTrue (is_sorted key_cmp w.pairs.items) };
}

impl Writes {
    /// No keys. It takes no memory.
    pub fn new(alloc: Global) -> Writes
        ensures { result ≡ [] }
    {
        Writes {
            pairs: Vec::new(alloc),
        }
    }

    /// The pairs in the order of their keys.
    pub fn list(&self) -> &[(Key, Option<Cell>)]
        ensures { result.now ≡ self.now }
    {
        self.pairs.as_slice()
    }

    /// The map of these pairs, which stand in rising order of their keys. It takes no memory.
    pub fn from_list(pairs: Vec<(Key, Option<Cell>)>) -> Writes
        requires rising { IsTrue (is_sorted key_cmp pairs.items) }
        ensures { result ≡ pairs.items }
    {
        Writes { pairs }
    }

    /// Hands out the pairs in the order of their keys.
    pub fn into_list(self) -> Vec<(Key, Option<Cell>)>
        ensures items { result.items ≡ self }
        ensures sorted { IsTrue (is_sorted key_cmp self) }
    {
        self.pairs
    }

    /// Sets one key. Where there is no memory for it nothing changes.
    pub fn put(&mut self, key: Key, cell: Option<Cell>) -> Result<(), Memory>
        ensures ok { OnOk result (self.new ≡ put key_cmp key cell self.old) }
        ensures err { OnErr result (self.new ≡ self.old) }
    {
        put_pair(&mut self.pairs, key, cell)
    }

    /// What was put under the key, if anything was.
    pub fn find(&self, key: &Key) -> Option<&Option<Cell>>
        ensures { option_map (λ c. c.now) result ≡ find key_cmp key.now self.now }
    {
        match place_of(&self.pairs, key) {
            Ok(i) => Some(&self.pairs[i].1),
            Err(_) => None,
        }
    }

    /// An equal map.
    pub fn copy(&self) -> Result<Writes, Memory>
        ensures { IfOk result (λ w. w ≡ self.now) }
    {
        let pairs = copy_pairs(*self.pairs.allocator(), &self.pairs)?;
        Ok(Writes { pairs })
    }
}

fn copy_pairs(
    alloc: Global,
    pairs: &[(Key, Option<Cell>)],
) -> Result<Vec<(Key, Option<Cell>)>, Memory>
    ensures { IfOk result (λ copies. copies.items ≡ pairs.now) }
{
    let mut copies = Vec::with_capacity(alloc, pairs.len())?;
    for pair in pairs {
        copies.push((pair.0.copy()?, copy_cell(&pair.1)?))?;
    }
    Ok(copies)
}

// Where the key stands, or where it would: the half in which it is not is left out.
fn halved(pairs: &[(Key, Option<Cell>)], key: &Key) -> Result<usize, usize>
    requires { IsTrue (is_sorted key_cmp pairs.now) }
    ensures { MatchResult result (StandsAt key.now pairs.now) (GoesAt key.now pairs.now) }
{
    let mut from = 0;
    let mut to = pairs.len();
    while from < to {
        let middle = from + (to - from) / 2;
        match compare(key, &pairs[middle].0) {
            Ordering::Less => to = middle,
            Ordering::Equal => return Ok(middle),
            Ordering::Greater => from = middle + 1,
        }
    }
    Err(from)
}

// The same. Keys come mostly in rising order, so the last one is looked at first.
fn place_of(pairs: &[(Key, Option<Cell>)], key: &Key) -> Result<usize, usize>
    requires { IsTrue (is_sorted key_cmp pairs.now) }
    ensures { MatchResult result (StandsAt key.now pairs.now) (GoesAt key.now pairs.now) }
{
    let count = pairs.len();
    if count == 0 {
        return Err(0);
    }
    match compare(key, &pairs[count - 1].0) {
        Ordering::Greater => Err(count),
        _ => halved(pairs, key),
    }
}

fn put_pair(
    pairs: &mut Vec<(Key, Option<Cell>)>,
    key: Key,
    cell: Option<Cell>,
) -> Result<(), Memory>
    requires { IsTrue (is_sorted key_cmp pairs.old.items) }
    ensures ok { OnOk result (pairs.new.items ≡ put key_cmp key cell pairs.old.items) }
    ensures err { OnErr result (pairs.new.items ≡ pairs.old.items) }
{
    match place_of(pairs, &key) {
        Ok(i) => {
            pairs[i] = (key, cell);
            Ok(())
        }
        Err(i) => {
            pairs.insert(i, (key, cell))?;
            Ok(())
        }
    }
}
