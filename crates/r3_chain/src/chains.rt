//! The chains of all keys.

ghost use Rattle.std.specs.Prelude.{◌≡◌, ◌<◌, ◌+◌, ◌≤◌, [], ◌∷◌, List, Ok, Err, IsTrue, OnOk, OnErr, IfOk, length, map};
ghost use Rattle.std.specs.Option.{option_map, option_map_or};
ghost use Rattle.std.specs.FinMap.{IsAntisymmetric};
ghost use Rattle.r3_chain.specs.Versions.{first_past as past, kept_count, versions_of, installed, IsNext, has_room, without, key_set, version_at, present, range_at, trimmed_all};

use crate::head::{Head, give_rooms, newest, push_newest, replace_newest};
use crate::node::{
    Node, first_past, last_upto, list_version, present_upto, put_version, version_upto,
};
use crate::trim::trim_chain;
use r3_pool::{Pool, PoolFault, Slot};
use r3_value::Memory;
use std::alloc::{AllocError, Global};
use std::cmp::Ordering;
use std::collections::{BTreeMap, BTreeSet};
use std::marker::Model;

/// The versions of ordered keys, at most `cap` of them at a time.
#[derive(Drop)]
pub struct Chains<K: Ord, V> {
    // a key given room stays here without a version until it is written
    heads: BTreeMap<K, Head>,
    nodes: Pool<Node<V>>,
    // the versions that have an older one behind them, each after that one; there is room for one
    // more of each key that has room
    long: Vec<Slot>,
    cap: u32,
    // a key has room while its head names this round
    round: u64,
    // the last round that a head may name
    last: u64,
}

impl<K: Ord, V> Model for Chains<K, V> {
    ghost use Rattle.r3_chain.specs.Versions.{Chains, chains_code};

    ghost Value = { Chains K V };

    ghost coded = { chains_code K.code V.code };

    ghost use Rattle.r3_chain.specs.Links.{chain_in};
    ghost use Rattle.r3_chain.specs.Heads.{kept_by, room_in};
    ghost use Rattle.r3_chain.specs.Long.{IsWhole};
    ghost use Rattle.std.specs.Prelude.{vec_capacity};

    ghost view = { λ c. record { versions = kept_by (chain_in c.nodes) c.heads.entries; room = room_in c.round c.heads.entries; cap = c.cap } };

    ghost invariant = { λ c. IsWhole K.cmp c.heads.entries c.nodes c.cap c.round c.last c.long.items (vec_capacity c.long) };
}

impl<K: Ord + Drop, V: Drop> Chains<K, V> {
    /// No versions, of which there may be `cap`.
    pub fn new(alloc: Global, cap: u32) -> Chains<K, V>
        ensures { result ≡ record { versions = []; room = []; cap = cap } }
    {
        Chains {
            heads: BTreeMap::new(alloc),
            nodes: Pool::new(alloc, cap),
            long: Vec::new(alloc),
            cap,
            round: 1,
            last: 1,
        }
    }

    /// Makes room for one version of each key given. No other key has room then. `Full` comes
    /// exactly where the versions kept and the different keys given are more than the cap, and
    /// there was memory to count these keys.
    pub fn reserve(&mut self, alloc: Global, keys: Vec<K>) -> Result<(), PoolFault>
        // Keys that tie are equal ones.
        ensures ok { OnOk result (IsAntisymmetric K.cmp → self.new ≡ record self.old { room = key_set K.cmp keys.items }) }
        ensures same { (self.new.versions ≡ self.old.versions) × (self.new.cap ≡ self.old.cap) }
        ensures fits { OnOk result (kept_count self.old.versions + length (key_set K.cmp keys.items) ≤ self.old.cap) }
        ensures full { result ≡ Err PoolFault.Full → self.old.cap < kept_count self.old.versions + length (key_set K.cmp keys.items) }
        ensures err { OnErr result (self.new ≡ self.old) }
    {
        let Ok(keys) = set_of(alloc, keys) else {
            return Err(PoolFault::Memory);
        };
        let count = keys.len();
        if count > self.cap as usize {
            return Err(PoolFault::Full);
        }
        match self.nodes.reserve(count as u32) {
            Ok(()) => {}
            Err(fault) => return Err(fault),
        }
        if self.long.reserve(count).is_err() {
            return Err(PoolFault::Memory);
        }
        // So many calls never come.
        if self.last == u64::MAX {
            return Err(PoolFault::Memory);
        }
        self.last += 1;
        if give_rooms(&mut self.heads, keys, self.round, self.last).is_err() {
            return Err(PoolFault::Memory);
        }
        self.round = self.last;
        Ok(())
    }

    /// Adds a version of a key, which uses up the key's room; None is a deletion. It takes no memory.
    pub fn install(&mut self, index: u32, key: &K, value: Option<V>)
        requires exact { IsAntisymmetric K.cmp }
        requires room { IsTrue (has_room K.cmp key.now self.old.room) }
        requires next { IsNext K.cmp index key.now self.old.versions }
        ensures versions { self.new.versions ≡ installed K.cmp index key.now value self.old.versions }
        ensures room { self.new.room ≡ without K.cmp key.now self.old.room }
        ensures cap { self.new.cap ≡ self.old.cap }
    {
        let slot = self.nodes.next();
        let older = replace_newest(&mut self.heads, key, slot);
        list_version(&mut self.long, slot, &older);
        self.nodes.put(Node {
            index,
            value,
            older,
        });
    }

    /// Adds a version of a key that needs no room made before: it is `reserve` of this key alone and
    /// `install` at one look-up, so no key has room then. It tells the version before, 0 for none.
    pub fn add(&mut self, index: u32, key: K, value: Option<V>) -> Result<u32, PoolFault>
        requires exact { IsAntisymmetric K.cmp }
        requires next { IsNext K.cmp index key self.old.versions }
        ensures ok { OnOk result (self.new ≡ record self.old { versions = installed K.cmp index key value self.old.versions; room = [] }) }
        ensures before { IfOk result (λ v. v ≡ option_map_or (λ v. v.0) (version_at K.cmp index key self.old.versions) 0) }
        ensures fits { OnOk result (kept_count self.old.versions + 1 ≤ self.old.cap) }
        ensures full { result ≡ Err PoolFault.Full → self.old.cap < kept_count self.old.versions + 1 }
        ensures err { OnErr result (self.new ≡ self.old) }
    {
        match self.nodes.reserve(1) {
            Ok(()) => {}
            Err(fault) => return Err(fault),
        }
        if self.long.reserve(1).is_err() {
            return Err(PoolFault::Memory);
        }
        // So many calls never come.
        if self.last == u64::MAX {
            return Err(PoolFault::Memory);
        }
        let slot = self.nodes.next();
        let Ok(older) = push_newest(&mut self.heads, key, slot) else {
            return Err(PoolFault::Memory);
        };
        list_version(&mut self.long, slot, &older);
        let before = put_version(&mut self.nodes, index, value, older);
        let next = self.last + 1;
        self.last = next;
        self.round = next;
        Ok(before)
    }

    /// The value as of the index, with its version.
    pub fn read(&self, key: &K, index: u32) -> Option<(&V, u32)>
        ensures { option_map (λ r. (r.0.now, r.1)) result ≡ present (version_at K.cmp index key.now self.now.versions) }
    {
        match last_upto(&self.nodes, newest(&self.heads, key), index) {
            Some(node) => match &node.value {
                Some(value) => Some((value, node.index)),
                None => None,
            },
            None => None,
        }
    }

    /// The version as of the index, a deletion counting; 0 for none.
    pub fn version(&self, key: &K, index: u32) -> u32
        ensures { result ≡ option_map_or (λ v. v.0) (version_at K.cmp index key.now self.now.versions) 0 }
    {
        version_upto(&self.nodes, newest(&self.heads, key), index)
    }

    /// The keys from `lo` and below `hi` that have a value as of the index, in order, with their
    /// versions. It looks at no other key.
    pub fn range<'a>(
        &'a self,
        alloc: Global,
        lo: &K,
        hi: &K,
        index: u32,
    ) -> Result<Vec<(&'a K, u32)>, Memory>
        ensures { IfOk result (λ keys. map (λ r. (r.0.now, r.1)) keys.items ≡ range_at K.cmp lo.now hi.now index self.now.versions) }
    {
        let mut keys = Vec::new(alloc);
        if lo.cmp(hi) == Ordering::Greater {
            return Ok(keys);
        }
        'keys: for (key, head) in self.heads.range(lo..hi) {
            if let Some(version) = present_upto(&self.nodes, head.newest, index) {
                keys.push((key, version))?;
            }
        }
        Ok(keys)
    }

    /// The least index past the snapshot at which the key was written.
    pub fn after(&self, key: &K, snap: u32) -> Option<u32>
        ensures { result ≡ past snap (versions_of K.cmp key.now self.now.versions) }
    {
        first_past(&self.nodes, newest(&self.heads, key), snap)
    }

    /// Discards the versions that no index from `oldest` on reads: of each key those past `oldest`
    /// stay, and the last one up to it. Their slots are used again. It looks at no version that has
    /// none behind it.
    pub fn trim(&mut self, oldest: u32)
        ensures versions { self.new.versions ≡ trimmed_all oldest self.old.versions }
        ensures room { self.new.room ≡ self.old.room }
        ensures cap { self.new.cap ≡ self.old.cap }
    {
        let mut kept = 0;
        'long: for at in 0..self.long.len() {
            let slot = self.long[at];
            if self.nodes.get(slot).index <= oldest {
                trim_chain(&mut self.nodes, Some(slot), oldest);
            } else {
                self.long[kept] = slot;
                kept += 1;
            }
        }
        self.long.truncate(kept);
    }
}

// The different ones of the keys.
fn set_of<K: Ord + Drop>(alloc: Global, keys: Vec<K>) -> Result<BTreeSet<K>, AllocError>
    ensures { IfOk result (λ set. set.keys ≡ key_set K.cmp keys.items) }
{
    let mut set = BTreeSet::new(alloc);
    for key in keys {
        set.insert(key)?;
    }
    Ok(set)
}
