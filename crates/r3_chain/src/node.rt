//! The versions in the slab, and the walk along one key's chain.

ghost use Rattle.std.specs.Prelude.{◌≡◌, ◌<◌, ◌≤◌, ◌-◌, ℕ, Some, vec_len, vec_capacity};
ghost use Rattle.std.specs.Option.{option_map, option_map_or};
ghost use Rattle.std.specs.List.{AllByRecursion};
ghost use Rattle.r3_pool.specs.Slots.{value_at, next_slot, Fills};
ghost use Rattle.r3_chain.specs.Versions.{last_upto as upto, first_past as past, AreFalling, present};
ghost use Rattle.r3_chain.specs.Links.{IsChain, chain_in};
ghost use Rattle.r3_chain.specs.Long.{listed};

use r3_pool::{Pool, Slot};

/// A version of a key, with the slot of the next older one.
#[derive(Drop)]
pub struct Node<V> {
    pub index: u32,
    pub value: Option<V>,
    pub older: Option<Slot>,
}

/// The last version up to the index.
pub fn last_upto<V: Drop>(
    nodes: &Pool<Node<V>>,
    newest: Option<Slot>,
    index: u32,
) -> Option<&Node<V>>
    requires { IsChain nodes.now newest }
    ensures { option_map (λ n. (n.now.index, n.now.value)) result ≡ upto index (chain_in nodes.now newest) }
{
    let mut next = newest;
    'walk: while let Some(slot) = next {
        let node = nodes.get(slot);
        if node.index <= index {
            return Some(node);
        }
        next = node.older;
    }
    None
}

/// The index of the last version up to the index, a deletion counting; 0 for none.
pub fn version_upto<V: Drop>(nodes: &Pool<Node<V>>, newest: Option<Slot>, index: u32) -> u32
    requires { IsChain nodes.now newest }
    ensures { result ≡ option_map_or (λ v. v.0) (upto index (chain_in nodes.now newest)) 0 }
{
    match last_upto(nodes, newest, index) {
        Some(node) => node.index,
        None => 0,
    }
}

/// Puts a version before older ones, and tells the index of the one before it, 0 for none.
pub fn put_version<V: Drop>(
    nodes: &mut Pool<Node<V>>,
    index: u32,
    value: Option<V>,
    older: Option<Slot>,
) -> u32
    requires chain { IsChain nodes.old older }
    requires next { AllByRecursion (λ v. v.0 < index) (chain_in nodes.old older) }
    requires room { 0 < nodes.old.spare }
    ensures before { result ≡ option_map_or (λ v. v.0) (upto index (chain_in nodes.old older)) 0 }
    ensures fills { Fills nodes.old nodes.new (next_slot nodes.old)
        (record { index = index; value = value; older = older }) }
    ensures cap { nodes.new.cap ≡ nodes.old.cap }
    ensures spare { nodes.new.spare ≡ nodes.old.spare - 1 }
{
    match older {
        None => {
            nodes.put(Node {
                index,
                value,
                older: None,
            });
            0
        }
        Some(slot) => {
            let before = nodes.get(slot).index;
            nodes.put(Node {
                index,
                value,
                older: Some(slot),
            });
            before
        }
    }
}

/// Adds the version in this slot to the list, where there is an older one behind it.
pub fn list_version(long: &mut Vec<Slot>, slot: Slot, older: &Option<Slot>)
    requires { vec_len long.old < vec_capacity long.old }
    ensures items { long.new.items ≡ listed slot older.now long.old.items }
    ensures capacity { vec_capacity long.old ≤ vec_capacity long.new }
{
    if older.is_none() {
        return;
    }
    match long.push(slot) {
        Ok(()) => {}
        Err(_) => unreachable!(),
    }
}

/// The index of the last version up to the index, where it is no deletion.
pub fn present_upto<V: Drop>(nodes: &Pool<Node<V>>, newest: Option<Slot>, index: u32) -> Option<u32>
    requires { IsChain nodes.now newest }
    ensures { result ≡ option_map (λ p. p.1) (present (upto index (chain_in nodes.now newest))) }
{
    let node = last_upto(nodes, newest, index)?;
    match node.value {
        Some(_) => Some(node.index),
        None => None,
    }
}

/// The index of the first version past the snapshot.
pub fn first_past<V: Drop>(nodes: &Pool<Node<V>>, newest: Option<Slot>, snap: u32) -> Option<u32>
    requires chain { IsChain nodes.now newest }
    requires falling { AreFalling (chain_in nodes.now newest) }
    ensures { result ≡ past snap (chain_in nodes.now newest) }
{
    let mut first = None;
    let mut next = newest;
    'walk: while let Some(slot) = next {
        let node = nodes.get(slot);
        // The versions behind this one are older still.
        if node.index <= snap {
            return first;
        }
        first = Some(node.index);
        next = node.older;
    }
    first
}
