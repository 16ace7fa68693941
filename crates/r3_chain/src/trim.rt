//! Discarding old versions, whose slots are then used again.

ghost use Rattle.std.specs.Prelude.{◌≡◌, IsSome};
ghost use Rattle.r3_pool.specs.Slots.{value_at, live_count};
ghost use Rattle.r3_chain.specs.Links.{IsChain, trace};
ghost use Rattle.r3_chain.specs.Cuts.{IsLine, Frees, EndsAt, Trims, cut_slot};

use crate::node::Node;
use r3_pool::{Pool, Slot};

// The slot of the last version up to the index, where it has older ones behind it.
fn slot_to_cut<V: Drop>(nodes: &Pool<Node<V>>, newest: Option<Slot>, oldest: u32) -> Option<Slot>
    requires { IsChain nodes.now newest }
    ensures { result ≡ cut_slot oldest (trace (live_count nodes.now) (value_at nodes.now) newest) }
{
    let mut next = newest;
    'walk: while let Some(slot) = next {
        let node = nodes.get(slot);
        if node.index <= oldest {
            return if node.older.is_some() {
                Some(slot)
            } else {
                None
            };
        }
        next = node.older;
    }
    None
}

// Drops the version.
fn older_of<V: Drop>(node: Node<V>) -> Option<Slot>
    ensures { result ≡ node.older }
{
    node.older
}

// Frees the slots from this one on.
fn free_chain<V: Drop>(nodes: &mut Pool<Node<V>>, from: Option<Slot>)
    requires { IsLine (live_count nodes.old) (value_at nodes.old) from }
    ensures { Frees (trace (live_count nodes.old) (value_at nodes.old) from) nodes.old nodes.new }
{
    let mut next = from;
    'free: while let Some(slot) = next {
        next = older_of(nodes.take(slot));
    }
}

// Makes a version the last of its chain, and tells which one was behind it.
fn end_at<V: Drop>(nodes: &mut Pool<Node<V>>, slot: Slot) -> Option<Slot>
    requires { IsSome (value_at nodes.old slot) }
    ensures { EndsAt slot result nodes.old nodes.new }
{
    let Node {
        index,
        value,
        older,
    } = nodes.take(slot);
    // The slot freed last is used first, so the version stays where it is.
    nodes.put(Node {
        index,
        value,
        older: None,
    });
    older
}

/// Cuts a chain behind its last version up to the index. Where nothing is behind it, nothing changes.
pub fn trim_chain<V: Drop>(nodes: &mut Pool<Node<V>>, newest: Option<Slot>, oldest: u32)
    requires { IsLine (live_count nodes.old) (value_at nodes.old) newest }
    ensures { Trims (live_count nodes.old) oldest newest nodes.old nodes.new }
{
    if let Some(slot) = slot_to_cut(nodes, newest, oldest) {
        let older = end_at(nodes, slot);
        free_chain(nodes, older);
    }
}
