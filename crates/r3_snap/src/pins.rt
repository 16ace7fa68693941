//! The snapshots that are pinned.

ghost use Rattle.std.specs.Prelude.{◌≡◌, ◌↔◌, ◌<◌, ◌≤◌, ◌++◌, [], ◌∷◌, ℕ, IfOk, OnOk, OnErr, None, Contains, length, slice_index_or};
ghost use Rattle.std.specs.Option.{IfSome};
ghost use Rattle.std.specs.List.Sorted.{IsPermutation};
ghost use Rattle.r3_snap.specs.Pins.{IsLeast, least_in, lesser};

use r3_value::Memory;
use std::alloc::Global;
use std::marker::Model;

/// Pinned snapshots, each as often as it was held and not released.
#[derive(Drop)]
pub struct Pins {
    held: Vec<u32>,
}

impl Model for Pins {
    ghost use Rattle.std.specs.Prelude.{List, ℕ};

    ghost Value = { List ℕ };

    ghost view = { λ p. p.held.items };
}

impl Pins {
    /// No pins. It takes no memory.
    pub fn new(alloc: Global) -> Pins
        ensures { result ≡ [] }
    {
        Pins {
            held: Vec::new(alloc),
        }
    }

    /// Pins a snapshot once more.
    pub fn hold(&mut self, snap: u32) -> Result<(), Memory>
        ensures ok { OnOk result (self.new ≡ self.old ++ snap ∷ []) }
        ensures err { OnErr result (self.new ≡ self.old) }
    {
        self.held.push(snap)?;
        Ok(())
    }

    /// Gives back one pin of a snapshot that is pinned. It takes no memory.
    pub fn release(&mut self, snap: u32)
        requires { Contains self.old snap }
        ensures one { IsPermutation self.old (snap ∷ self.new) }
        ensures fewer { (s : ℕ) → Contains self.new s → Contains self.old s }
    {
        let at = place_of(&self.held, snap);
        self.held.remove(at);
    }

    /// The least snapshot that is pinned, or None where none is.
    pub fn least(&self) -> Option<u32>
        ensures least { IfSome result (IsLeast self.now) }
        ensures none { (result ≡ None) ↔ (self.now ≡ []) }
    {
        least_of(&self.held)
    }
}

// Where the snapshot stands first.
fn place_of(held: &[u32], snap: u32) -> usize
    requires { Contains held.now snap }
    ensures within { result < length held.now }
    ensures value { slice_index_or held.now result snap ≡ snap }
{
    'held: for (i, other) in held.iter().enumerate() {
        if *other == snap {
            return i;
        }
    }
    unreachable!()
}

fn lower(least: Option<u32>, snap: u32) -> u32
    ensures { result ≡ lesser least snap }
{
    match least {
        None => snap,
        Some(least) => least.min(snap),
    }
}

fn least_of(held: &[u32]) -> Option<u32>
    ensures { result ≡ least_in held.now }
{
    let mut least = None;
    'held: for snap in held {
        least = Some(lower(least, *snap));
    }
    least
}
