//! Conflicts of a transaction with what was committed since its snapshot.

ghost use Rattle.std.specs.Prelude.{◌≡◌, IfOk};
ghost use Rattle.r3_snap.specs.Conflicts.{earlier as sooner, keys_of, conflict_past};

use r3_chain::Chains;
use r3_rows::{Cell, Key, Writes};
use r3_value::Memory;
use std::alloc::Global;
use std::marker::Model;

/// The keys that a transaction writes.
#[derive(Drop)]
pub struct WriteSet {
    keys: Vec<Key>,
}

impl Model for WriteSet {
    ghost use Rattle.std.specs.Prelude.{List};
    ghost use Rattle.r3_rows.specs.declared.rows.Key.{Key};

    ghost Value = { List Key };

    ghost view = { λ s. s.keys.items };
}

impl WriteSet {
    /// The keys of the writes, in their order.
    pub fn of(alloc: Global, writes: &Writes) -> Result<WriteSet, Memory>
        ensures { IfOk result (λ set. set ≡ keys_of writes.now) }
    {
        let mut keys = Vec::new(alloc);
        'writes: for write in writes.list() {
            keys.push(write.0.copy()?)?;
        }
        Ok(WriteSet { keys })
    }

    /// The keys.
    pub fn keys(&self) -> &[Key]
        ensures { result.now ≡ self.now }
    {
        &self.keys
    }

    /// Hands out the keys.
    pub fn into_keys(self) -> Vec<Key>
        ensures { result.items ≡ self }
    {
        self.keys
    }
}

/// The least entry past the snapshot that wrote one of the keys. The chains weren't trimmed past the
/// snapshot. It takes no memory.
pub fn conflict(chains: &Chains<Key, Cell>, writes: &WriteSet, snap: u32) -> Option<u32>
    ensures { result ≡ conflict_past snap writes.now chains.now.versions }
{
    let mut least = None;
    'keys: for key in writes.keys() {
        least = earlier(least, chains.after(key, snap));
    }
    least
}

fn earlier(a: Option<u32>, b: Option<u32>) -> Option<u32>
    ensures { result ≡ sooner a b }
{
    match (a, b) {
        (None, _) => b,
        (Some(_), None) => a,
        (Some(i), Some(j)) => Some(i.min(j)),
    }
}
