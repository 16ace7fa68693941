//! The writes of an entry become versions.

ghost use Rattle.std.specs.Prelude.{◌≡◌, ◌+◌, IsTrue, OnOk, List, length};
ghost use Rattle.r3_rows.specs.Keys.{key_cmp};
ghost use Rattle.r3_entry.specs.declared.entry.Entry.{Entry};
ghost use Rattle.r3_chain.specs.Versions.{has_room, without, installed, key_set, IsNext};
ghost use Rattle.r3_formed.specs.Past.{all_installed, AreReady, HasRoom, StandFor};

use r3_chain::Chains;
use r3_pool::PoolFault;
use r3_rows::{Cell, Key, Writes};
use r3_snap::WriteSet;
use r3_value::Memory;
use std::alloc::Global;

fn install_one(chains: &mut Chains<Key, Cell>, index: u32, key: &Key, value: Option<Cell>)
    requires room { IsTrue (has_room key_cmp key.now chains.old.room) }
    requires next { IsNext key_cmp index key.now chains.old.versions }
    ensures versions { chains.new.versions
        ≡ installed key_cmp index key.now value chains.old.versions }
    ensures room { chains.new.room ≡ without key_cmp key.now chains.old.room }
    ensures cap { chains.new.cap ≡ chains.old.cap }
{
    chains.install(index, key, value)
}

fn install_write(chains: &mut Chains<Key, Cell>, index: u32, write: (Key, Option<Cell>))
    requires room { IsTrue (has_room key_cmp write.0 chains.old.room) }
    requires next { IsNext key_cmp index write.0 chains.old.versions }
    ensures versions { chains.new.versions
        ≡ installed key_cmp index write.0 write.1 chains.old.versions }
    ensures room { chains.new.room ≡ without key_cmp write.0 chains.old.room }
    ensures cap { chains.new.cap ≡ chains.old.cap }
{
    let (key, value) = write;
    install_one(chains, index, &key, value);
}

/// Adds a version for each write. It takes no memory.
pub fn install_all(chains: &mut Chains<Key, Cell>, index: u32, writes: Vec<(Key, Option<Cell>)>)
    requires { AreReady index writes.items chains.old.room chains.old.versions }
    ensures versions { chains.new.versions ≡ all_installed index writes.items chains.old.versions }
    ensures cap { chains.new.cap ≡ chains.old.cap }
{
    // They are taken from the end.
    let mut writes = writes;
    writes.reverse();
    'writes: while let Some(write) = writes.pop() {
        install_write(chains, index, write);
    }
}

/// Makes room for one version of each of the keys, which the cap allows.
pub fn make_room(
    alloc: Global,
    chains: &mut Chains<Key, Cell>,
    keys: Vec<Key>,
) -> Result<(), Memory>
    requires { HasRoom chains.old (length keys.items) }
    ensures room { OnOk result (chains.new.room ≡ key_set key_cmp keys.items) }
    ensures versions { chains.new.versions ≡ chains.old.versions }
    ensures cap { chains.new.cap ≡ chains.old.cap }
{
    match chains.reserve(alloc, keys) {
        Ok(()) => Ok(()),
        Err(PoolFault::Full) => unreachable!(),
        Err(PoolFault::Memory) => Err(Memory),
    }
}

/// Adds a version for each write of entry number `index`.
pub fn put_versions(
    alloc: Global,
    chains: &mut Chains<Key, Cell>,
    index: u32,
    writes: &Writes,
) -> Result<(), Memory>
    requires stands { (h : List Entry) × (index ≡ length h + 1) × StandFor chains.old.versions h 0 }
    requires room { HasRoom chains.old (length writes.now) }
    ensures versions { OnOk result (chains.new.versions
        ≡ all_installed index writes.now chains.old.versions) }
    ensures cap { chains.new.cap ≡ chains.old.cap }
{
    let copy = writes.copy()?;
    let keys = WriteSet::of(alloc, writes)?;
    make_room(alloc, chains, keys.into_keys())?;
    install_all(chains, index, copy.into_list());
    Ok(())
}
