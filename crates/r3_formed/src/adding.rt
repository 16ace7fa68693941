//! Entries that aren't kept: what they read and write is moved, and the rules are tested on the way.
//!
//! A copy of each key and value, and a look-up for each rule, would cost more than all else at opening.
//! What is added for an entry that breaks a rule stays: such chains are dropped.

ghost use Rattle.std.specs.Prelude.{◌≡◌, ◌↔◌, ◌+◌, ◌<◌, ◌≤◌, ◌^◌, ◌++◌, [], ◌∷◌, Err, IfOk, OnOk, IsTrue, T, List, ℕ, length};
ghost use Rattle.std.specs.List.{AllByRecursion};
ghost use Rattle.std.specs.FinMap.Entries.{is_sorted};
ghost use Rattle.r3_rows.specs.Keys.{key_cmp};
ghost use Rattle.r3_rows.specs.declared.rows.Key.TheVariants.{Flow, Step};
ghost use Rattle.r3_entry.specs.declared.entry.Entry.{Entry};
ghost use Rattle.r3_entry.specs.Bytes.{entry as spelled};
ghost use Rattle.r3_entry.specs.Limits.{IsEntry};
ghost use Rattle.r3_entry.specs.Formed.{Follows, IsOfKind, IsFlowRow};
ghost use Rattle.r3_chain.specs.Versions.{IsNext, as_of, installed};
ghost use Rattle.r3_formed.specs.Past.{HasRoom, StandFor, all_installed};
ghost use Rattle.r3_formed.specs.Rules.{HasFlow, look_in, version_in};
ghost use Rattle.r3_formed.specs.Adding.{AreNext, IsWithin, MayStand, MayAllStand};

use crate::limits::{has_few_reads, has_few_rows};
use crate::looks::{is_present, is_read_again, version_as_of};
use crate::rules::{is_flow_row, is_of_kind, is_program_first, kind_of};
use r3_chain::Chains;
use r3_entry::{Act, Entry, EntryFault, decode, one_spelling};
use r3_pool::PoolFault;
use r3_rows::{Cell, Key, Read};
use r3_value::Memory;
use sqlite_items::Items;
use std::alloc::Global;

// Whether the look gives the same as of the index.
fn is_read_back(
    alloc: Global,
    chains: &Chains<Key, Cell>,
    index: u32,
    read: Read,
) -> Result<bool, Memory>
    requires { T (is_sorted key_cmp chains.now.versions) }
    ensures { IfOk result (λ b. IsTrue b
        ↔ (read ≡ look_in (as_of index chains.now.versions) read)) }
{
    match read {
        Read::At {
            table,
            key,
            version,
        } => {
            let row = Key::User { table, key };
            Ok(version_as_of(chains, &row, index) == version)
        }
        Read::Range {
            table,
            lo,
            hi,
            keys,
        } => {
            let range = Read::Range {
                table,
                lo,
                hi,
                keys,
            };
            is_read_again(alloc, chains, index, &range)
        }
    }
}

// Whether each of the looks does.
fn are_read_back(
    alloc: Global,
    chains: &Chains<Key, Cell>,
    index: u32,
    reads: Items<Read>,
) -> Result<bool, Memory>
    requires { T (is_sorted key_cmp chains.now.versions) }
    ensures { IfOk result (λ b. IsTrue b
        ↔ AllByRecursion (λ r. r ≡ look_in (as_of index chains.now.versions) r) reads) }
{
    let mut reads = reads;
    'reads: while let Some(read) = reads.pop() {
        if !is_read_back(alloc, chains, index, read)? {
            return Ok(false);
        }
    }
    Ok(true)
}

// The step of a workflow, by the workflow's key.
fn step_of(flow: Key, n: u32) -> Key
    ensures { (id : List ℕ) → flow ≡ Flow id → result ≡ Step id n }
{
    match flow {
        Key::Flow { id } => Key::Step { id, n },
        Key::User { table, key } => Key::User { table, key },
        Key::Step { id, n } => Key::Step { id, n },
    }
}

// Whether the workflow of the key is there as of the index, where the key is a step's. It gives the key
// back: the ID isn't copied.
fn with_flow(chains: &Chains<Key, Cell>, index: u32, key: Key) -> (bool, Key)
    requires { T (is_sorted key_cmp chains.now.versions) }
    ensures flow { IsTrue result.0 ↔ HasFlow (as_of index chains.now.versions) key }
    ensures key { result.1 ≡ key }
{
    match key {
        Key::Step { id, n } => {
            let flow = Key::Flow { id };
            let is_there = is_present(chains, &flow, index);
            (is_there, step_of(flow, n))
        }
        Key::User { table, key } => (true, Key::User { table, key }),
        Key::Flow { id } => (true, Key::Flow { id }),
    }
}

// Adds one version, and tells the version before, 0 for none.
fn add_version(
    chains: &mut Chains<Key, Cell>,
    index: u32,
    key: Key,
    value: Option<Cell>,
) -> Result<u32, Memory>
    requires sorted { T (is_sorted key_cmp chains.old.versions) }
    requires next { IsNext key_cmp index key chains.old.versions }
    requires room { HasRoom chains.old 1 }
    ensures versions { OnOk result (chains.new.versions
        ≡ installed key_cmp index key value chains.old.versions) }
    ensures before { IfOk result (λ v. v ≡ version_in (as_of index chains.old.versions) key) }
    ensures cap { chains.new.cap ≡ chains.old.cap }
{
    match chains.add(index, key, value) {
        Ok(before) => Ok(before),
        Err(PoolFault::Full) => unreachable!(),
        Err(PoolFault::Memory) => Err(Memory),
    }
}

fn is_sound_write(number: u32, write: &(Key, Option<Cell>)) -> bool
    ensures { IsTrue result ↔ IsOfKind write.now × IsFlowRow number write.now }
{
    is_of_kind(&write.0, &write.1) && is_flow_row(number, &write.0, &write.1)
}

// Adds a version for the write, and tells whether entry number `index` of this snapshot may write so.
fn add_write(
    chains: &mut Chains<Key, Cell>,
    index: u32,
    snap: u32,
    write: (Key, Option<Cell>),
) -> Result<bool, Memory>
    requires sorted { T (is_sorted key_cmp chains.old.versions) }
    requires next { IsNext key_cmp index write.0 chains.old.versions }
    requires room { HasRoom chains.old 1 }
    ensures may { IfOk result (λ b. IsTrue b ↔ MayStand index snap write chains.old.versions) }
    ensures versions { OnOk result (chains.new.versions
        ≡ installed key_cmp index write.0 write.1 chains.old.versions) }
    ensures cap { chains.new.cap ≡ chains.old.cap }
{
    let is_sound = is_sound_write(index, &write);
    let (key, value) = write;
    let is_step = kind_of(&key) == 2;
    let (has_flow, key) = with_flow(chains, index, key);
    let before = add_version(chains, index, key, value)?;
    Ok(is_sound && has_flow && before <= snap && (!is_step || before == 0))
}

// The same, for each write in turn.
fn add_writes(
    chains: &mut Chains<Key, Cell>,
    index: u32,
    snap: u32,
    writes: Vec<(Key, Option<Cell>)>,
) -> Result<bool, Memory>
    requires next { AreNext index writes.items chains.old.versions }
    requires room { HasRoom chains.old (length writes.items) }
    ensures may { IfOk result (λ b. IsTrue b
        ↔ MayAllStand index snap writes.items chains.old.versions) }
    ensures versions { IfOk result (λ b. IsTrue b →
        chains.new.versions ≡ all_installed index writes.items chains.old.versions) }
    ensures cap { chains.new.cap ≡ chains.old.cap }
{
    // They are taken from the end.
    let mut writes = writes;
    writes.reverse();
    'writes: while let Some(write) = writes.pop() {
        if !add_write(chains, index, snap, write)? {
            return Ok(false);
        }
    }
    Ok(true)
}

// Whether the reads and writes may stand in an entry behind so many, whose versions the chains keep.
fn add_parts(
    alloc: Global,
    chains: &mut Chains<Key, Cell>,
    count: u32,
    snap: u32,
    reads: Items<Read>,
    writes: Vec<(Key, Option<Cell>)>,
) -> Result<bool, Memory>
    requires few { count < 1000000 }
    requires next { AreNext (count + 1) writes.items chains.old.versions }
    requires room { HasRoom chains.old (length writes.items) }
    ensures may { IfOk result (λ b. IsTrue b
        ↔ AllByRecursion (λ r. r ≡ look_in (as_of snap chains.old.versions) r) reads
        × MayAllStand (count + 1) snap writes.items chains.old.versions) }
    ensures versions { IfOk result (λ b. IsTrue b →
        chains.new.versions ≡ all_installed (count + 1) writes.items chains.old.versions) }
    ensures cap { chains.new.cap ≡ chains.old.cap }
{
    if !are_read_back(alloc, chains, snap, reads)? {
        return Ok(false);
    }
    let may = add_writes(chains, count + 1, snap, writes)?;
    Ok(may)
}

// Whether the entry keeps the rules that speak of numbers alone.
fn is_within(count: u32, entry: &Entry) -> bool
    ensures { IsTrue result ↔ IsWithin count entry.now }
{
    entry.snap <= count
        && has_few_rows(entry.writes.list())
        && has_few_reads(entry.reads.as_slice())
}

// Drops an act, in one place for all its variants.
fn let_act_go(_act: Act) {}

// Whether the entry may follow so many entries, whose versions the chains keep, and what it did. Where it
// may, they keep its versions too.
fn move_in(
    alloc: Global,
    chains: &mut Chains<Key, Cell>,
    count: u32,
    entry: Entry,
) -> Result<(bool, Act), Memory>
    requires few { count < 1000000 }
    requires stands { (h : List Entry) × (count ≡ length h) × StandFor chains.old.versions h 0 }
    requires room { HasRoom chains.old (length entry.writes) }
    ensures follows { (h : List Entry) → count ≡ length h → StandFor chains.old.versions h 0 →
        IfOk result (λ r. IsTrue r.0 ↔ Follows h entry) }
    ensures versions { (h : List Entry) → count ≡ length h → StandFor chains.old.versions h 0 →
        IfOk result (λ r. IsTrue r.0 → StandFor chains.new.versions (h ++ entry ∷ []) 0) }
    ensures act { IfOk result (λ r. r.1 ≡ entry.act) }
    ensures cap { chains.new.cap ≡ chains.old.cap }
{
    let is_known = is_program_first(count, &entry) && is_within(count, &entry);
    let Entry {
        act,
        snap,
        reads,
        writes,
    } = entry;
    match add_parts(alloc, chains, count, snap, reads, writes.into_list()) {
        Ok(may) => Ok((is_known && may, act)),
        Err(fault) => {
            let_act_go(act);
            Err(fault)
        }
    }
}

/// What the entry with these bytes did, where it may stand there. The chains then keep its versions too.
pub fn move_payload(
    alloc: Global,
    chains: &mut Chains<Key, Cell>,
    count: u32,
    payload: &[u8],
) -> Result<Act, EntryFault>
    requires bytes { length payload.now ≤ 2 ^ 23 }
    requires few { count < 1000000 }
    requires stands { (h : List Entry) × (count ≡ length h) × StandFor chains.old.versions h 0 }
    requires room { HasRoom chains.old (2 ^ 21) }
    ensures entry { (h : List Entry) → count ≡ length h → StandFor chains.old.versions h 0 →
        IfOk result (λ act. (e : Entry) × (act ≡ e.act) × IsEntry e × (payload.now ≡ spelled e)
        × Follows h e × StandFor chains.new.versions (h ++ e ∷ []) 0) }
    ensures unformed { (h : List Entry) → count ≡ length h → StandFor chains.old.versions h 0 →
        result ≡ Err EntryFault.NotEntry → (e : Entry) → payload.now ≡ spelled e → IsEntry e →
        Follows h e → ⊥ }
    ensures cap { chains.new.cap ≡ chains.old.cap }
{
    let entry = match decode(alloc, payload) {
        Ok(entry) => entry,
        Err(fault) => return Err(fault),
    };
    one_spelling();
    match move_in(alloc, chains, count, entry) {
        Ok((true, act)) => Ok(act),
        Ok((false, act)) => {
            let_act_go(act);
            Err(EntryFault::NotEntry)
        }
        Err(_) => Err(EntryFault::Memory),
    }
}
