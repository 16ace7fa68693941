//! An entry from its bytes.

ghost use Rattle.std.specs.Prelude.{◌≡◌, ◌<◌, ◌^◌, ◌↔◌, ◌++◌, length, IfOk, IfErr, IsTrue};
ghost use Rattle.std.specs.FinMap.Entries.{is_sorted};
ghost use Rattle.r3_rows.specs.Keys.{key_cmp};
ghost use Rattle.r3_entry.specs.Bytes as spell;
ghost use Rattle.r3_entry.specs.Limits.{IsEntry, IsRead, IsWrite, AreSome};
ghost use Rattle.r3_entry.specs.Parse.{Parses, Misses, IsNoEntry};
ghost use Rattle.r3_entry.specs.Parts as part;

use crate::act_fields::act_of;
use crate::entry::{Act, Entry};
use crate::fault::EntryFault;
use crate::fields::{Miss, key_of, number_of};
use crate::read_fields::read_of;
use crate::row_fields::cell_if_there;
use r3_bytes::Reader;
use r3_rows::{Cell, Key, Read, Writes, compare};
use sqlite_items::Items;
use std::alloc::Global;
use std::cmp::Ordering;

type Write = (Key, Option<Cell>);

fn write_of(alloc: Global, r: &mut Reader<'_>) -> Result<Write, Miss>
    ensures { Parses part.write IsWrite r.old.rest r.new.rest result }
{
    let key = key_of(alloc, r)?;
    let cell = cell_if_there(alloc, r)?;
    Ok((key, cell))
}

fn pairs_of(alloc: Global, r: &mut Reader<'_>) -> Result<Vec<Write>, Miss>
    ensures there { IfOk result (λ pairs. AreSome IsWrite pairs.items
        × (r.old.rest ≡ spell.list part.write pairs.items ++ r.new.rest)) }
    ensures absent { IfErr result (Misses (spell.list part.write) (AreSome IsWrite) r.old.rest) }
{
    let count = number_of(r)?;
    // No more than for a few at once: what the count promises may not be there.
    let Ok(mut pairs) = Vec::with_capacity(alloc, count.min(4) as usize) else {
        return Err(Miss::Memory);
    };
    for _ in 0..count {
        match write_of(alloc, r) {
            Err(miss) => return Err(miss),
            Ok(pair) => match pairs.push(pair) {
                Err(_) => return Err(Miss::Memory),
                Ok(()) => {}
            },
        }
    }
    Ok(pairs)
}

fn is_below_first(writes: &[Write], key: &Key) -> bool
    ensures { IsTrue result ↔ part.IsBelowFirst key.now writes.now }
{
    match writes.first() {
        None => true,
        Some(pair) => matches!(compare(key, &pair.0), Ordering::Less),
    }
}

// Whether the keys rise strictly, from the last pair to the first.
fn are_rising(pairs: &[Write]) -> bool
    ensures { IsTrue result ↔ IsTrue (is_sorted key_cmp pairs.now) }
{
    let mut from = pairs.len();
    'pairs: while from > 0 {
        if !is_below_first(&pairs[from..], &pairs[from - 1].0) {
            return false;
        }
        from -= 1;
    }
    true
}

fn ordered(pairs: Vec<Write>) -> Result<Writes, Miss>
    ensures { part.Ordered pairs.items result }
{
    if !are_rising(&pairs) {
        return Err(Miss::Absent);
    }
    Ok(Writes::from_list(pairs))
}

fn writes_in(alloc: Global, r: &mut Reader<'_>) -> Result<Writes, Miss>
    ensures { Parses (spell.list part.write) part.AreWrites r.old.rest r.new.rest result }
{
    match pairs_of(alloc, r) {
        Ok(pairs) => ordered(pairs),
        Err(miss) => Err(miss),
    }
}

fn reads_of(alloc: Global, r: &mut Reader<'_>) -> Result<Items<Read>, Miss>
    ensures { Parses (spell.list spell.read) (AreSome IsRead) r.old.rest r.new.rest result }
{
    let count = number_of(r)?;
    let Ok(first) = Vec::with_capacity(alloc, count.min(4) as usize) else {
        return Err(Miss::Memory);
    };
    let mut reads = Items::from_vec(first);
    for _ in 0..count {
        match read_of(alloc, r) {
            Err(miss) => return Err(miss),
            Ok(read) => match reads.push(read) {
                Err(_) => return Err(Miss::Memory),
                Ok(()) => {}
            },
        }
    }
    Ok(reads)
}

fn acted_of(alloc: Global, r: &mut Reader<'_>) -> Result<(Act, u32), Miss>
    ensures { Parses part.acted part.IsActed r.old.rest r.new.rest result }
{
    let act = act_of(alloc, r)?;
    let snap = number_of(r)?;
    Ok((act, snap))
}

fn looks_of(alloc: Global, r: &mut Reader<'_>) -> Result<((Act, u32), Items<Read>), Miss>
    ensures { Parses part.looks part.AreLooks r.old.rest r.new.rest result }
{
    let acted = acted_of(alloc, r)?;
    let reads = reads_of(alloc, r)?;
    Ok((acted, reads))
}

fn entry_of(alloc: Global, r: &mut Reader<'_>) -> Result<Entry, Miss>
    ensures { Parses spell.entry IsEntry r.old.rest r.new.rest result }
{
    let looks = looks_of(alloc, r)?;
    match writes_in(alloc, r) {
        Ok(writes) => {
            let ((act, snap), reads) = looks;
            Ok(Entry {
                act,
                snap,
                reads,
                writes,
            })
        }
        Err(miss) => Err(miss),
    }
}

/// The entry with these bytes, none of which is left over.
///
/// `NotEntry` comes exactly where no entry within its limits has these bytes: a number of an act, a
/// status or a kind that isn't there, a text, a value or a number past its limits, keys that don't
/// rise strictly, bytes that end too early or go on.
pub fn decode(alloc: Global, bytes: &[u8]) -> Result<Entry, EntryFault>
    requires { length bytes.now < 2 ^ 32 }
    ensures entry { IfOk result (λ e. IsEntry e × (bytes.now ≡ spell.entry e)) }
    ensures not_entry { (result ≡ Err EntryFault.NotEntry) → IsNoEntry bytes.now }
{
    let mut r = Reader::new(bytes);
    match entry_of(alloc, &mut r) {
        Ok(entry) => {
            if !r.ended() {
                return Err(EntryFault::NotEntry);
            }
            Ok(entry)
        }
        Err(Miss::Absent) => Err(EntryFault::NotEntry),
        Err(Miss::Memory) => Err(EntryFault::Memory),
    }
}
