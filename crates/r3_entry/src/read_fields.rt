//! Read items, read field by field.

ghost use Rattle.std.specs.Prelude.{◌≡◌, ◌∷◌};
ghost use Rattle.r3_entry.specs.Bytes as spell;
ghost use Rattle.r3_entry.specs.Limits.{IsSeen, IsRead, AreSome};
ghost use Rattle.r3_entry.specs.Parse.{Parses};
ghost use Rattle.r3_entry.specs.Parts as part;

use crate::fields::{Miss, byte_of, number_of, place_of, sized_of};
use r3_bytes::Reader;
use r3_rows::Read;
use r3_value::Txt;
use sqlite_items::Items;
use std::alloc::Global;

type Bounds = ((Txt, Txt), Txt);

type Seen = (Txt, u32);

fn looked_of(alloc: Global, r: &mut Reader<'_>) -> Result<((Txt, Txt), u32), Miss>
    ensures { Parses part.looked part.IsLooked r.old.rest r.new.rest result }
{
    let place = place_of(alloc, r)?;
    let version = number_of(r)?;
    Ok((place, version))
}

fn from_of(alloc: Global, r: &mut Reader<'_>) -> Result<(Txt, Txt), Miss>
    ensures { Parses part.place part.IsFrom r.old.rest r.new.rest result }
{
    let table = sized_of(alloc, r, 1, 64)?;
    let lo = sized_of(alloc, r, 0, 256)?;
    Ok((table, lo))
}

fn bounds_of(alloc: Global, r: &mut Reader<'_>) -> Result<Bounds, Miss>
    ensures { Parses part.bounds part.AreBounds r.old.rest r.new.rest result }
{
    let from = from_of(alloc, r)?;
    let hi = sized_of(alloc, r, 0, 256)?;
    Ok((from, hi))
}

fn seen_of(alloc: Global, r: &mut Reader<'_>) -> Result<Seen, Miss>
    ensures { Parses part.seen IsSeen r.old.rest r.new.rest result }
{
    let key = sized_of(alloc, r, 1, 256)?;
    let version = number_of(r)?;
    Ok((key, version))
}

fn keys_of(alloc: Global, r: &mut Reader<'_>) -> Result<Items<Seen>, Miss>
    ensures { Parses (spell.list part.seen) (AreSome IsSeen) r.old.rest r.new.rest result }
{
    let count = number_of(r)?;
    let mut keys = Items::new(alloc);
    for _ in 0..count {
        match seen_of(alloc, r) {
            Err(miss) => return Err(miss),
            Ok(pair) => match keys.push(pair) {
                Err(_) => return Err(Miss::Memory),
                Ok(()) => {}
            },
        }
    }
    Ok(keys)
}

fn scanned_of(alloc: Global, r: &mut Reader<'_>) -> Result<(Bounds, Items<Seen>), Miss>
    ensures { Parses part.scanned part.IsScanned r.old.rest r.new.rest result }
{
    let bounds = bounds_of(alloc, r)?;
    let keys = keys_of(alloc, r)?;
    Ok((bounds, keys))
}

// The clauses of the next two speak of the bytes with the item's first byte before them.
fn at_of(alloc: Global, r: &mut Reader<'_>) -> Result<Read, Miss>
    ensures { Parses spell.read IsRead (0 ∷ r.old.rest) r.new.rest result }
{
    match looked_of(alloc, r) {
        Ok(((table, key), version)) => Ok(Read::At {
            table,
            key,
            version,
        }),
        Err(miss) => Err(miss),
    }
}

fn range_of(alloc: Global, r: &mut Reader<'_>) -> Result<Read, Miss>
    ensures { Parses spell.read IsRead (1 ∷ r.old.rest) r.new.rest result }
{
    match scanned_of(alloc, r) {
        Ok((((table, lo), hi), keys)) => Ok(Read::Range {
            table,
            lo,
            hi,
            keys,
        }),
        Err(miss) => Err(miss),
    }
}

pub fn read_of(alloc: Global, r: &mut Reader<'_>) -> Result<Read, Miss>
    ensures { Parses spell.read IsRead r.old.rest r.new.rest result }
{
    match byte_of(r)? {
        0 => at_of(alloc, r),
        1 => range_of(alloc, r),
        _ => Err(Miss::Absent),
    }
}
