//! Whether there is room for one more entry.

ghost use Rattle.std.specs.Prelude.{◌≡◌, ◌≤◌, ◌<◌, ◌^◌, length, IfOk};
ghost use Rattle.std.specs.Option.{option_map};
ghost use Rattle.r3_entry.specs.Bytes as spell;
ghost use Rattle.r3_entry.specs.Formed.{IsFormed};
ghost use Rattle.r3_entry.specs.Limits.{IsEntry};
ghost use Rattle.r3_model.specs.Machine.{full_of};
ghost use Rattle.r3_plain.specs.Words.{limit_of};

use crate::reply::Limit;
use r3_entry::{Entry, encode};
use r3_value::Memory;
use std::alloc::Global;

const MOST_ENTRIES: usize = 1_000_000;

const MOST_BYTES: u64 = 1 << 30;

// The number of an entry's bytes.
fn payload_size(alloc: Global, entry: &Entry) -> Result<u64, Memory>
    requires { IsEntry entry.now }
    ensures { IfOk result (λ n. n ≡ length (spell.entry entry.now)) }
{
    let bytes = encode(alloc, entry)?;
    Ok(bytes.len() as u64)
}

// The number of bytes of a history's file.
fn file_size(alloc: Global, history: &[Entry]) -> Result<u64, Memory>
    requires { IsFormed history.now }
    ensures { IfOk result (λ n. n ≡ spell.size history.now) }
{
    let mut size = 9u64;
    'entries: for entry in history {
        size += 5 + payload_size(alloc, entry)?;
    }
    Ok(size)
}

/// What there is no room for, if there is none for the entry.
pub fn full_of(alloc: Global, history: &[Entry], entry: &Entry) -> Result<Option<Limit>, Memory>
    requires formed { IsFormed history.now }
    requires limits { length history.now < 1000000 → IsEntry entry.now × (length (spell.entry entry.now) ≤ 2 ^ 23) }
    ensures { IfOk result (λ l. option_map limit_of l ≡ full_of history.now entry.now) }
{
    if history.len() >= MOST_ENTRIES {
        return Ok(Some(Limit::Entries));
    }
    let size = file_size(alloc, history)?;
    let more = payload_size(alloc, entry)?;
    if size + 5 + more > MOST_BYTES {
        return Ok(Some(Limit::Bytes));
    }
    Ok(None)
}
