//! The entries of a store, in words.

use crate::answers::{flow_words, outcome_words, value_words, words_of};
use crate::play::desk_over;
use r3_desk::MemDesk;
use r3_entry::{Act, Entry};
use r3_rows::{Cell, Key, Read};
use r3_store::Store;
use r3_value::{Memory, Txt, Val};
use std::alloc::Global;
use std::process::Abort;
use std::test::Fail;

fn of_flow(alloc: Global, word: &str, id: &Txt) -> Result<String, Memory> {
    Ok(format!(in alloc; "{word} {}", id.as_str())?)
}

fn of_call(alloc: Global, word: &str, id: &Txt, n: u32, args: &Val) -> Result<String, Memory> {
    let args = value_words(alloc, args)?;
    Ok(format!(in alloc; "{word} {} {n}{}", id.as_str(), args.as_str())?)
}

fn of_other(alloc: Global, word: &str, id: &Txt, n: u32, other: &Txt) -> Result<String, Memory> {
    Ok(format!(in alloc; "{word} {} {n} {}", id.as_str(), other.as_str())?)
}

fn act_words(alloc: Global, act: &Act) -> Result<String, Memory> {
    match act {
        Act::Program { text } => Ok(format!(in alloc; "program {}", text.as_str())?),
        Act::Load => words_of(alloc, "load"),
        Act::Start { id } => of_flow(alloc, "start", id),
        Act::Enqueue { id } => of_flow(alloc, "enqueue", id),
        Act::Dequeue { id } => of_flow(alloc, "dequeue", id),
        Act::Txn { id, n, args } => of_call(alloc, "txn", id, *n, args),
        Act::Outside { id, n, args } => of_call(alloc, "outside", id, *n, args),
        Act::Child { id, n, child } => of_other(alloc, "child", id, *n, child),
        Act::Await { id, n, on } => of_other(alloc, "await", id, *n, on),
        Act::Finish { id } => of_flow(alloc, "finish", id),
        Act::Cancel { id } => of_flow(alloc, "cancel", id),
        Act::Resume { id } => of_flow(alloc, "resume", id),
        Act::Fork { id, from, below } => of_other(alloc, "fork", id, *below, from),
        Act::Recover { id } => of_flow(alloc, "recover", id),
    }
}

// A key with its version, or a range with each key that was there.
fn read_words(alloc: Global, read: &Read) -> Result<String, Memory> {
    match read {
        Read::At {
            table,
            key,
            version,
        } => Ok(format!(in alloc; "{}/{}@{}", table.as_str(), key.as_str(), *version)?),
        Read::Range {
            table,
            lo,
            hi,
            keys,
        } => {
            let (table, lo, hi) = (table.as_str(), lo.as_str(), hi.as_str());
            let mut words = format!(in alloc; "{table}/[{lo},{hi})")?;
            for (key, version) in keys.as_slice() {
                let word = format!(in alloc; ",{}@{}", key.as_str(), *version)?;
                words.push_str(word.as_str())?;
            }
            Ok(words)
        }
    }
}

fn key_words(alloc: Global, key: &Key) -> Result<String, Memory> {
    match key {
        Key::User { table, key } => Ok(format!(in alloc; "{}/{}", table.as_str(), key.as_str())?),
        Key::Flow { id } => words_of(alloc, id.as_str()),
        Key::Step { id, n } => Ok(format!(in alloc; "{}.{}", id.as_str(), *n)?),
    }
}

fn cell_words(alloc: Global, cell: &Cell) -> Result<String, Memory> {
    match cell {
        Cell::Row(value) => value_words(alloc, value),
        Cell::Flow(row) => flow_words(alloc, row),
        Cell::Step(row) => {
            let (kind, name) = (row.kind.word(), row.name.as_str());
            let outcome = outcome_words(alloc, &row.outcome)?;
            Ok(format!(in alloc; "{kind} {name} {}", outcome.as_str())?)
        }
    }
}

// A key with what stands there, or with a hyphen where it was deleted.
fn write_words(alloc: Global, key: &Key, cell: &Option<Cell>) -> Result<String, Memory> {
    let key = key_words(alloc, key)?;
    match cell {
        None => Ok(format!(in alloc; "{}-", key.as_str())?),
        Some(cell) => {
            let cell = cell_words(alloc, cell)?;
            Ok(format!(in alloc; "{}={}", key.as_str(), cell.as_str())?)
        }
    }
}

fn reads_words(alloc: Global, reads: &[Read]) -> Result<String, Memory> {
    let mut words = String::new(alloc);
    for read in reads {
        let word = read_words(alloc, read)?;
        words.push_str(" ")?;
        words.push_str(word.as_str())?;
    }
    Ok(words)
}

fn writes_words(alloc: Global, writes: &[(Key, Option<Cell>)]) -> Result<String, Memory> {
    let mut words = String::new(alloc);
    for (key, cell) in writes {
        let word = write_words(alloc, key, cell)?;
        words.push_str(" ")?;
        words.push_str(word.as_str())?;
    }
    Ok(words)
}

// What was done, the number of entries that it stands on, what it read, and what it wrote.
fn entry_words(alloc: Global, entry: &Entry) -> Result<String, Memory> {
    let act = act_words(alloc, &entry.act)?;
    let reads = reads_words(alloc, entry.reads.as_slice())?;
    let writes = writes_words(alloc, entry.writes.list())?;
    Ok(format!(in alloc;
        "{}; on {}; reads{}; writes{}",
        act.as_str(),
        entry.snap,
        reads.as_str(),
        writes.as_str()
    )?)
}

/// The entries of these numbers, counted from 1, stand in the store; their words stand beside them.
pub fn told(
    rt: &impl Abort,
    alloc: Global,
    desk: &MemDesk,
    wanted: &[(usize, &str)],
) -> Result<(), Fail> {
    let mut desk = desk_over(alloc, desk.image(), 0)?;
    let entries = Store::history(alloc, &mut desk)?;
    for (number, want) in wanted {
        let entry = entries
            .get(number.saturating_sub(1))
            .ok_or("no entry has the number")?;
        let words = entry_words(alloc, entry)?;
        assert_eq!(rt; words.as_str(), *want, "entry {number}");
    }
    Ok(())
}
