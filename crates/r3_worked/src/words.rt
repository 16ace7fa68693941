//! Replies, calls and entries, in words.

use r3_entry::{Act, Entry};
use r3_plain::{Call, Limit, Out, Reply};
use r3_rows::{Cell, FlowRow, Key, Read, StepRow};
use r3_value::{Memory, Outcome, Txt, Val};
use std::alloc::Global;
use sys_flow::Refusal;

/// These words.
pub fn words_of(alloc: Global, words: &str) -> Result<String, Memory> {
    Ok(String::from_str(alloc, words)?)
}

// A value that is no list.
fn plain_words(alloc: Global, value: &Val) -> Result<String, Memory> {
    match value {
        Val::Null => words_of(alloc, "null"),
        Val::Bool(b) => Ok(format!(in alloc; "{b}")?),
        Val::Int(n) => Ok(format!(in alloc; "{n}")?),
        Val::Text(text) => words_of(alloc, text.as_str()),
        Val::List(values) => Ok(format!(in alloc; "[{} values]", values.items().len())?),
    }
}

// A value, of a list its values, each behind a space.
fn value_words(alloc: Global, value: &Val) -> Result<String, Memory> {
    match value {
        Val::List(values) => {
            let mut words = String::new(alloc);
            for value in values.items() {
                let word = plain_words(alloc, value)?;
                words.push_str(" ")?;
                words.push_str(word.as_str())?;
            }
            Ok(words)
        }
        _ => plain_words(alloc, value),
    }
}

fn outcome_words(alloc: Global, outcome: &Outcome) -> Result<String, Memory> {
    match outcome {
        Outcome::Value(value) => {
            let word = value_words(alloc, value)?;
            Ok(format!(in alloc; "value {}", word.as_str())?)
        }
        Outcome::Failure(word) => Ok(format!(in alloc; "failure {}", word.as_str())?),
    }
}

fn outcome_or_none(alloc: Global, outcome: &Option<Outcome>) -> Result<String, Memory> {
    match outcome {
        None => words_of(alloc, "none"),
        Some(outcome) => outcome_words(alloc, outcome),
    }
}

fn text_or_none(text: &Option<Txt>) -> &str {
    match text {
        None => "none",
        Some(text) => text.as_str(),
    }
}

// A workflow's row: the status, the function with its arguments, the outcome, the queue, the entry that made
// it, the recoveries, the parent.
fn flow_words(alloc: Global, row: &FlowRow) -> Result<String, Memory> {
    let args = value_words(alloc, &row.args)?;
    let outcome = outcome_or_none(alloc, &row.outcome)?;
    Ok(format!(in alloc;
        "{} {}{}; {}; queue {}; started {}; attempts {}; parent {}",
        row.status.word(),
        row.function.as_str(),
        args.as_str(),
        outcome.as_str(),
        text_or_none(&row.queue),
        row.started,
        row.attempts,
        text_or_none(&row.parent)
    )?)
}

fn limit_word(limit: Limit) -> &'static str {
    match limit {
        Limit::Entries => "entries",
        Limit::Bytes => "bytes",
    }
}

fn refusal_word(refusal: Refusal) -> &'static str {
    match refusal {
        Refusal::UnknownTable => "unknown_table",
        Refusal::UnknownQueue => "unknown_queue",
        Refusal::UnknownFunction => "unknown_function",
        Refusal::Arity => "arity",
        Refusal::Id => "id",
        Refusal::UnknownId => "unknown_id",
        Refusal::Conflict => "conflict",
        Refusal::Status { status } => status.word(),
        Refusal::Step => "step",
    }
}

fn reply_words(alloc: Global, reply: &Reply) -> Result<String, Memory> {
    match reply {
        Reply::Entry { number } => Ok(format!(in alloc; "entry {}", *number)?),
        Reply::EntryOf { number, id } => {
            Ok(format!(in alloc; "entry {} {}", *number, id.as_str())?)
        }
        Reply::Full(limit) => Ok(format!(in alloc; "full {}", limit_word(*limit))?),
        Reply::Refused(refusal) => Ok(format!(in alloc; "refused {}", refusal_word(*refusal))?),
        Reply::Began { snap } => Ok(format!(in alloc; "began {}", *snap)?),
        Reply::Conflicts { entry } => Ok(format!(in alloc; "conflict {}", *entry)?),
        Reply::Waiting { id } => Ok(format!(in alloc; "waiting {}", id.as_str())?),
        Reply::Again => words_of(alloc, "again"),
        Reply::NotPending(status) => Ok(format!(in alloc; "none {}", status.word())?),
        Reply::Unexpects { n, recorded, asked } => Ok(format!(in alloc;
            "unexpected {} recorded {} asked {}",
            *n,
            recorded.as_str(),
            asked.as_str()
        )?),
        Reply::Empty => words_of(alloc, "empty"),
        Reply::AtLimit { running } => Ok(format!(in alloc; "limit {}", *running)?),
        Reply::Row { id: _, row } => flow_words(alloc, row),
        Reply::Value(value) => value_words(alloc, value),
        Reply::Absent => words_of(alloc, "absent"),
        Reply::Nil => words_of(alloc, "nil"),
    }
}

// The workflow, the step, the name with the arguments, and the answer.
fn call_words(alloc: Global, call: &Call) -> Result<String, Memory> {
    let args = value_words(alloc, &call.args)?;
    let answer = outcome_or_none(alloc, &call.answer)?;
    Ok(format!(in alloc;
        ", called {} {} {}{}: {}",
        call.id.as_str(),
        call.n,
        call.name.as_str(),
        args.as_str(),
        answer.as_str()
    )?)
}

/// The call that was made, to stand behind a reply.
pub fn called_words(alloc: Global, call: &Option<Call>) -> Result<String, Memory> {
    match call {
        None => Ok(String::new(alloc)),
        Some(call) => call_words(alloc, call),
    }
}

/// A reply, with the call that was made.
pub fn out_words(alloc: Global, out: Out) -> Result<String, Memory> {
    let reply = reply_words(alloc, &out.reply)?;
    let called = called_words(alloc, &out.call)?;
    Ok(format!(in alloc; "{}{}", reply.as_str(), called.as_str())?)
}

fn act_words(alloc: Global, act: &Act) -> Result<String, Memory> {
    match act {
        Act::Program { .. } => words_of(alloc, "program"),
        Act::Load => words_of(alloc, "load"),
        Act::Start { id } => Ok(format!(in alloc; "start {}", id.as_str())?),
        Act::Enqueue { id } => Ok(format!(in alloc; "enqueue {}", id.as_str())?),
        Act::Dequeue { id } => Ok(format!(in alloc; "dequeue {}", id.as_str())?),
        Act::Txn { id, n, args } => step_act_words(alloc, "txn", id, *n, args),
        Act::Outside { id, n, args } => step_act_words(alloc, "outside", id, *n, args),
        Act::Child { id, n, child } => {
            Ok(format!(in alloc; "child {} {} {}", id.as_str(), *n, child.as_str())?)
        }
        Act::Await { id, n, on } => {
            Ok(format!(in alloc; "await {} {} {}", id.as_str(), *n, on.as_str())?)
        }
        Act::Finish { id } => Ok(format!(in alloc; "finish {}", id.as_str())?),
        Act::Cancel { id } => Ok(format!(in alloc; "cancel {}", id.as_str())?),
        Act::Resume { id } => Ok(format!(in alloc; "resume {}", id.as_str())?),
        Act::Fork { id, from, below } => {
            Ok(format!(in alloc; "fork {} {} {}", id.as_str(), from.as_str(), *below)?)
        }
        Act::Recover { id } => Ok(format!(in alloc; "recover {}", id.as_str())?),
    }
}

fn step_act_words(
    alloc: Global,
    act: &str,
    id: &Txt,
    n: u32,
    args: &Val,
) -> Result<String, Memory> {
    let args = value_words(alloc, args)?;
    Ok(format!(in alloc; "{act} {} {n}{}", id.as_str(), args.as_str())?)
}

fn seen_words(alloc: Global, keys: &[(Txt, u32)]) -> Result<String, Memory> {
    let mut words = String::new(alloc);
    for key in keys {
        let word = format!(in alloc; " {}@{}", key.0.as_str(), key.1)?;
        words.push_str(word.as_str())?;
    }
    Ok(words)
}

// A key with its version, or a range with those of its keys.
fn read_words(alloc: Global, read: &Read) -> Result<String, Memory> {
    match read {
        Read::At {
            table,
            key,
            version,
        } => Ok(format!(in alloc; "{}.{}@{}", table.as_str(), key.as_str(), *version)?),
        Read::Range {
            table,
            lo,
            hi,
            keys,
        } => {
            let seen = seen_words(alloc, keys.as_slice())?;
            Ok(format!(in alloc;
                "{}[{}, {}]{}",
                table.as_str(),
                lo.as_str(),
                hi.as_str(),
                seen.as_str()
            )?)
        }
    }
}

fn key_words(alloc: Global, key: &Key) -> Result<String, Memory> {
    match key {
        Key::User { table, key } => Ok(format!(in alloc; "{}.{}", table.as_str(), key.as_str())?),
        Key::Flow { id } => words_of(alloc, id.as_str()),
        Key::Step { id, n } => Ok(format!(in alloc; "{}#{}", id.as_str(), *n)?),
    }
}

fn step_words(alloc: Global, row: &StepRow) -> Result<String, Memory> {
    let outcome = outcome_words(alloc, &row.outcome)?;
    Ok(format!(in alloc;
        "{} {} {}",
        row.kind.word(),
        row.name.as_str(),
        outcome.as_str()
    )?)
}

fn cell_words(alloc: Global, cell: &Option<Cell>) -> Result<String, Memory> {
    match cell {
        None => words_of(alloc, "deleted"),
        Some(Cell::Row(value)) => value_words(alloc, value),
        Some(Cell::Flow(row)) => words_of(alloc, row.status.word()),
        Some(Cell::Step(row)) => step_words(alloc, row),
    }
}

fn write_words(alloc: Global, write: &(Key, Option<Cell>)) -> Result<String, Memory> {
    let key = key_words(alloc, &write.0)?;
    let cell = cell_words(alloc, &write.1)?;
    Ok(format!(in alloc; "{} = {}", key.as_str(), cell.as_str())?)
}

/// An entry: the act, its snapshot, what was read with its versions, what is written.
pub fn entry_words(alloc: Global, entry: &Entry) -> Result<String, Memory> {
    let act = act_words(alloc, &entry.act)?;
    let mut words = format!(in alloc; "{} on {}", act.as_str(), entry.snap)?;
    for read in entry.reads.as_slice() {
        let read = read_words(alloc, read)?;
        words.push_str("; ")?;
        words.push_str(read.as_str())?;
    }
    for write in entry.writes.list() {
        let write = write_words(alloc, write)?;
        words.push_str("; ")?;
        words.push_str(write.as_str())?;
    }
    Ok(words)
}

/// The texts, each behind a space.
pub fn names_words(alloc: Global, names: &[Txt]) -> Result<String, Memory> {
    let mut words = String::new(alloc);
    for name in names {
        words.push_str(" ")?;
        words.push_str(name.as_str())?;
    }
    Ok(words)
}
