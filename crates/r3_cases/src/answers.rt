//! Answers, in words.

use r3_desk::MemDesk;
use r3_exec::{CommandEnd, DequeueEnd, TurnEnd};
use r3_gate::Limit;
use r3_recover::DrainEnd;
use r3_rows::{FlowRow, Status};
use r3_value::{Memory, Outcome, Txt, Val};
use std::alloc::Global;
use sys_flow::Refusal;

/// These words.
pub fn words_of(alloc: Global, words: &str) -> Result<String, Memory> {
    Ok(String::from_str(alloc, words)?)
}

fn status_word(status: Status) -> &'static str {
    match status {
        Status::Enqueued => "ENQUEUED",
        Status::Pending => "PENDING",
        Status::Success => "SUCCESS",
        Status::Error => "ERROR",
        Status::Cancelled => "CANCELLED",
        Status::MaxRecoveryAttemptsExceeded => "MAX_RECOVERY_ATTEMPTS_EXCEEDED",
    }
}

fn limit_word(limit: Limit) -> &'static str {
    match limit {
        Limit::Entries => "entries",
        Limit::Bytes => "bytes",
    }
}

fn refusal_words(alloc: Global, refusal: Refusal) -> Result<String, Memory> {
    let word = match refusal {
        Refusal::UnknownTable => "unknown_table",
        Refusal::UnknownQueue => "unknown_queue",
        Refusal::UnknownFunction => "unknown_function",
        Refusal::Arity => "arity",
        Refusal::Id => "id",
        Refusal::UnknownId => "unknown_id",
        Refusal::Conflict => "conflict",
        Refusal::Status { status } => status_word(status),
        Refusal::Step => "step",
    };
    Ok(format!(in alloc; "refused {word}")?)
}

/// What a command came to.
pub fn command_words(alloc: Global, end: &CommandEnd) -> Result<String, Memory> {
    match end {
        CommandEnd::Made { number, id } => match id {
            Some(id) => Ok(format!(in alloc; "entry {} {}", *number, id.as_str())?),
            None => Ok(format!(in alloc; "entry {}", *number)?),
        },
        CommandEnd::Refused(refusal) => refusal_words(alloc, *refusal),
        CommandEnd::Full { limit } => Ok(format!(in alloc; "full {}", limit_word(*limit))?),
    }
}

/// What a turn came to.
pub fn turn_words(alloc: Global, end: &TurnEnd) -> Result<String, Memory> {
    match end {
        TurnEnd::None { status } => Ok(format!(in alloc; "none {}", status_word(*status))?),
        TurnEnd::Began { snap } => Ok(format!(in alloc; "began {}", *snap)?),
        TurnEnd::Entry { number } => Ok(format!(in alloc; "entry {}", *number)?),
        TurnEnd::Conflict { entry } => Ok(format!(in alloc; "conflict {}", *entry)?),
        TurnEnd::Waiting { id } => Ok(format!(in alloc; "waiting {}", id.as_str())?),
        TurnEnd::Again => words_of(alloc, "again"),
        TurnEnd::Unexpected { n, recorded, asked } => Ok(format!(in alloc;
            "unexpected {} recorded {} asked {}",
            *n,
            recorded.as_str(),
            asked.as_str()
        )?),
        TurnEnd::Full { limit } => Ok(format!(in alloc; "full {}", limit_word(*limit))?),
    }
}

/// What a dequeue came to.
pub fn dequeue_words(alloc: Global, end: &DequeueEnd) -> Result<String, Memory> {
    match end {
        DequeueEnd::Started { id, number } => {
            Ok(format!(in alloc; "entry {} {}", *number, id.as_str())?)
        }
        DequeueEnd::Empty => words_of(alloc, "empty"),
        DequeueEnd::Limit { running } => Ok(format!(in alloc; "limit {}", *running)?),
        DequeueEnd::Full { limit } => Ok(format!(in alloc; "full {}", limit_word(*limit))?),
    }
}

/// What a drain came to.
pub fn drain_words(alloc: Global, end: DrainEnd) -> Result<String, Memory> {
    match end {
        DrainEnd::Idle { turns } => Ok(format!(in alloc; "idle {turns}")?),
        DrainEnd::Spent { turns } => Ok(format!(in alloc; "spent {turns}")?),
    }
}

// A value that is no list.
fn plain_words(alloc: Global, value: &Val) -> Result<String, Memory> {
    match value {
        Val::Null => words_of(alloc, "null"),
        Val::Bool(b) => Ok(format!(in alloc; "{b}")?),
        Val::Int(n) => Ok(format!(in alloc; "{n}")?),
        Val::Text(text) => words_of(alloc, text.as_str()),
        Val::List(values) => Ok(format!(in alloc; "[{} values]", values.items().len())?),
    }
}

/// A value, of a list its values, each behind a space.
pub fn value_words(alloc: Global, value: &Val) -> Result<String, Memory> {
    match value {
        Val::List(values) => {
            let mut words = String::new(alloc);
            for value in values.items() {
                let word = plain_words(alloc, value)?;
                words.push_str(" ")?;
                words.push_str(word.as_str())?;
            }
            Ok(words)
        }
        _ => plain_words(alloc, value),
    }
}

/// What a step or a workflow gave.
pub fn outcome_words(alloc: Global, outcome: &Outcome) -> Result<String, Memory> {
    match outcome {
        Outcome::Value(value) => {
            let word = value_words(alloc, value)?;
            Ok(format!(in alloc; "value {}", word.as_str())?)
        }
        Outcome::Failure(word) => Ok(format!(in alloc; "failure {}", word.as_str())?),
    }
}

fn ended_words(alloc: Global, outcome: &Option<Outcome>) -> Result<String, Memory> {
    match outcome {
        None => words_of(alloc, "none"),
        Some(outcome) => outcome_words(alloc, outcome),
    }
}

fn text_or_none(text: &Option<Txt>) -> &str {
    match text {
        None => "none",
        Some(text) => text.as_str(),
    }
}

/// A workflow's row: the status, the function with its arguments, the outcome, the queue, the entry that made
/// it, the recoveries, the parent.
pub fn flow_words(alloc: Global, row: &FlowRow) -> Result<String, Memory> {
    let args = value_words(alloc, &row.args)?;
    let outcome = ended_words(alloc, &row.outcome)?;
    Ok(format!(in alloc;
        "{} {}{}; {}; queue {}; started {}; attempts {}; parent {}",
        status_word(row.status),
        row.function.as_str(),
        args.as_str(),
        outcome.as_str(),
        text_or_none(&row.queue),
        row.started,
        row.attempts,
        text_or_none(&row.parent)
    )?)
}

/// The texts, each behind a space.
pub fn names_words(alloc: Global, names: &[Txt]) -> Result<String, Memory> {
    let mut words = String::new(alloc);
    for name in names {
        words.push_str(" ")?;
        words.push_str(name.as_str())?;
    }
    Ok(words)
}

/// The external calls, each as the workflow's ID, the step, the name, the arguments, and the answer.
pub fn asked_words(alloc: Global, desk: &MemDesk) -> Result<String, Memory> {
    let mut words = String::new(alloc);
    for call in desk.asked() {
        let args = value_words(alloc, &call.args)?;
        let answer = ended_words(alloc, &call.answer)?;
        let call = format!(in alloc;
            "{} {} {}{}: {}; ",
            call.id.as_str(),
            call.n,
            call.name.as_str(),
            args.as_str(),
            answer.as_str()
        )?;
        words.push_str(call.as_str())?;
    }
    Ok(words)
}
