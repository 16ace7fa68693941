//! Runs of function files, told as texts. Expected texts are worked out by hand.

mod bank;
mod copies;
mod limits;
mod maps;
mod workflows;

ghost use Rattle.std.specs.Prelude.{◌≡◌, ◌<◌};

use crate::{program, transact};
use fn_flow::{Answer, AskKind, FlowEnd, run_flow};
use fn_tree::checked::Checked;
use fn_tree::look::{Look, TxnRun};
use fn_txn::{Held, MemView};
use r3_json::{from_json, read, to_json};
use r3_steps::Steps;
use r3_value::{Outcome, Txt, Val};
use std::alloc::Global;
use std::marker::Brand;
use std::sync::ledger::{Blank, Ledger};
use std::test::Fail;

/// A key of the table `acct`, its value, or None where it was deleted, and its version.
type Row<'a> = (&'a str, Option<i64>, u32);

fn row(alloc: Global, key: &str, value: Option<i64>, version: u32) -> Result<Held, Fail> {
    let table = Txt::new(alloc, "acct")?;
    let key = Txt::new(alloc, key)?;
    let value = value.map(Val::Int);
    Ok(Held {
        table,
        key,
        value,
        version,
    })
}

/// A map of these rows, which stand in rising order.
fn map_of(alloc: Global, rows: &[Row<'_>]) -> Result<MemView, Fail> {
    let mut view = MemView::new(alloc);
    for (key, value, version) in rows {
        let held = row(alloc, key, *value, *version)?;
        view.rows.push(held)?;
    }
    Ok(view)
}

/// A map of the rows `k1000`, `k1001` and so on, so many.
fn many(alloc: Global, count: u32) -> Result<MemView, Fail> {
    let mut view = MemView::new(alloc);
    for i in 0..count {
        let number = u64::from(i) + 1000;
        let key = format!(in alloc; "k{number}")?;
        view.rows.push(row(alloc, &key, Some(1), 2)?)?;
    }
    Ok(view)
}

fn value_of(alloc: Global, json: &str) -> Result<Val, Fail> {
    let json = read(alloc, json.as_bytes())?;
    Ok(from_json(alloc, &json)?)
}

fn value_text(alloc: Global, value: &Val) -> Result<String, Fail> {
    let json = to_json(alloc, value)?;
    Ok(json.to_string(alloc)?)
}

fn outcome_text(alloc: Global, outcome: &Outcome) -> Result<String, Fail> {
    match outcome {
        Outcome::Value(value) => value_text(alloc, value),
        Outcome::Failure(word) => {
            let word = word.as_str();
            Ok(format!(in alloc; "fails with {word}")?)
        }
    }
}

// `TABLE/KEY@VERSION`, or `TABLE/[LO,HI)` and each key with its version.
fn look_text(alloc: Global, look: &Look) -> Result<String, Fail> {
    match look {
        Look::At {
            table,
            key,
            version,
        } => {
            let (table, key) = (table.as_str(), key.as_str());
            Ok(format!(in alloc; "{table}/{key}@{version}")?)
        }
        Look::Range {
            table,
            lo,
            hi,
            keys,
        } => {
            let (table, lo, hi) = (table.as_str(), lo.as_str(), hi.as_str());
            let mut text = format!(in alloc; "{table}/[{lo},{hi})")?;
            for (key, version) in keys.as_slice() {
                let key = key.as_str();
                text.push_str(&format!(in alloc; ",{key}@{version}")?)?;
            }
            Ok(text)
        }
    }
}

// `TABLE/KEY=VALUE`, or `TABLE/KEY-` where the key was deleted.
fn write_text(alloc: Global, write: &(Txt, Txt, Option<Val>)) -> Result<String, Fail> {
    let (table, key) = (write.0.as_str(), write.1.as_str());
    match &write.2 {
        Some(value) => {
            let value = value_text(alloc, value)?;
            Ok(format!(in alloc; "{table}/{key}={value}")?)
        }
        None => Ok(format!(in alloc; "{table}/{key}-")?),
    }
}

fn looks_text(alloc: Global, looks: &[Look]) -> Result<String, Fail> {
    let mut text = String::new(alloc);
    for look in looks {
        text.push(' ')?;
        text.push_str(&look_text(alloc, look)?)?;
    }
    Ok(text)
}

fn writes_text(alloc: Global, writes: &[(Txt, Txt, Option<Val>)]) -> Result<String, Fail> {
    let mut text = String::new(alloc);
    for write in writes {
        text.push(' ')?;
        text.push_str(&write_text(alloc, write)?)?;
    }
    Ok(text)
}

/// `OUTCOME; reads LOOK ..; writes WRITE ..`
fn run_text(alloc: Global, run: &TxnRun) -> Result<String, Fail> {
    let outcome = outcome_text(alloc, &run.outcome)?;
    let reads = looks_text(alloc, run.reads.as_slice())?;
    let writes = writes_text(alloc, run.writes.as_slice())?;
    Ok(format!(in alloc; "{outcome}; reads{reads}; writes{writes}")?)
}

/// `OUTCOME; 1 looks; 2 writes`
fn counts_text(alloc: Global, run: &TxnRun) -> Result<String, Fail> {
    let outcome = outcome_text(alloc, &run.outcome)?;
    let looks = run.reads.len();
    let writes = run.writes.len();
    Ok(format!(in alloc; "{outcome}; {looks} looks; {writes} writes")?)
}

fn counted_txn<L: Ledger>(
    alloc: Global,
    functions: &Checked,
    called: &Txt,
    args: &Val,
    view: &MemView,
    blank: Blank,
) -> Result<TxnRun, Fail>
    requires name { blank.name ≡ L.name }
    requires parts { blank.parts ≡ L.parts }
    requires some { 0 < blank.parts }
{
    let mut steps = Steps::<L>::new(blank);
    let run = transact(alloc, functions, called.as_str(), args, view, &mut steps)?;
    Ok(run.ok_or("no transaction is called so")?)
}

// The same, counted for nobody.
fn plain_txn(
    alloc: Global,
    functions: &Checked,
    called: &Txt,
    args: &Val,
    view: &MemView,
) -> Result<TxnRun, Fail> {
    counted_txn::<Brand>(alloc, functions, called, args, view, Blank::new(1))
}

/// What a transaction of a text gives on a map.
fn ran(alloc: Global, text: &str, name: &str, args: &str, view: &MemView) -> Result<TxnRun, Fail> {
    let functions = program(alloc, text.as_bytes())?;
    let args = value_of(alloc, args)?;
    let called = Txt::new(alloc, name)?;
    plain_txn(alloc, &functions, &called, &args, view)
}

// `NAME=JSON` or `NAME!WORD`.
fn answer(alloc: Global, step: &str) -> Result<Answer, Fail> {
    if let Some((name, json)) = step.split_once('=') {
        let name = Txt::new(alloc, name)?;
        let outcome = Outcome::Value(value_of(alloc, json)?);
        return Ok(Answer { name, outcome });
    }
    let (name, word) = step
        .split_once('!')
        .ok_or("an answer is a value or a failure")?;
    let name = Txt::new(alloc, name)?;
    let outcome = Outcome::Failure(Txt::new(alloc, word)?);
    Ok(Answer { name, outcome })
}

/// The answers between blanks, each `NAME=JSON` or `NAME!WORD`.
fn answers(alloc: Global, steps: &str) -> Result<Vec<Answer>, Fail> {
    let mut all = Vec::new(alloc);
    for step in steps.split(' ') {
        if !step.is_empty() {
            all.push(answer(alloc, step)?)?;
        }
    }
    Ok(all)
}

fn kind_text(kind: AskKind) -> &'static str {
    match kind {
        AskKind::Txn => "txn",
        AskKind::Outside => "outside",
        AskKind::Child => "child",
        AskKind::Await => "await",
    }
}

/// `done OUTCOME`, `asks NUMBER: KIND NAME ARGS`, or `unexpected NUMBER: RECORDED for ASKED`.
fn end_text(alloc: Global, end: &FlowEnd) -> Result<String, Fail> {
    match end {
        FlowEnd::Done(outcome) => {
            let outcome = outcome_text(alloc, outcome)?;
            Ok(format!(in alloc; "done {outcome}")?)
        }
        FlowEnd::Asks(request) => {
            let (n, name) = (request.n, request.name.as_str());
            let kind = kind_text(request.kind);
            let args = value_text(alloc, &request.args)?;
            Ok(format!(in alloc; "asks {n}: {kind} {name} {args}")?)
        }
        FlowEnd::Unexpected { n, recorded, asked } => {
            let (recorded, asked) = (recorded.as_str(), asked.as_str());
            Ok(format!(in alloc; "unexpected {n}: {recorded} for {asked}")?)
        }
    }
}

fn counted_flow<L: Ledger>(
    alloc: Global,
    functions: &Checked,
    called: &Txt,
    args: &Val,
    answers: &[Answer],
    blank: Blank,
) -> Result<FlowEnd, Fail>
    requires name { blank.name ≡ L.name }
    requires parts { blank.parts ≡ L.parts }
    requires some { 0 < blank.parts }
{
    let mut steps = Steps::<L>::new(blank);
    let end = run_flow(alloc, functions, called.as_str(), args, answers, &mut steps)?;
    Ok(end)
}

// The same, counted for nobody.
fn plain_flow(
    alloc: Global,
    functions: &Checked,
    called: &Txt,
    args: &Val,
    answers: &[Answer],
) -> Result<FlowEnd, Fail> {
    counted_flow::<Brand>(alloc, functions, called, args, answers, Blank::new(1))
}

/// How a workflow of a text ends on these answers.
fn ended(alloc: Global, text: &str, name: &str, args: &str, steps: &str) -> Result<String, Fail> {
    let functions = program(alloc, text.as_bytes())?;
    let args = value_of(alloc, args)?;
    let answers = answers(alloc, steps)?;
    let called = Txt::new(alloc, name)?;
    let end = plain_flow(alloc, &functions, &called, &args, &answers)?;
    end_text(alloc, &end)
}
