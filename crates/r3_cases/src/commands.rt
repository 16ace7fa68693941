//! Commands, from their words.

ghost use Rattle.std.specs.Prelude.{◌≡◌, IfOk, IfSome};
ghost use Rattle.r3_entry.specs.Limits.{IfThere, IsRowKey, IsVal};
ghost use Rattle.r3_model.specs.Fits.{IsListed, IsText};
ghost use Rattle.r3_exec.specs.Fit.{IsGiven};

use r3_value::{Memory, Txt, Val};
use sqlite_items::Items;
use std::alloc::Global;
use sys_flow::{Command, Text};

fn text_of(alloc: Global, word: &str) -> Result<Text, Memory>
    ensures { IfOk result IsText }
{
    let copy = String::from_str(alloc, word)?;
    let text = Text::from_string(copy);
    // It tells that the text is UTF-8.
    let _word = text.as_str();
    Ok(text)
}

// The word `_` stands for no ID.
fn id_of(alloc: Global, word: &str) -> Result<Option<Text>, Memory>
    ensures { IfOk result (IfThere IsText) }
{
    if word == "_" {
        return Ok(None);
    }
    let id = text_of(alloc, word)?;
    Ok(Some(id))
}

// Decimal digits are a number, and any other word is a text.
fn value_of(alloc: Global, word: &str) -> Result<Val, Memory> {
    match word.parse::<i64>() {
        Ok(number) => Ok(Val::Int(number)),
        Err(_) => match Val::text(alloc, word) {
            Ok(text) => Ok(text),
            Err(_) => Err(Memory),
        },
    }
}

fn args_of(alloc: Global, words: &[&str]) -> Result<Val, Memory>
    ensures { IfOk result IsListed }
{
    let mut values = Vec::new(alloc);
    for word in words {
        values.push(value_of(alloc, word)?)?;
    }
    match Val::list(values) {
        Ok(args) => {
            // It tells that the value keeps its limits.
            let _weight = args.weight();
            Ok(args)
        }
        Err(_) => Err(Memory),
    }
}

fn row_of(alloc: Global, key: &str, number: i64) -> Result<(Txt, Val), Memory>
    ensures { IfOk result (λ r. IsRowKey r.0 × IsVal r.1) }
{
    if key.is_empty() || key.len() > 256 {
        return Err(Memory);
    }
    let value = Val::Int(number);
    let _weight = value.weight();
    match Txt::new(alloc, key) {
        Ok(key) => Ok((key, value)),
        Err(_) => Err(Memory),
    }
}

// The accounts a, b and c hold 10, 5 and 0.
fn load(alloc: Global, table: &str) -> Result<Command, Memory>
    ensures { IfOk result IsGiven }
{
    let a = row_of(alloc, "a", 10)?;
    let b = row_of(alloc, "b", 5)?;
    let c = row_of(alloc, "c", 0)?;
    let rows = vec![in alloc; a, b, c]?;
    Ok(Command::Load {
        table: text_of(alloc, table)?,
        rows: Items::from_vec(rows),
    })
}

// One row.
fn put(alloc: Global, table: &str, key: &str, number: &str) -> Result<Option<Command>, Memory>
    ensures { IfOk result (λ c. IfSome c IsGiven) }
{
    let number = match number.parse::<i64>() {
        Ok(number) => number,
        Err(_) => return Ok(None),
    };
    let row = row_of(alloc, key, number)?;
    let rows = vec![in alloc; row]?;
    Ok(Some(Command::Load {
        table: text_of(alloc, table)?,
        rows: Items::from_vec(rows),
    }))
}

fn fork(alloc: Global, source: &str, step: &str, to: &str) -> Result<Option<Command>, Memory>
    ensures { IfOk result (λ c. IfSome c IsGiven) }
{
    let step = match step.parse::<u32>() {
        Ok(step) => step,
        Err(_) => return Ok(None),
    };
    let source = text_of(alloc, source)?;
    let to = id_of(alloc, to)?;
    Ok(Some(Command::Fork { source, step, to }))
}

fn start(alloc: Global, id: &str, function: &str, args: &[&str]) -> Result<Command, Memory>
    ensures { IfOk result IsGiven }
{
    let id = id_of(alloc, id)?;
    let function = text_of(alloc, function)?;
    let args = args_of(alloc, args)?;
    Ok(Command::Start { id, function, args })
}

fn enqueue(
    alloc: Global,
    id: &str,
    queue: &str,
    function: &str,
    args: &[&str],
) -> Result<Command, Memory>
    ensures { IfOk result IsGiven }
{
    let id = id_of(alloc, id)?;
    let queue = text_of(alloc, queue)?;
    let function = text_of(alloc, function)?;
    let args = args_of(alloc, args)?;
    Ok(Command::Enqueue {
        id,
        queue,
        function,
        args,
    })
}

/// The command that the words are, if they are one.
pub fn command_of(alloc: Global, words: &[&str]) -> Result<Option<Command>, Memory>
    ensures { IfOk result (λ c. IfSome c IsGiven) }
{
    match words {
        ["load", table] => Ok(Some(load(alloc, table)?)),
        ["put", table, key, number] => put(alloc, table, key, number),
        ["start", id, function, args @ ..] => Ok(Some(start(alloc, id, function, args)?)),
        ["enqueue", id, queue, function, args @ ..] => {
            Ok(Some(enqueue(alloc, id, queue, function, args)?))
        }
        ["fork", source, step, to] => fork(alloc, source, step, to),
        ["cancel", id] => Ok(Some(Command::Cancel {
            id: text_of(alloc, id)?,
        })),
        ["resume", id] => Ok(Some(Command::Resume {
            id: text_of(alloc, id)?,
        })),
        ["recover", id] => Ok(Some(Command::Recover {
            id: text_of(alloc, id)?,
        })),
        _ => Ok(None),
    }
}
