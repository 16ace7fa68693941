//! The forms of a line, by the number of their members.

ghost use Rattle.std.specs.Prelude.{◌≡◌, IfOk, IfSome, option_map};
ghost use Rattle.serde_json.specs.View.{view};
ghost use Rattle.r3_model.specs.Forms as forms;
ghost use Rattle.r3_lines.specs.Lines.{as_line, IsKept};
ghost use Rattle.r3_lines.specs.Sizes.{size_of, among};

use crate::line::Line;
use crate::members::{args_at, id_at, key_at, number_at, text_at};
use crate::rows::rows_at;
use r3_value::Memory;
use serde_json::Value;
use std::alloc::Global;
use sys_flow::Command;

const MAX_STEP: u32 = 1000;

const MAX_TURNS: u32 = 1_000_000;

fn of_one(alloc: Global, json: &Value) -> Result<Line, Memory>
    ensures read { IfOk result (λ l. as_line l ≡ among 1 (view json.now)) }
    ensures kept { IfOk result IsKept }
{
    if let Some(id) = text_at(alloc, json, "cancel")? {
        return Ok(Line::Command(Command::Cancel { id }));
    }
    if let Some(id) = text_at(alloc, json, "resume")? {
        return Ok(Line::Command(Command::Resume { id }));
    }
    if let Some(id) = text_at(alloc, json, "turn")? {
        return Ok(Line::Turn(id));
    }
    if let Some(queue) = text_at(alloc, json, "dequeue")? {
        return Ok(Line::Dequeue(queue));
    }
    if let Some(id) = text_at(alloc, json, "status")? {
        return Ok(Line::Status(id));
    }
    match number_at(json, "drain", 1, MAX_TURNS) {
        Some(turns) => Ok(Line::Drain { turns }),
        None => Ok(Line::Unformed),
    }
}

fn load_line(alloc: Global, json: &Value) -> Result<Option<Line>, Memory>
    ensures read { IfOk result (λ l. option_map as_line l ≡ forms.load_line (view json.now)) }
    ensures kept { IfOk result (λ l. IfSome l IsKept) }
{
    let table = match text_at(alloc, json, "load")? {
        None => return Ok(None),
        Some(table) => table,
    };
    match rows_at(alloc, json, "rows")? {
        None => Ok(None),
        Some(rows) => Ok(Some(Line::Command(Command::Load { table, rows }))),
    }
}

fn get_line(alloc: Global, json: &Value) -> Result<Option<Line>, Memory>
    ensures read { IfOk result (λ l. option_map as_line l ≡ forms.get_line (view json.now)) }
    ensures kept { IfOk result (λ l. IfSome l IsKept) }
{
    let table = match text_at(alloc, json, "get")? {
        None => return Ok(None),
        Some(table) => table,
    };
    match key_at(alloc, json, "key")? {
        None => Ok(None),
        Some(key) => Ok(Some(Line::Get { table, key })),
    }
}

fn of_two(alloc: Global, json: &Value) -> Result<Line, Memory>
    ensures read { IfOk result (λ l. as_line l ≡ among 2 (view json.now)) }
    ensures kept { IfOk result IsKept }
{
    if let Some(line) = load_line(alloc, json)? {
        return Ok(line);
    }
    match get_line(alloc, json)? {
        Some(line) => Ok(line),
        None => Ok(Line::Unformed),
    }
}

fn start_line(alloc: Global, json: &Value) -> Result<Option<Line>, Memory>
    ensures read { IfOk result (λ l. option_map as_line l ≡ forms.start_line (view json.now)) }
    ensures kept { IfOk result (λ l. IfSome l IsKept) }
{
    let id = match id_at(alloc, json, "start")? {
        None => return Ok(None),
        Some(id) => id,
    };
    let function = match text_at(alloc, json, "fn")? {
        None => return Ok(None),
        Some(function) => function,
    };
    match args_at(alloc, json, "args")? {
        None => Ok(None),
        Some(args) => Ok(Some(Line::Command(Command::Start { id, function, args }))),
    }
}

fn fork_line(alloc: Global, json: &Value) -> Result<Option<Line>, Memory>
    ensures read { IfOk result (λ l. option_map as_line l ≡ forms.fork_line (view json.now)) }
    ensures kept { IfOk result (λ l. IfSome l IsKept) }
{
    let source = match text_at(alloc, json, "fork")? {
        None => return Ok(None),
        Some(source) => source,
    };
    let step = match number_at(json, "step", 0, MAX_STEP) {
        None => return Ok(None),
        Some(step) => step,
    };
    match id_at(alloc, json, "to")? {
        None => Ok(None),
        Some(to) => Ok(Some(Line::Command(Command::Fork { source, step, to }))),
    }
}

fn of_three(alloc: Global, json: &Value) -> Result<Line, Memory>
    ensures read { IfOk result (λ l. as_line l ≡ among 3 (view json.now)) }
    ensures kept { IfOk result IsKept }
{
    if let Some(line) = start_line(alloc, json)? {
        return Ok(line);
    }
    match fork_line(alloc, json)? {
        Some(line) => Ok(line),
        None => Ok(Line::Unformed),
    }
}

fn enqueue_line(alloc: Global, json: &Value) -> Result<Option<Line>, Memory>
    ensures read { IfOk result (λ l. option_map as_line l ≡ forms.enqueue_line (view json.now)) }
    ensures kept { IfOk result (λ l. IfSome l IsKept) }
{
    let id = match id_at(alloc, json, "enqueue")? {
        None => return Ok(None),
        Some(id) => id,
    };
    let queue = match text_at(alloc, json, "queue")? {
        None => return Ok(None),
        Some(queue) => queue,
    };
    let function = match text_at(alloc, json, "fn")? {
        None => return Ok(None),
        Some(function) => function,
    };
    match args_at(alloc, json, "args")? {
        None => Ok(None),
        Some(args) => Ok(Some(Line::Command(Command::Enqueue {
            id,
            queue,
            function,
            args,
        }))),
    }
}

fn of_four(alloc: Global, json: &Value) -> Result<Line, Memory>
    ensures read { IfOk result (λ l. as_line l ≡ among 4 (view json.now)) }
    ensures kept { IfOk result IsKept }
{
    match enqueue_line(alloc, json)? {
        Some(line) => Ok(line),
        None => Ok(Line::Unformed),
    }
}

#[tactic(auto, using(crate::proofs::Counts::counts))]
fn size_of(json: &Value) -> usize
    ensures { result ≡ size_of (view json.now) }
{
    match json.as_object() {
        None => 0,
        Some(members) => members.len(),
    }
}

/// The line that a JSON is. No two forms have the same keys.
pub fn line_from(alloc: Global, json: &Value) -> Result<Line, Memory>
    ensures read { IfOk result (λ l. as_line l ≡ forms.line_among forms.forms (view json.now)) }
    ensures kept { IfOk result IsKept }
{
    match size_of(json) {
        1 => of_one(alloc, json),
        2 => of_two(alloc, json),
        3 => of_three(alloc, json),
        4 => of_four(alloc, json),
        _ => Ok(Line::Unformed),
    }
}
