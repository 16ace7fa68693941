//! The recorded steps of a workflow.

ghost use Rattle.std.specs.Prelude.{◌≡◌, ◌≤◌, List, length, map, take, IfOk};
ghost use Rattle.std.specs.Option.{option_copied};
ghost use Rattle.r3_entry.specs.declared.entry.Entry.{Entry};
ghost use Rattle.r3_model.specs.Rows.{step_at, steps_at, answer_of};

use crate::cells::step_in;
use crate::past::Past;
use crate::workflows::cell_now;
use fn_tree::flow::Answer;
use r3_rows::{Key, StepRow};
use r3_value::{Memory, Txt};
use std::alloc::Global;

/// A workflow has at most so many steps.
const MOST_STEPS: u32 = 1000;

// The row of a step as it stands.
fn step_row<'a, P: Past>(past: &'a P, id: &Txt, n: u32) -> Result<Option<&'a StepRow>, Memory>
    requires stands { (h : List Entry) × P.stands past.now h }
    ensures { IfOk result (λ row. (h : List Entry) → P.stands past.now h → option_copied row ≡ step_at h (length h) id.now n) }
{
    let key = Key::Step { id: id.copy()?, n };
    Ok(step_in(cell_now(past, &key)))
}

/// The first recorded steps of a workflow, at most so many, copied.
pub fn recorded_below<P: Past>(
    alloc: Global,
    past: &P,
    id: &Txt,
    below: u32,
) -> Result<Vec<StepRow>, Memory>
    requires stands { (h : List Entry) × P.stands past.now h }
    ensures { IfOk result (λ steps. (h : List Entry) → P.stands past.now h → steps.items ≡ take below (steps_at h (length h) id.now)) }
{
    let mut rows = Vec::new(alloc);
    'steps: for n in 0..MOST_STEPS {
        if n >= below {
            return Ok(rows);
        }
        match step_row(past, id, n)? {
            None => return Ok(rows),
            Some(row) => rows.push(row.copy()?)?,
        }
    }
    Ok(rows)
}

/// The recorded steps of a workflow, copied.
pub fn recorded<P: Past>(alloc: Global, past: &P, id: &Txt) -> Result<Vec<StepRow>, Memory>
    requires stands { (h : List Entry) × P.stands past.now h }
    ensures { IfOk result (λ steps. (h : List Entry) → P.stands past.now h → steps.items ≡ steps_at h (length h) id.now) }
{
    let rows = recorded_below(alloc, past, id, MOST_STEPS)?;
    Ok(rows)
}

/// The number of recorded steps of a workflow: 1,000 at most.
pub fn recorded_count<P: Past>(past: &P, id: &Txt) -> Result<u32, Memory>
    requires stands { (h : List Entry) × P.stands past.now h }
    ensures count { IfOk result (λ count. (h : List Entry) → P.stands past.now h → count ≡ length (steps_at h (length h) id.now)) }
    ensures few { IfOk result (λ count. count ≤ 1000) }
{
    'steps: for n in 0..MOST_STEPS {
        match step_row(past, id, n)? {
            None => return Ok(n),
            Some(_) => {}
        }
    }
    Ok(MOST_STEPS)
}

fn answer_of(row: StepRow) -> Answer
    ensures { result ≡ answer_of row }
{
    let StepRow {
        name,
        kind: _,
        outcome,
    } = row;
    Answer { name, outcome }
}

// Each step, as a run is told it.
fn told(alloc: Global, rows: Vec<StepRow>) -> Result<Vec<Answer>, Memory>
    ensures { IfOk result (λ told. told.items ≡ map answer_of rows.items) }
{
    let mut answers = Vec::new(alloc);
    'rows: for row in rows {
        answers.push(answer_of(row))?;
    }
    Ok(answers)
}

/// The recorded steps of a workflow, as its run is told them.
pub fn answers<P: Past>(alloc: Global, past: &P, id: &Txt) -> Result<Vec<Answer>, Memory>
    requires stands { (h : List Entry) × P.stands past.now h }
    ensures { IfOk result (λ told. (h : List Entry) → P.stands past.now h → told.items ≡ map answer_of (steps_at h (length h) id.now)) }
{
    let rows = recorded(alloc, past, id)?;
    let answers = told(alloc, rows)?;
    Ok(answers)
}
