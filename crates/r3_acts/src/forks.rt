//! The entry of a fork.

ghost use Rattle.std.specs.Prelude.{◌≡◌, ◌≤◌, ◌∷◌, ◌++◌, ℕ, List, map, length, take, IfOk};
ghost use Rattle.std.specs.List.{enumerate_from};
ghost use Rattle.r3_entry.specs.declared.entry.Entry.{Entry};
ghost use Rattle.r3_model.specs.Acts.{fork_entry, flow_write, step_write};
ghost use Rattle.r3_model.specs.Rows.{steps_at};
ghost use Rattle.r3_acts.specs.Entries.{IsMadeOn};

use crate::plain::{plain, started};
use r3_entry::{Act, Entry};
use r3_rows::{Cell, FlowRow, Key, Status, StepRow, Writes};
use r3_value::{Memory, Txt};
use std::alloc::Global;

type Pairs = Vec<(Key, Option<Cell>)>;

// A row with the steps behind it, counted from 0.
fn with_steps(alloc: Global, id: &Txt, row: FlowRow, steps: Vec<StepRow>) -> Result<Pairs, Memory>
    requires { length steps.items ≤ 1000 }
    ensures { IfOk result (λ pairs. pairs.items ≡ flow_write id.now row ∷ map (λ s. step_write id.now s.0 s.1) (enumerate_from 0 steps.items)) }
{
    let mut pairs = Vec::new(alloc);
    pairs.push((Key::Flow { id: id.copy()? }, Some(Cell::Flow(row))))?;
    let mut n = 0u32;
    'steps: for step in steps {
        let key = Key::Step { id: id.copy()?, n };
        pairs.push((key, Some(Cell::Step(step))))?;
        n += 1;
    }
    Ok(pairs)
}

/// A workflow starts with the function and the arguments of a source, and with its first steps.
pub fn fork_entry(
    alloc: Global,
    count: u32,
    id: &Txt,
    source: &Txt,
    row: &FlowRow,
    steps: Vec<StepRow>,
    below: u32,
) -> Result<Entry, Memory>
    requires count { count ≤ 1000000 }
    requires few { length steps.items ≤ 1000 }
    ensures { IfOk result (λ e. (h : List Entry) → length h ≡ count →
        steps.items ≡ take below (steps_at h (length h) source.now) → e ≡ fork_entry h id.now source.now row.now below) }
{
    let first = started(
        Status::Pending,
        &row.function,
        &row.args,
        None,
        count + 1,
        None,
    )?;
    let pairs = with_steps(alloc, id, first, steps)?;
    let act = Act::Fork {
        id: id.copy()?,
        from: source.copy()?,
        below,
    };
    Ok(plain(alloc, count, act, Writes::from_list(pairs)))
}
