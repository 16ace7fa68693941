//! Copies, each equal to its source.

ghost use Rattle.std.specs.Prelude.{◌≡◌, IfOk};

use crate::rows::{Cell, FlowRow, Key, Read, StepRow};
use r3_value::{Memory, Outcome, Txt};
use sqlite_items::Items;
use std::alloc::Global;

fn copy_text(text: &Option<Txt>) -> Result<Option<Txt>, Memory>
    ensures { IfOk result (λ t. t ≡ text.now) }
{
    match text {
        None => Ok(None),
        Some(text) => Ok(Some(text.copy()?)),
    }
}

fn copy_outcome(outcome: &Option<Outcome>) -> Result<Option<Outcome>, Memory>
    ensures { IfOk result (λ o. o ≡ outcome.now) }
{
    match outcome {
        None => Ok(None),
        Some(outcome) => Ok(Some(outcome.copy()?)),
    }
}

pub fn copy_cell(cell: &Option<Cell>) -> Result<Option<Cell>, Memory>
    ensures { IfOk result (λ c. c ≡ cell.now) }
{
    match cell {
        None => Ok(None),
        Some(cell) => Ok(Some(cell.copy()?)),
    }
}

impl Key {
    /// An equal key.
    pub fn copy(&self) -> Result<Key, Memory>
        ensures { IfOk result (λ k. k ≡ self.now) }
    {
        match self {
            Key::User { table, key } => Ok(Key::User {
                table: table.copy()?,
                key: key.copy()?,
            }),
            Key::Flow { id } => Ok(Key::Flow { id: id.copy()? }),
            Key::Step { id, n } => Ok(Key::Step {
                id: id.copy()?,
                n: *n,
            }),
        }
    }
}

impl FlowRow {
    /// An equal row.
    pub fn copy(&self) -> Result<FlowRow, Memory>
        ensures { IfOk result (λ r. r ≡ self.now) }
    {
        Ok(FlowRow {
            status: self.status,
            function: self.function.copy()?,
            args: self.args.copy()?,
            outcome: copy_outcome(&self.outcome)?,
            queue: copy_text(&self.queue)?,
            started: self.started,
            attempts: self.attempts,
            parent: copy_text(&self.parent)?,
        })
    }
}

impl StepRow {
    /// An equal row.
    pub fn copy(&self) -> Result<StepRow, Memory>
        ensures { IfOk result (λ r. r ≡ self.now) }
    {
        Ok(StepRow {
            name: self.name.copy()?,
            kind: self.kind,
            outcome: self.outcome.copy()?,
        })
    }
}

impl Cell {
    /// An equal cell.
    pub fn copy(&self) -> Result<Cell, Memory>
        ensures { IfOk result (λ c. c ≡ self.now) }
    {
        match self {
            Cell::Row(value) => Ok(Cell::Row(value.copy()?)),
            Cell::Flow(row) => Ok(Cell::Flow(row.copy()?)),
            Cell::Step(row) => Ok(Cell::Step(row.copy()?)),
        }
    }
}

fn copy_keys(alloc: Global, keys: &[(Txt, u32)]) -> Result<Items<(Txt, u32)>, Memory>
    ensures { IfOk result (λ ks. ks ≡ keys.now) }
{
    let mut copies = Items::new(alloc);
    for pair in keys {
        copies.push((pair.0.copy()?, pair.1))?;
    }
    Ok(copies)
}

impl Read {
    /// An equal read item.
    pub fn copy(&self, alloc: Global) -> Result<Read, Memory>
        ensures { IfOk result (λ r. r ≡ self.now) }
    {
        match self {
            Read::At {
                table,
                key,
                version,
            } => Ok(Read::At {
                table: table.copy()?,
                key: key.copy()?,
                version: *version,
            }),
            Read::Range {
                table,
                lo,
                hi,
                keys,
            } => Ok(Read::Range {
                table: table.copy()?,
                lo: lo.copy()?,
                hi: hi.copy()?,
                keys: copy_keys(alloc, keys.as_slice())?,
            }),
        }
    }
}
