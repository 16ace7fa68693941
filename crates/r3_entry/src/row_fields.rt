//! Rows and cells, read field by field.

ghost use Rattle.std.specs.Prelude.{◌≡◌, ◌∷◌};
ghost use Rattle.r3_entry.specs.Bytes as spell;
ghost use Rattle.r3_entry.specs.Limits.{IsFlow, IsStep, IsCell, IfThere};
ghost use Rattle.r3_entry.specs.Parse.{Parses};
ghost use Rattle.r3_entry.specs.Parts as part;

use crate::fields::{
    Miss, args_of, between_of, byte_of, outcome_if_there, outcome_of, sized_if_there, sized_of,
    val_of,
};
use r3_bytes::Reader;
use r3_rows::{Cell, FlowRow, Status, StepKind, StepRow};
use r3_value::{Outcome, Txt, Val};
use std::alloc::Global;

type Call = (Txt, Val);

type Called = (Call, Option<Outcome>);

type Queued = (Option<Txt>, u32);

type Tried = (Queued, u32);

type Descended = (Tried, Option<Txt>);

fn status_of(r: &mut Reader<'_>) -> Result<Status, Miss>
    ensures { Parses part.status part.IsAny r.old.rest r.new.rest result }
{
    match byte_of(r)? {
        0 => Ok(Status::Enqueued),
        1 => Ok(Status::Pending),
        2 => Ok(Status::Success),
        3 => Ok(Status::Error),
        4 => Ok(Status::Cancelled),
        5 => Ok(Status::MaxRecoveryAttemptsExceeded),
        _ => Err(Miss::Absent),
    }
}

fn kind_of(r: &mut Reader<'_>) -> Result<StepKind, Miss>
    ensures { Parses part.kind part.IsAny r.old.rest r.new.rest result }
{
    match byte_of(r)? {
        0 => Ok(StepKind::Txn),
        1 => Ok(StepKind::Outside),
        2 => Ok(StepKind::Child),
        3 => Ok(StepKind::Await),
        _ => Err(Miss::Absent),
    }
}

fn call_of(alloc: Global, r: &mut Reader<'_>) -> Result<Call, Miss>
    ensures { Parses part.call part.IsCall r.old.rest r.new.rest result }
{
    let function = sized_of(alloc, r, 1, 64)?;
    let args = args_of(alloc, r)?;
    Ok((function, args))
}

fn called_of(alloc: Global, r: &mut Reader<'_>) -> Result<Called, Miss>
    ensures { Parses part.called part.IsCalled r.old.rest r.new.rest result }
{
    let call = call_of(alloc, r)?;
    let outcome = outcome_if_there(alloc, r)?;
    Ok((call, outcome))
}

fn queued_of(alloc: Global, r: &mut Reader<'_>) -> Result<Queued, Miss>
    ensures { Parses part.queued part.IsQueued r.old.rest r.new.rest result }
{
    let queue = sized_if_there(alloc, r, 1, 64)?;
    let started = between_of(r, 1, 1_000_000)?;
    Ok((queue, started))
}

fn tried_of(alloc: Global, r: &mut Reader<'_>) -> Result<Tried, Miss>
    ensures { Parses part.tried part.IsTried r.old.rest r.new.rest result }
{
    let queued = queued_of(alloc, r)?;
    let attempts = between_of(r, 0, 51)?;
    Ok((queued, attempts))
}

fn descended_of(alloc: Global, r: &mut Reader<'_>) -> Result<Descended, Miss>
    ensures { Parses part.descended part.IsDescended r.old.rest r.new.rest result }
{
    let tried = tried_of(alloc, r)?;
    let parent = sized_if_there(alloc, r, 1, 200)?;
    Ok((tried, parent))
}

fn flow_row_of(alloc: Global, r: &mut Reader<'_>) -> Result<FlowRow, Miss>
    ensures { Parses spell.flow_row IsFlow r.old.rest r.new.rest result }
{
    let status = status_of(r)?;
    let called = called_of(alloc, r)?;
    match descended_of(alloc, r) {
        Ok((((queue, started), attempts), parent)) => {
            let ((function, args), outcome) = called;
            Ok(FlowRow {
                status,
                function,
                args,
                outcome,
                queue,
                started,
                attempts,
                parent,
            })
        }
        Err(miss) => Err(miss),
    }
}

fn named_of(alloc: Global, r: &mut Reader<'_>) -> Result<(Txt, StepKind), Miss>
    ensures { Parses part.named part.IsNamed r.old.rest r.new.rest result }
{
    let name = sized_of(alloc, r, 1, 64)?;
    let kind = kind_of(r)?;
    Ok((name, kind))
}

fn ended_of(alloc: Global, r: &mut Reader<'_>) -> Result<((Txt, StepKind), Outcome), Miss>
    ensures { Parses part.ended part.IsEnded r.old.rest r.new.rest result }
{
    let named = named_of(alloc, r)?;
    let outcome = outcome_of(alloc, r)?;
    Ok((named, outcome))
}

fn step_row_of(alloc: Global, r: &mut Reader<'_>) -> Result<StepRow, Miss>
    ensures { Parses spell.step_row IsStep r.old.rest r.new.rest result }
{
    match ended_of(alloc, r) {
        Ok(((name, kind), outcome)) => Ok(StepRow {
            name,
            kind,
            outcome,
        }),
        Err(miss) => Err(miss),
    }
}

fn cell_of(alloc: Global, r: &mut Reader<'_>) -> Result<Cell, Miss>
    ensures { Parses spell.cell IsCell r.old.rest r.new.rest result }
{
    match byte_of(r)? {
        0 => Ok(Cell::Row(val_of(alloc, r)?)),
        1 => Ok(Cell::Flow(flow_row_of(alloc, r)?)),
        2 => Ok(Cell::Step(step_row_of(alloc, r)?)),
        _ => Err(Miss::Absent),
    }
}

pub fn cell_if_there(alloc: Global, r: &mut Reader<'_>) -> Result<Option<Cell>, Miss>
    ensures { Parses (spell.option spell.cell) (IfThere IsCell) r.old.rest r.new.rest result }
{
    match byte_of(r)? {
        0 => Ok(None),
        1 => Ok(Some(cell_of(alloc, r)?)),
        _ => Err(Miss::Absent),
    }
}
