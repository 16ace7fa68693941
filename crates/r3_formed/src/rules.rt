//! The rules of formed histories, for one entry behind those whose versions the chains keep.

ghost use Rattle.std.specs.Prelude.{◌≡◌, ◌↔◌, ◌+◌, ◌<◌, IfOk, IsTrue, T, false, List, length};
ghost use Rattle.std.specs.List.{AllByRecursion};
ghost use Rattle.std.specs.FinMap.Entries.{is_sorted};
ghost use Rattle.r3_rows.specs.Keys.{key_cmp, kind};
ghost use Rattle.r3_entry.specs.declared.entry.Entry.{Entry};
ghost use Rattle.r3_entry.specs.Formed.{IsProgramFirst, IsOfKind, IsFlowRow, HasOutcome, is_program as is_program_act};
ghost use Rattle.r3_chain.specs.Versions.{as_of};
ghost use Rattle.r3_formed.specs.Rules.{IsWriteIn, FitsBehind, HasFlow, BeginsHistory, cell_kind};

use crate::limits::{has_few_reads, has_few_rows};
use crate::looks::{are_read_again, is_present, version_as_of};
use r3_chain::Chains;
use r3_entry::{Act, Entry};
use r3_rows::{Cell, Key, Status};
use r3_value::{Memory, Outcome};
use std::alloc::Global;

fn is_program(act: &Act) -> bool
    ensures { result ≡ is_program_act act.now }
{
    matches!(act, Act::Program { text: _ })
}

fn begins_history(entry: &Entry) -> bool
    ensures { IsTrue result ↔ BeginsHistory entry.now }
{
    is_program(&entry.act)
        && entry.snap == 0
        && entry.reads.is_empty()
        && entry.writes.list().is_empty()
}

/// Whether it is a Program entry just where nothing stands before it.
pub fn is_program_first(count: u32, entry: &Entry) -> bool
    ensures { (h : List Entry) → count ≡ length h → IsTrue result ↔ IsProgramFirst h entry.now }
{
    if count == 0 {
        return begins_history(entry);
    }
    !is_program(&entry.act)
}

/// Which kind of key it is: 0 for a row, 1 for a workflow, 2 for a step.
pub fn kind_of(key: &Key) -> u8
    ensures { result ≡ kind key.now }
{
    match key {
        Key::User { table: _, key: _ } => 0,
        Key::Flow { id: _ } => 1,
        Key::Step { id: _, n: _ } => 2,
    }
}

fn cell_kind_of(cell: &Cell) -> u8
    ensures { result ≡ cell_kind cell.now }
{
    match cell {
        Cell::Row(_) => 0,
        Cell::Flow(_) => 1,
        Cell::Step(_) => 2,
    }
}

/// Whether the cell is of its key's kind, and no deletion but of a row.
pub fn is_of_kind(key: &Key, cell: &Option<Cell>) -> bool
    ensures { IsTrue result ↔ IsOfKind (key.now, cell.now) }
{
    match cell {
        None => kind_of(key) == 0,
        Some(cell) => kind_of(key) == cell_kind_of(cell),
    }
}

fn has_outcome(status: Status, outcome: &Option<Outcome>) -> bool
    ensures { IsTrue result ↔ HasOutcome status outcome.now }
{
    match outcome {
        None => match status {
            Status::Success => false,
            Status::Error => false,
            Status::Enqueued => true,
            Status::Pending => true,
            Status::Cancelled => true,
            Status::MaxRecoveryAttemptsExceeded => true,
        },
        Some(Outcome::Value(_)) => status == Status::Success,
        Some(Outcome::Failure(_)) => status == Status::Error,
    }
}

/// Whether a workflow's row is one that entry `number` may write.
pub fn is_flow_row(number: u32, key: &Key, cell: &Option<Cell>) -> bool
    ensures { IsTrue result ↔ IsFlowRow number (key.now, cell.now) }
{
    match cell {
        Some(Cell::Flow(row)) => {
            has_outcome(row.status, &row.outcome)
                && (row.status != Status::Enqueued || row.queue.is_some())
                && row.started <= number
        }
        Some(Cell::Row(_)) => true,
        Some(Cell::Step(_)) => true,
        None => true,
    }
}

fn write_fits(
    chains: &Chains<Key, Cell>,
    count: u32,
    snap: u32,
    write: &(Key, Option<Cell>),
) -> bool
    requires sorted { T (is_sorted key_cmp chains.now.versions) }
    requires few { count < 1000000 }
    ensures { IsTrue result ↔ IsWriteIn (as_of count chains.now.versions) count snap write.now }
{
    let version = version_as_of(chains, &write.0, count);
    is_of_kind(&write.0, &write.1)
        && version <= snap
        && (kind_of(&write.0) != 2 || version == 0)
        && is_flow_row(count + 1, &write.0, &write.1)
}

fn writes_fit(
    chains: &Chains<Key, Cell>,
    count: u32,
    snap: u32,
    writes: &[(Key, Option<Cell>)],
) -> bool
    requires sorted { T (is_sorted key_cmp chains.now.versions) }
    requires few { count < 1000000 }
    ensures { IsTrue result
        ↔ AllByRecursion (IsWriteIn (as_of count chains.now.versions) count snap) writes.now }
{
    'writes: for write in writes {
        if !write_fits(chains, count, snap, write) {
            return false;
        }
    }
    true
}

/// Whether the entry keeps all rules that speak of the entries before it alone, of which there are so
/// many.
pub fn fits_behind(
    alloc: Global,
    chains: &Chains<Key, Cell>,
    count: u32,
    entry: &Entry,
) -> Result<bool, Memory>
    requires sorted { T (is_sorted key_cmp chains.now.versions) }
    requires few { count < 1000000 }
    ensures { IfOk result (λ b. IsTrue b ↔ FitsBehind chains.now.versions count entry.now) }
{
    if entry.snap > count {
        return Ok(false);
    }
    let reads = are_read_again(alloc, chains, entry.snap, entry.reads.as_slice())?;
    Ok(
        reads
            && writes_fit(chains, count, entry.snap, entry.writes.list())
            && has_few_rows(entry.writes.list())
            && has_few_reads(entry.reads.as_slice()),
    )
}

fn has_flow(chains: &Chains<Key, Cell>, index: u32, key: &Key) -> Result<bool, Memory>
    requires { T (is_sorted key_cmp chains.now.versions) }
    ensures { IfOk result (λ b. IsTrue b ↔ HasFlow (as_of index chains.now.versions) key.now) }
{
    match key {
        Key::Step { id, n: _ } => {
            let flow = Key::Flow { id: id.copy()? };
            Ok(is_present(chains, &flow, index))
        }
        Key::User { table: _, key: _ } => Ok(true),
        Key::Flow { id: _ } => Ok(true),
    }
}

/// Whether the workflow of each step that is written is there as of the index.
pub fn have_flows(
    chains: &Chains<Key, Cell>,
    index: u32,
    writes: &[(Key, Option<Cell>)],
) -> Result<bool, Memory>
    requires { T (is_sorted key_cmp chains.now.versions) }
    ensures { IfOk result (λ b. IsTrue b
        ↔ AllByRecursion (λ w. HasFlow (as_of index chains.now.versions) w.0) writes.now) }
{
    'writes: for write in writes {
        if !has_flow(chains, index, &write.0)? {
            return Ok(false);
        }
    }
    Ok(true)
}
