//! The bytes of an entry.

ghost use Rattle.std.specs.Prelude.{◌≡◌, ◌++◌, ◌∷◌, ◌<◌, ◌^◌, length, OnOk, IfOk};
ghost use Rattle.r3_entry.specs.Bytes as spell;
ghost use Rattle.r3_entry.specs.Limits.{IsAct, IsRead, IsEntry};
ghost use Rattle.std.specs.List.{AllByRecursion};
ghost use Rattle.r3_bytes.specs.Spelling.{string, number};

use crate::entry::{Act, Entry};
use r3_bytes::Writer;
use r3_rows::{Cell, FlowRow, Key, Read, Status, StepKind, StepRow};
use r3_value::{Memory, Outcome, Txt, Val};
use std::alloc::Global;

// No cell: the key is deleted.
const DELETED: u8 = 0;

fn code_of(status: Status) -> u8
    ensures { result ≡ spell.status_code status }
{
    match status {
        Status::Enqueued => 0,
        Status::Pending => 1,
        Status::Success => 2,
        Status::Error => 3,
        Status::Cancelled => 4,
        Status::MaxRecoveryAttemptsExceeded => 5,
    }
}

fn put_txt(w: &mut Writer, text: &Txt) -> Result<(), Memory>
    ensures { OnOk result (w.new ≡ w.old ++ string text.now) }
{
    w.text(text.as_str())
}

fn put_txt_if_there(w: &mut Writer, text: &Option<Txt>) -> Result<(), Memory>
    ensures { OnOk result (w.new ≡ w.old ++ spell.option string text.now) }
{
    match text {
        None => w.u8(0),
        Some(text) => {
            w.u8(1)?;
            put_txt(w, text)
        }
    }
}

fn put_outcome_if_there(w: &mut Writer, outcome: &Option<Outcome>) -> Result<(), Memory>
    ensures { OnOk result (w.new ≡ w.old ++ spell.option spell.outcome outcome.now) }
{
    match outcome {
        None => w.u8(0),
        Some(outcome) => {
            w.u8(1)?;
            w.outcome(outcome)
        }
    }
}

pub fn put_flow_row(w: &mut Writer, row: &FlowRow) -> Result<(), Memory>
    ensures { OnOk result (w.new ≡ w.old ++ spell.flow_row row.now) }
{
    w.u8(code_of(row.status))?;
    put_txt(w, &row.function)?;
    w.val(&row.args)?;
    put_outcome_if_there(w, &row.outcome)?;
    put_txt_if_there(w, &row.queue)?;
    w.u32(row.started)?;
    w.u32(row.attempts)?;
    put_txt_if_there(w, &row.parent)
}

pub fn put_key(w: &mut Writer, key: &Key) -> Result<(), Memory>
    ensures { OnOk result (w.new ≡ w.old ++ spell.key key.now) }
{
    match key {
        Key::User { table, key } => {
            w.u8(0)?;
            put_txt(w, table)?;
            put_txt(w, key)
        }
        Key::Flow { id } => {
            w.u8(1)?;
            put_txt(w, id)
        }
        Key::Step { id, n } => {
            w.u8(2)?;
            put_txt(w, id)?;
            w.u32(*n)
        }
    }
}

fn put_keys(w: &mut Writer, keys: &[(Txt, u32)]) -> Result<(), Memory>
    requires { length keys.now < 2 ^ 32 }
    ensures { OnOk result (w.new ≡ w.old ++ spell.list (λ p. string p.0 ++ number p.1) keys.now) }
{
    w.u32(keys.len() as u32)?;
    for pair in keys {
        put_txt(w, &pair.0)?;
        w.u32(pair.1)?;
    }
    Ok(())
}

fn code_of_kind(kind: StepKind) -> u8
    ensures { result ≡ spell.kind_code kind }
{
    match kind {
        StepKind::Txn => 0,
        StepKind::Outside => 1,
        StepKind::Child => 2,
        StepKind::Await => 3,
    }
}

fn put_step_row(w: &mut Writer, row: &StepRow) -> Result<(), Memory>
    ensures { OnOk result (w.new ≡ w.old ++ spell.step_row row.now) }
{
    put_txt(w, &row.name)?;
    w.u8(code_of_kind(row.kind))?;
    w.outcome(&row.outcome)
}

fn put_cell(w: &mut Writer, cell: &Cell) -> Result<(), Memory>
    ensures { OnOk result (w.new ≡ w.old ++ spell.cell cell.now) }
{
    match cell {
        Cell::Row(value) => {
            w.u8(0)?;
            w.val(value)
        }
        Cell::Flow(row) => {
            w.u8(1)?;
            put_flow_row(w, row)
        }
        Cell::Step(row) => {
            w.u8(2)?;
            put_step_row(w, row)
        }
    }
}

fn put_cell_if_there(w: &mut Writer, cell: &Option<Cell>) -> Result<(), Memory>
    ensures { OnOk result (w.new ≡ w.old ++ spell.option spell.cell cell.now) }
{
    match cell {
        None => w.u8(DELETED),
        Some(cell) => {
            w.u8(1)?;
            put_cell(w, cell)
        }
    }
}

fn put_read(w: &mut Writer, read: &Read) -> Result<(), Memory>
    requires { IsRead read.now }
    ensures { OnOk result (w.new ≡ w.old ++ spell.read read.now) }
{
    match read {
        Read::At {
            table,
            key,
            version,
        } => {
            w.u8(0)?;
            put_txt(w, table)?;
            put_txt(w, key)?;
            w.u32(*version)
        }
        Read::Range {
            table,
            lo,
            hi,
            keys,
        } => {
            w.u8(1)?;
            put_txt(w, table)?;
            put_txt(w, lo)?;
            put_txt(w, hi)?;
            put_keys(w, keys.as_slice())
        }
    }
}

fn put_reads(w: &mut Writer, reads: &[Read]) -> Result<(), Memory>
    requires few { length reads.now < 2 ^ 32 }
    requires limits { AllByRecursion IsRead reads.now }
    ensures { OnOk result (w.new ≡ w.old ++ spell.list spell.read reads.now) }
{
    w.u32(reads.len() as u32)?;
    for read in reads {
        put_read(w, read)?;
    }
    Ok(())
}

fn put_writes(w: &mut Writer, writes: &[(Key, Option<Cell>)]) -> Result<(), Memory>
    requires { length writes.now < 2 ^ 32 }
    ensures { OnOk result (w.new ≡ w.old ++ spell.list (λ p. spell.key p.0 ++ spell.option spell.cell p.1) writes.now) }
{
    w.u32(writes.len() as u32)?;
    for pair in writes {
        put_key(w, &pair.0)?;
        put_cell_if_there(w, &pair.1)?;
    }
    Ok(())
}

// The number of the act and the ID, with which most acts begin.
fn put_tag_and_id(w: &mut Writer, tag: u8, id: &Txt) -> Result<(), Memory>
    ensures { OnOk result (w.new ≡ w.old ++ tag ∷ string id.now) }
{
    w.u8(tag)?;
    put_txt(w, id)
}

fn put_step_act(w: &mut Writer, tag: u8, id: &Txt, n: u32, args: &Val) -> Result<(), Memory>
    ensures { OnOk result (w.new ≡ w.old ++ tag ∷ (string id.now ++ number n ++ spell.val args.now)) }
{
    put_tag_and_id(w, tag, id)?;
    w.u32(n)?;
    w.val(args)
}

fn put_step_on(w: &mut Writer, tag: u8, id: &Txt, n: u32, on: &Txt) -> Result<(), Memory>
    ensures { OnOk result (w.new ≡ w.old ++ tag ∷ (string id.now ++ number n ++ string on.now)) }
{
    put_tag_and_id(w, tag, id)?;
    w.u32(n)?;
    put_txt(w, on)
}

fn put_act(w: &mut Writer, act: &Act) -> Result<(), Memory>
    requires { IsAct act.now }
    ensures { OnOk result (w.new ≡ w.old ++ spell.act act.now) }
{
    match act {
        Act::Program { text } => {
            w.u8(1)?;
            w.text(text.as_str())
        }
        Act::Load => w.u8(2),
        Act::Start { id } => put_tag_and_id(w, 3, id),
        Act::Enqueue { id } => put_tag_and_id(w, 4, id),
        Act::Dequeue { id } => put_tag_and_id(w, 5, id),
        Act::Txn { id, n, args } => put_step_act(w, 6, id, *n, args),
        Act::Outside { id, n, args } => put_step_act(w, 7, id, *n, args),
        Act::Child { id, n, child } => put_step_on(w, 8, id, *n, child),
        Act::Await { id, n, on } => put_step_on(w, 9, id, *n, on),
        Act::Finish { id } => put_tag_and_id(w, 10, id),
        Act::Cancel { id } => put_tag_and_id(w, 11, id),
        Act::Resume { id } => put_tag_and_id(w, 12, id),
        Act::Fork { id, from, below } => {
            put_tag_and_id(w, 13, id)?;
            put_txt(w, from)?;
            w.u32(*below)
        }
        Act::Recover { id } => put_tag_and_id(w, 14, id),
    }
}

/// The bytes of an entry, which are the payload of its record.
pub fn encode(alloc: Global, entry: &Entry) -> Result<Vec<u8>, Memory>
    requires { IsEntry entry.now }
    ensures { IfOk result (λ bytes. bytes.items ≡ spell.entry entry.now) }
{
    let mut w = Writer::new(alloc);
    put_act(&mut w, &entry.act)?;
    w.u32(entry.snap)?;
    put_reads(&mut w, entry.reads.as_slice())?;
    put_writes(&mut w, entry.writes.list())?;
    Ok(w.done())
}
