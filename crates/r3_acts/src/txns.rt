//! The entry of a transaction.

ghost use Rattle.std.specs.Prelude.{◌≡◌, ◌∷◌, ◌++◌, [], map, Some, IfOk, IsTrue};
ghost use Rattle.std.specs.FinMap.Entries.{is_sorted};
ghost use Rattle.r3_rows.specs.Keys.{key_cmp};
ghost use Rattle.r3_model.specs.Acts.{txn_entry, read_of, put_write, step_write, step_row, value_cell};
ghost use Rattle.r3_acts.specs.Entries.{IsMadeOn};

use crate::plain::step_row;
use fn_tree::flow::Request;
use fn_tree::look::{Look, TxnRun};
use r3_entry::{Act, Entry};
use r3_rows::{Cell, Key, Read, StepKind, Writes};
use r3_value::{Memory, Txt, Val};
use sqlite_items::Items;
use std::alloc::Global;

fn read_of(look: Look) -> Read
    ensures { result ≡ read_of look }
{
    match look {
        Look::At {
            table,
            key,
            version,
        } => Read::At {
            table,
            key,
            version,
        },
        Look::Range {
            table,
            lo,
            hi,
            keys,
        } => Read::Range {
            table,
            lo,
            hi,
            keys,
        },
    }
}

// The looks, as an entry keeps them.
fn reads_of(alloc: Global, looks: Items<Look>) -> Result<Items<Read>, Memory>
    ensures { IfOk result (λ reads. reads ≡ map read_of looks) }
{
    // They are taken from the end.
    let mut looks = looks;
    let mut reads = Vec::new(alloc);
    'looks: while let Some(look) = looks.pop() {
        reads.push(read_of(look))?;
    }
    reads.reverse();
    Ok(Items::from_vec(reads))
}

fn cell_of(value: Option<Val>) -> Option<Cell>
    ensures { result ≡ value_cell value }
{
    match value {
        None => None,
        Some(value) => Some(Cell::Row(value)),
    }
}

fn put_write(put: (Txt, Txt, Option<Val>)) -> (Key, Option<Cell>)
    ensures { result ≡ put_write put }
{
    let (table, key, value) = put;
    (Key::User { table, key }, cell_of(value))
}

// The rows that a body wrote, with the step behind them.
fn writes_of(
    alloc: Global,
    puts: Items<(Txt, Txt, Option<Val>)>,
    step: (Key, Option<Cell>),
) -> Result<Vec<(Key, Option<Cell>)>, Memory>
    ensures { IfOk result (λ writes. writes.items ≡ map put_write puts ++ step ∷ []) }
{
    // They are taken from the end.
    let mut puts = puts;
    let mut writes = Vec::new(alloc);
    writes.push(step)?;
    'puts: while let Some(put) = puts.pop() {
        writes.push(put_write(put))?;
    }
    writes.reverse();
    Ok(writes)
}

/// A transaction was run on its snapshot: what its body wrote, and the step, in one entry.
pub fn txn_entry(
    alloc: Global,
    id: &Txt,
    asked: &Request,
    snap: u32,
    run: TxnRun,
) -> Result<Entry, Memory>
    requires rising { IsTrue (is_sorted key_cmp (map put_write run.writes)) }
    ensures { IfOk result (λ e. (h : _) → e ≡ txn_entry h id.now asked.now snap run) }
{
    let TxnRun {
        outcome,
        reads,
        writes,
    } = run;
    let row = step_row(&asked.name, StepKind::Txn, outcome)?;
    let key = Key::Step {
        id: id.copy()?,
        n: asked.n,
    };
    let writes = writes_of(alloc, writes, (key, Some(Cell::Step(row))))?;
    let reads = reads_of(alloc, reads)?;
    let act = Act::Txn {
        id: id.copy()?,
        n: asked.n,
        args: asked.args.copy()?,
    };
    Ok(Entry {
        act,
        snap,
        reads,
        writes: Writes::from_list(writes),
    })
}
