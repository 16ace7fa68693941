//! The rows of a range with the body's own writes over them, in one pass over both.

ghost use Rattle.std.specs.Prelude.{◌≡◌, ◌++◌, [], true, IfOk, map};
ghost use Rattle.fn_tree.specs.Comparison.{bytes_lt};
ghost use Rattle.fn_tree.specs.Writes.{row_left, rows_under};
ghost use Rattle.fn_txn.specs.Rows.{Passes, key_row};
ghost use Rattle.fn_txn.specs.RowKeys.{write_of};

use crate::row_key::{RowKey, row_order};
use crate::scan::{is_below, value_at};
use crate::view::View;
use r3_value::{Memory, Txt, Val};
use std::alloc::Global;
use std::collections::BTreeMap;

// Adds the rows of the keys.
fn add_rows<M: View>(
    view: &M,
    table: &Txt,
    keys: &[(Txt, u32)],
    rows: &mut Vec<(Txt, Val)>,
) -> Result<(), Memory>
    ensures { IfOk result (λ _. rows.new.items ≡ rows.old.items ++ map (key_row (M.versions view.now) table.now) keys.now) }
{
    for pair in keys {
        let (v, _) = value_at(view, table, &pair.0)?;
        rows.push((pair.0.copy()?, v))?;
    }
    Ok(())
}

// Adds the rows before a key, and answers the keys after it.
#[tactic(auto, using(crate::proofs::MergeLemmas::pass_none, crate::proofs::MergeLemmas::pass_more, crate::proofs::MergeLemmas::pass_found, crate::proofs::MergeLemmas::pass_stops, crate::proofs::MergeLemmas::pass_end))]
fn pass<'a, M: View>(
    view: &M,
    table: &Txt,
    keys: &'a [(Txt, u32)],
    key: &Txt,
    rows: &mut Vec<(Txt, Val)>,
) -> Result<&'a [(Txt, u32)], Memory>
    ensures { IfOk result (λ rest. Passes (M.versions view.now) table.now key.now keys.now rest.now rows.old.items rows.new.items) }
{
    let mut rest = keys;
    while let Some((pair, later)) = rest.split_first() {
        if pair.0.as_str() == key.as_str() {
            return Ok(later);
        }
        if is_below(key.as_str(), pair.0.as_str()) {
            return Ok(rest);
        }
        let (v, _) = value_at(view, table, &pair.0)?;
        rows.push((pair.0.copy()?, v))?;
        rest = later;
    }
    Ok(rest)
}

// Adds what the body left at a key.
fn leave(rows: &mut Vec<(Txt, Val)>, key: &Txt, left: &Option<Val>) -> Result<(), Memory>
    ensures { IfOk result (λ _. rows.new.items ≡ rows.old.items ++ row_left key.now left.now []) }
{
    match left {
        Some(v) => {
            rows.push((key.copy()?, v.copy()?))?;
            Ok(())
        }
        None => Ok(()),
    }
}

fn row_key(table: &Txt, key: &Txt) -> Result<RowKey, Memory>
    ensures { IfOk result (λ k. (k.table ≡ table.now) × (k.key ≡ key.now)) }
{
    let table = table.copy()?;
    let key = key.copy()?;
    Ok(RowKey { table, key })
}

// The same where the range isn't empty.
fn merged_between<M: View>(
    alloc: Global,
    view: &M,
    writes: &BTreeMap<RowKey, Option<Val>>,
    table: &Txt,
    lo: &Txt,
    hi: &Txt,
    keys: &[(Txt, u32)],
) -> Result<Vec<(Txt, Val)>, Memory>
    requires { bytes_lt lo.now hi.now ≡ true }
    ensures { IfOk result (λ r. r.items ≡ rows_under (map write_of writes.now.entries) table.now lo.now hi.now (map (key_row (M.versions view.now) table.now) keys.now)) }
{
    row_order();
    let mut rows = Vec::new(alloc);
    let mut rest = keys;
    let from = row_key(table, lo)?;
    let to = row_key(table, hi)?;
    for (row, left) in writes.range(from..to) {
        rest = pass(view, table, rest, &row.key, &mut rows)?;
        leave(&mut rows, &row.key, left)?;
    }
    add_rows(view, table, rest, &mut rows)?;
    Ok(rows)
}

/// The rows of a range's keys with the writes over them. Both rise, so that one pass merges them.
pub fn merged<M: View>(
    alloc: Global,
    view: &M,
    writes: &BTreeMap<RowKey, Option<Val>>,
    table: &Txt,
    lo: &Txt,
    hi: &Txt,
    keys: &[(Txt, u32)],
) -> Result<Vec<(Txt, Val)>, Memory>
    ensures { IfOk result (λ r. r.items ≡ rows_under (map write_of writes.now.entries) table.now lo.now hi.now (map (key_row (M.versions view.now) table.now) keys.now)) }
{
    if is_below(lo.as_str(), hi.as_str()) {
        return merged_between(alloc, view, writes, table, lo, hi, keys);
    }
    let mut rows = Vec::new(alloc);
    add_rows(view, table, keys, &mut rows)?;
    Ok(rows)
}
