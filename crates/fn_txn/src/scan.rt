//! A row of the map, and the list that a scan gives.

ghost use Rattle.std.specs.Prelude.{◌≡◌, List, ◌∷◌, ◌++◌, codes, map, IfOk, MatchOption};
ghost use Rattle.fn_tree.specs.Sequences as meaning;
ghost use Rattle.fn_tree.specs.Values as values;
ghost use Rattle.fn_tree.specs.Writes.{pair_value};
ghost use Rattle.fn_tree.specs.Comparison as order;
ghost use Rattle.r3_value.specs.declared.value.Val.{Val as V};

use crate::view::View;
use fn_eval::list_or_size;
use fn_walk::word;
use r3_value::{Memory, Outcome, Txt, Val};
use std::alloc::Global;
use std::cmp::Ordering;

/// The value of a key, or Null, with its version.
pub fn value_at<M: View>(view: &M, table: &Txt, key: &Txt) -> Result<(Val, u32), Memory>
    ensures { IfOk result (λ r. (r.0 ≡ values.or_null ((M.versions view.now).cell table.now key.now)) × (r.1 ≡ (M.versions view.now).version table.now key.now)) }
{
    match view.cell(table.as_str(), key.as_str())? {
        Some((v, version)) => Ok((v.copy()?, version)),
        None => {
            let version = view.version(table.as_str(), key.as_str())?;
            Ok((Val::Null, version))
        }
    }
}

/// The first text stands before the second in byte order.
#[tactic(auto, using(crate::proofs::OrderLemmas::lt_is))]
pub fn is_below(a: &str, b: &str) -> bool
    ensures { result ≡ order.bytes_lt a.now b.now }
{
    match a.cmp(b) {
        Ordering::Less => true,
        _ => false,
    }
}

// The list `[key, value]`, or None where it passes the limits of a value.
#[tactic(auto, using(crate::proofs::PairLemmas::refused))]
fn pair(alloc: Global, row: &(Txt, Val)) -> Result<Option<Val>, Memory>
    ensures { IfOk result (λ p. MatchOption p ((before after : List V) → meaning.list_or_size (before ++ pair_value row.now ∷ after) ≡ Outcome.Failure (codes "size")) (λ v. v ≡ pair_value row.now)) }
{
    let mut items = Vec::new(alloc);
    items.push(Val::Text(row.0.copy()?))?;
    items.push(row.1.copy()?)?;
    match Val::list(items) {
        Ok(v) => Ok(Some(v)),
        Err(_) => Ok(None),
    }
}

/// The list of the rows' pairs.
#[tactic(auto, using(crate::proofs::PairLemmas::rows_refused))]
pub fn listed(alloc: Global, rows: &[(Txt, Val)]) -> Result<Outcome, Memory>
    ensures { IfOk result (λ o. o ≡ meaning.list_or_size (map pair_value rows.now)) }
{
    let mut pairs = Vec::new(alloc);
    for row in rows {
        match pair(alloc, row)? {
            Some(v) => pairs.push(v)?,
            None => return Ok(Outcome::Failure(word(alloc, "size")?)),
        }
    }
    list_or_size(alloc, pairs)
}
