//! What a transaction's body can do, on a map.

ghost use Rattle.std.specs.Prelude.{◌≡◌, ◌≤◌, ℕ, List, Option, Some, None, IfOk, OnOk, map, length};
ghost use Rattle.fn_tree.specs.Control.{taken};
ghost use Rattle.fn_tree.specs.Ends.{Goes};
ghost use Rattle.fn_tree.specs.Evaluation.{Binding};
ghost use Rattle.fn_tree.specs.Looks.{with_look};
ghost use Rattle.fn_tree.specs.Sequences as meaning;
ghost use Rattle.fn_tree.specs.Transaction as txn;
ghost use Rattle.fn_tree.specs.Transaction.{on_versions};
ghost use Rattle.fn_tree.specs.Values as values;
ghost use Rattle.fn_tree.specs.Writes.{Never, Versions, pair_value, rows_under};
ghost use Rattle.fn_tree.specs.declared.flow.Request.{Request as Asked};
ghost use Rattle.fn_walk.specs.Runs.{RunsAs, place_at};
ghost use Rattle.fn_txn.specs.Journals.{kept_or_size, looked, wrote_key};

use crate::journal::Journal;
use crate::row_key::RowKey;
use crate::scan::{listed, value_at};
use crate::texts::{bound_of, key_of};
use crate::view::View;
use fn_tree::look::Look;
use fn_walk::{Acts, Break, word};
use r3_value::{Memory, Outcome, Txt, Val};
use sqlite_items::Items;
use std::alloc::Global;

/// The bodies of transactions on a map. The state is what they record.
#[derive(Drop)]
pub struct OnView<'a, M: View> {
    pub view: &'a M,
}

// Records a look, once.
fn note(alloc: Global, journal: &mut Journal, look: Look) -> Result<(), Break>
    ensures { (env : List Binding) (units cost : ℕ) → RunsAs {Q = Never} (λ q. None) result (kept_or_size (looked look journal.old) (place_at env journal.old units cost)) (place_at env journal.new units cost) }
{
    if journal.look(look)? {
        Ok(())
    } else {
        Err(Break::Failed(word(alloc, "size")?))
    }
}

// Records what the body leaves at a key.
fn store(alloc: Global, journal: &mut Journal, row: RowKey, left: Option<Val>) -> Result<(), Break>
    ensures { (env : List Binding) (units cost : ℕ) → RunsAs {Q = Never} (λ q. None) result (kept_or_size (wrote_key row left journal.old) (place_at env journal.old units cost)) (place_at env journal.new units cost) }
{
    if journal.write(row, left)? {
        Ok(())
    } else {
        Err(Break::Failed(word(alloc, "size")?))
    }
}

// Leaves a value, or none, at a key that may be of a wrong kind.
#[tactic(auto, using(crate::proofs::JournalLemmas::text_went, crate::proofs::JournalLemmas::text_broke, crate::proofs::JournalLemmas::wrote_is))]
fn put_or_delete(
    alloc: Global,
    journal: &mut Journal,
    table: &Txt,
    key: Val,
    left: Option<Val>,
) -> Result<(), Break>
    ensures { (base : Versions) (env : List Binding) (units cost : ℕ) → RunsAs {Q = Never} (λ q. None) result (txn.wrote base table.now left key (place_at env journal.old units cost)) (place_at env journal.new units cost) }
{
    let key = key_of(alloc, key)?;
    let table = table.copy()?;
    store(alloc, journal, RowKey { table, key }, left)
}

// The row of a key that the body didn't write.
#[tactic(auto, using(crate::proofs::JournalLemmas::look_went, crate::proofs::JournalLemmas::look_broke))]
fn read<M: View>(alloc: Global, view: &M, journal: &mut Journal, row: RowKey) -> Result<Val, Break>
    ensures { (env : List Binding) (units cost : ℕ) → RunsAs {Q = Never} (λ q. None) result (txn.got_by (M.versions view.now) None row.table row.key (place_at env journal.old units cost)) (place_at env journal.new units cost) }
{
    let (v, version) = value_at(view, &row.table, &row.key)?;
    let look = Look::At {
        table: row.table,
        key: row.key,
        version,
    };
    note(alloc, journal, look)?;
    Ok(v)
}

// A copy of what the body left at a key, where None is Null.
fn left_value(left: &Option<Val>) -> Result<Val, Memory>
    ensures { IfOk result (λ v. v ≡ values.or_null left.now) }
{
    match left {
        Some(v) => {
            let v = v.copy()?;
            Ok(v)
        }
        None => Ok(Val::Null),
    }
}

// The row of a key.
fn got<M: View>(alloc: Global, view: &M, journal: &mut Journal, row: RowKey) -> Result<Val, Break>
    ensures { (env : List Binding) (units cost : ℕ) → RunsAs {Q = Never} (λ q. None) result (txn.got_by (M.versions view.now) (txn.written_at journal.old.writes row.table row.key) row.table row.key (place_at env journal.old units cost)) (place_at env journal.new units cost) }
{
    if let Some(left) = journal.written(&row) {
        let v = left_value(left)?;
        return Ok(v);
    }
    read(alloc, view, journal, row)
}

// What a look at a range finds in the map, and the list of its rows with the body's writes over them.
fn seen<M: View>(
    alloc: Global,
    view: &M,
    journal: &Journal,
    table: &Txt,
    lo: &Txt,
    hi: &Txt,
) -> Result<(Look, Outcome), Memory>
    requires lo { length lo.now ≤ 256 }
    requires hi { length hi.now ≤ 256 }
    ensures { IfOk result (λ r. (r.0 ≡ txn.found (M.versions view.now) table.now lo.now hi.now) × (r.1 ≡ meaning.list_or_size (map pair_value (rows_under journal.now.writes table.now lo.now hi.now (txn.rows_at (M.versions view.now) table.now lo.now hi.now))))) }
{
    let keys = view.keys(table.as_str(), lo.as_str(), hi.as_str())?;
    let under = journal.over(alloc, view, table, lo, hi, keys.as_slice())?;
    let outcome = listed(alloc, under.as_slice())?;
    let look = Look::Range {
        table: table.copy()?,
        lo: lo.copy()?,
        hi: hi.copy()?,
        keys: Items::from_vec(keys),
    };
    Ok((look, outcome))
}

// The rows of a range, recorded with the keys that the map has there.
fn scanned<M: View>(
    alloc: Global,
    view: &M,
    journal: &mut Journal,
    table: &Txt,
    lo: Txt,
    hi: Txt,
) -> Result<Val, Break>
    requires lo { length lo ≤ 256 }
    requires hi { length hi ≤ 256 }
    ensures { (env : List Binding) (units cost : ℕ) → RunsAs {Q = Never} (λ q. None) result (with_look (txn.found (M.versions view.now) table.now lo hi) (place_at env journal.old units cost) (taken (meaning.list_or_size (map pair_value (rows_under journal.old.writes table.now lo hi (txn.rows_at (M.versions view.now) table.now lo hi)))))) (place_at env journal.new units cost) }
{
    let (look, outcome) = seen(alloc, view, journal, table, &lo, &hi)?;
    note(alloc, journal, look)?;
    match outcome {
        Outcome::Value(v) => Ok(v),
        Outcome::Failure(word) => Err(Break::Failed(word)),
    }
}

impl<'a, M: View> Acts<Journal> for OnView<'a, M> {
    ghost Question = { Never };

    ghost effects = { λ s. on_versions (M.versions s.view.now) };

    ghost question = { λ q. None };

    #[tactic(auto, using(crate::proofs::JournalLemmas::text_went, crate::proofs::JournalLemmas::text_broke))]
    fn get(&self, alloc: Global, state: &mut Journal, table: &Txt, key: Val) -> Result<Val, Break> {
        let key = key_of(alloc, key)?;
        let table = table.copy()?;
        got(alloc, self.view, state, RowKey { table, key })
    }

    #[tactic(auto, using(crate::proofs::JournalLemmas::text_went, crate::proofs::JournalLemmas::text_broke))]
    fn scan(
        &self,
        alloc: Global,
        state: &mut Journal,
        table: &Txt,
        lo: Val,
        hi: Val,
    ) -> Result<Val, Break> {
        let lo = bound_of(alloc, lo)?;
        let hi = bound_of(alloc, hi)?;
        scanned(alloc, self.view, state, table, lo, hi)
    }

    fn put(
        &self,
        alloc: Global,
        state: &mut Journal,
        table: &Txt,
        key: Val,
        value: Val,
    ) -> Result<(), Break> {
        put_or_delete(alloc, state, table, key, Some(value))
    }

    fn delete(
        &self,
        alloc: Global,
        state: &mut Journal,
        table: &Txt,
        key: Val,
    ) -> Result<(), Break> {
        put_or_delete(alloc, state, table, key, None)
    }

    fn call(
        &self,
        _alloc: Global,
        _state: &mut Journal,
        _name: &Txt,
        _count: usize,
        _args: Val,
    ) -> Result<Val, Break> {
        Err(Break::Stuck)
    }

    fn spawn(
        &self,
        _alloc: Global,
        _state: &mut Journal,
        _name: &Txt,
        _count: usize,
        _args: Val,
    ) -> Result<Val, Break> {
        Err(Break::Stuck)
    }

    fn wait(&self, _alloc: Global, _state: &mut Journal, _id: Txt) -> Result<Val, Break> {
        Err(Break::Stuck)
    }
}
