//! A turn that asks for a transaction.

ghost use Rattle.std.specs.Prelude.{◌≡◌, ◌∷◌, ◌++◌, ◌≤◌, ◌&&◌, ℕ, List, Some, length, map, nat_lt, IfOk, IsTrue};
ghost use Rattle.std.specs.List.{list_any};
ghost use Rattle.std.specs.Ordering.{eq_by_cmp};
ghost use Rattle.std.specs.FinMap.Entries.{is_sorted};
ghost use Rattle.r3_value.specs.declared.value.Val.{Val as V};
ghost use Rattle.r3_rows.specs.Keys.{key_cmp};
ghost use Rattle.r3_entry.specs.declared.entry.Entry.{Entry as E};
ghost use Rattle.fn_tree.specs.declared.flow.Answer.{Answer};
ghost use Rattle.fn_tree.specs.declared.flow.AskKind.{AskKind};
ghost use Rattle.fn_tree.specs.declared.flow.FlowEnd.{FlowEnd};
ghost use Rattle.r3_model.specs.Acts.{put_write};
ghost use Rattle.r3_model.specs.Functions.{language_of};
ghost use Rattle.r3_model.specs.Language.{Language};
ghost use Rattle.r3_model.specs.Turns as machine;
ghost use Rattle.r3_plain.specs.Comes.{IsAsked, IsWithin};
ghost use Rattle.r3_plain.specs.Kept.{Stands};
ghost use Rattle.r3_plain.specs.Words.{given_of};

use crate::commands::next;
use crate::given::Given;
use crate::order::is_called;
use crate::past::Kept;
use crate::reply::Reply;
use fn_tree::checked::Checked;
use fn_tree::flow::Request;
use fn_tree::look::TxnRun;
use r3_acts::txn_entry;
use r3_entry::Entry;
use r3_past::Past;
use r3_rows::{Cell, Key};
use r3_steps::Steps;
use r3_turns::txn_run;
use r3_value::{Memory, Txt, Val};
use std::alloc::Global;
use std::sync::ledger::Ledger;

/// A copy of a text. One that is too long is answered with want of memory.
pub fn text_of(alloc: Global, text: &str) -> Result<Txt, Memory>
    ensures { IfOk result (λ t. t ≡ text.now) }
{
    match Txt::new(alloc, text) {
        Ok(text) => Ok(text),
        Err(_) => Err(Memory),
    }
}

// Whether it is the key of a row that a body left.
fn is_put(key: &Key, put: &(Txt, Txt, Option<Val>)) -> bool
    ensures { result ≡ eq_by_cmp key_cmp key.now (put_write put.now).0 }
{
    match key {
        Key::User { table, key } => {
            is_called(table.as_str(), put.0.as_str()) && is_called(key.as_str(), put.1.as_str())
        }
        _ => false,
    }
}

fn is_any_put(key: &Key, puts: &[(Txt, Txt, Option<Val>)]) -> bool
    ensures { result ≡ list_any (λ p. eq_by_cmp key_cmp key.now (put_write p).0) puts.now }
{
    'puts: for put in puts {
        if is_put(key, put) {
            return true;
        }
    }
    false
}

// Whether one of the writes is of such a key.
fn writes_any(writes: &[(Key, Option<Cell>)], puts: &[(Txt, Txt, Option<Val>)]) -> bool
    ensures { result ≡ list_any (λ w. list_any (λ p. eq_by_cmp key_cmp w.0 (put_write p).0) puts.now) writes.now }
{
    'writes: for write in writes {
        if is_any_put(&write.0, puts) {
            return true;
        }
    }
    false
}

// Whether the entry of this number stands past the snapshot and wrote a key of those that the body wrote.
fn writes_past(entry: &Entry, number: u32, snap: u32, run: &TxnRun) -> bool
    ensures { result ≡ (nat_lt snap number && list_any (λ w. machine.conflict_keys run.now w.0) entry.now.writes) }
{
    snap < number && writes_any(entry.writes.list(), run.writes.as_slice())
}

// The first entry past the snapshot that wrote a key of those that the body wrote.
fn writer_past(history: &[Entry], snap: u32, run: &TxnRun) -> Option<u32>
    requires { length history.now ≤ 1000000 }
    ensures { result ≡ machine.writer_past history.now snap (machine.conflict_keys run.now) }
{
    let mut number = 0u32;
    'entries: for entry in history {
        number += 1;
        if writes_past(entry, number, snap, run) {
            return Some(number);
        }
    }
    None
}

fn let_go(run: TxnRun) {
    let _run = run;
}

// A transaction that was run on its snapshot is committed, or has lost.
fn committed(
    alloc: Global,
    past: &Kept<'_>,
    id: &Txt,
    request: &Request,
    snap: u32,
    run: TxnRun,
) -> Result<Given, Memory>
    requires stands { (h : List E) × Stands past.now h }
    requires rising { IsTrue (is_sorted key_cmp (map put_write run.writes)) }
    ensures { IfOk result (λ g. (language : Language) (h : List E) → Stands past.now h → given_of g
        ≡ machine.committed language h id.now snap request.now run (machine.writer_past h snap (machine.conflict_keys run))) }
{
    match writer_past(past.history, snap, &run) {
        Some(entry) => {
            let_go(run);
            Ok(Given::Answers(Reply::Conflicts { entry }))
        }
        None => {
            let entry = txn_entry(alloc, id, request, snap, run)?;
            Ok(Given::Enters {
                entry,
                reply: Reply::Entry { number: next(past) },
            })
        }
    }
}

// Its body is run on its open snapshot.
fn commit<L: Ledger>(
    alloc: Global,
    program: &Checked,
    past: &Kept<'_>,
    id: &Txt,
    request: &Request,
    snap: u32,
    steps: &mut Steps<L>,
) -> Result<Given, Memory>
    requires stands { (h : List E) × Stands past.now h × IsAsked (language_of program.now) h id.now request.now }
    requires kind { request.now.kind ≡ AskKind.Txn }
    requires within { snap ≤ length past.now.history.now }
    ensures { IfOk result (λ g. (h : List E) → Stands past.now h → given_of g
        ≡ machine.txn_turn (language_of program.now) h id.now (Some snap) request.now) }
{
    let run = txn_run(alloc, past, program, request, snap, steps)?;
    let given = committed(alloc, past, id, request, snap, run)?;
    Ok(given)
}

/// A transaction that is asked for: its snapshot is opened, or its body is run there.
pub fn txn_turn<L: Ledger>(
    alloc: Global,
    program: &Checked,
    past: &Kept<'_>,
    id: &Txt,
    request: &Request,
    snap: Option<u32>,
    steps: &mut Steps<L>,
) -> Result<Given, Memory>
    requires stands { (h : List E) × Stands past.now h × IsAsked (language_of program.now) h id.now request.now }
    requires kind { request.now.kind ≡ AskKind.Txn }
    requires within { IsWithin past.now.history.now snap }
    ensures { IfOk result (λ g. (h : List E) → Stands past.now h → given_of g
        ≡ machine.txn_turn (language_of program.now) h id.now snap request.now) }
{
    match snap {
        None => Ok(Given::Answers(Reply::Began { snap: past.count() })),
        Some(snap) => {
            let given = commit(alloc, program, past, id, request, snap, steps)?;
            Ok(given)
        }
    }
}
