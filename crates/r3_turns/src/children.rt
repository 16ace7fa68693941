//! A workflow asks for a child.

ghost use Rattle.std.specs.Prelude.{◌≡◌, ◌+◌, ◌≤◌, [], List, length, IfOk};
ghost use Rattle.std.specs.Option.{option_copied};
ghost use Rattle.r3_value.specs.declared.value.Outcome.TheVariants as outcomes;
ghost use Rattle.r3_value.specs.declared.value.Val.TheVariants as vals;
ghost use Rattle.r3_entry.specs.declared.entry.Entry.{Entry as E};
ghost use Rattle.sys_flow.specs.Children.{child_id};
ghost use Rattle.r3_acts.specs.Entries.{IsMadeOn};
ghost use Rattle.r3_model.specs.Acts.{child_entry};
ghost use Rattle.r3_model.specs.Event as reply;
ghost use Rattle.r3_model.specs.Given as given;
ghost use Rattle.r3_model.specs.Language.{Language};
ghost use Rattle.r3_model.specs.Turns.{child_or_id, child_turn, now};

use fn_tree::flow::Request;
use r3_acts::{child_entry, known_child_entry};
use r3_entry::Entry;
use r3_past::{Past, flow_row};
use r3_rows::FlowRow;
use r3_value::{Memory, Outcome, Txt, Val};
use std::alloc::Global;
use sys_flow::{ChildFault, child_id};

// The step fails with a word, and starts nothing.
fn failed_child(
    alloc: Global,
    count: u32,
    id: &Txt,
    request: &Request,
    child: &Txt,
    word: &str,
) -> Result<Entry, Memory>
    ensures { IfOk result (λ e. IsMadeOn count
        (λ h. child_entry h id.now request.now child.now (outcomes.Failure word.now) []) e) }
{
    match Txt::new(alloc, word) {
        Err(_) => Err(Memory),
        Ok(word) => {
            let failure = Outcome::Failure(word);
            known_child_entry(alloc, count, id, request, child, failure)
        }
    }
}

// The child is there, and nothing starts.
fn adopted_child(
    alloc: Global,
    count: u32,
    id: &Txt,
    request: &Request,
    child: &Txt,
) -> Result<Entry, Memory>
    ensures { IfOk result (λ e. IsMadeOn count
        (λ h. child_entry h id.now request.now child.now (outcomes.Value (vals.Text child.now)) []) e) }
{
    let value = Outcome::Value(Val::Text(child.copy()?));
    known_child_entry(alloc, count, id, request, child, value)
}

// By the row under the child's ID.
fn child_by_row(
    alloc: Global,
    count: u32,
    id: &Txt,
    request: &Request,
    child: &Txt,
    row: Option<&FlowRow>,
) -> Result<Entry, Memory>
    requires { count ≤ 1000000 }
    ensures { IfOk result (λ entry. (language : Language) (h : List E) → length h ≡ count →
        child_turn language h id.now request.now child.now (option_copied row.entry)
        ≡ given.Enters entry (reply.Entry (length h + 1))) }
{
    match row {
        None => child_entry(alloc, count, id, request, child),
        Some(row) => {
            if row.function.as_str() == request.name.as_str() {
                adopted_child(alloc, count, id, request, child)
            } else {
                failed_child(alloc, count, id, request, child, "conflict")
            }
        }
    }
}

// Under a child's ID.
fn child_under<P: Past>(
    alloc: Global,
    past: &P,
    id: &Txt,
    request: &Request,
    child: &Txt,
) -> Result<Entry, Memory>
    requires stands { (h : List E) × P.stands past.now h }
    ensures { IfOk result (λ entry. (language : Language) (h : List E) → P.stands past.now h →
        child_turn language h id.now request.now child.now (now language h id.now child.now)
        ≡ given.Enters entry (reply.Entry (length h + 1))) }
{
    past.is_past();
    let count = past.count();
    let row = flow_row(alloc, past, child.as_str())?;
    let entry = child_by_row(alloc, count, id, request, child, row)?;
    Ok(entry)
}

/// The entry of an ask for a child. A fresh child starts, one of the same function is adopted, and one of
/// another is a conflict; where its ID would be too long the step fails too.
pub fn child_draft<P: Past>(
    alloc: Global,
    past: &P,
    id: &Txt,
    request: &Request,
) -> Result<Entry, Memory>
    requires stands { (h : List E) × P.stands past.now h }
    ensures { IfOk result (λ entry. (language : Language) (h : List E) → P.stands past.now h →
        child_or_id language h id.now request.now (child_id id.now request.now.n)
        ≡ given.Enters entry (reply.Entry (length h + 1))) }
{
    match child_id(alloc, id.as_str(), request.n) {
        Err(ChildFault::Memory) => Err(Memory),
        Err(ChildFault::Id) => {
            let entry = failed_child(alloc, past.count(), id, request, id, "id")?;
            Ok(entry)
        }
        Ok(child) => {
            let entry = child_under(alloc, past, id, request, &child)?;
            Ok(entry)
        }
    }
}
