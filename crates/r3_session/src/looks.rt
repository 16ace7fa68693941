//! Lines that do nothing, with their texts.

ghost use Rattle.std.specs.Prelude.{◌≡◌, ℕ, List, length, IfOk, None, true, false, IsSome};
ghost use Rattle.std.specs.List.{list_any};
ghost use Rattle.std.specs.Str.{bytes_eq};
ghost use Rattle.r3_model.specs.Event as model;
ghost use Rattle.r3_model.specs.Language.{Language, Queue};
ghost use Rattle.r3_model.specs.Machine.{State};
ghost use Rattle.r3_model.specs.Rows.{flow_at};
ghost use Rattle.r3_model.specs.Script as script;
ghost use Rattle.r3_exec.specs.Runs.{Stands, language};
ghost use Rattle.r3_session.specs.Done.{IsTold};

use r3_exec::Exec;
use r3_reply::{Reply, reply_text};
use r3_value::{Memory, Txt};
use std::alloc::Global;
use sys_flow::Refusal;

/// Whether a workflow has the ID.
pub fn is_known(alloc: Global, exec: &Exec, id: &str) -> Result<bool, Memory>
    requires { (st : State) × Stands exec.now st }
    ensures known { (st : State) → Stands exec.now st → IfOk result (λ known. known ≡ true → IsSome (flow_at st.history (length st.history) id.now)) }
    ensures unknown { (st : State) → Stands exec.now st → IfOk result (λ known. known ≡ false → flow_at st.history (length st.history) id.now ≡ None) }
{
    match exec.flow(alloc, id)? {
        Some(_) => Ok(true),
        None => Ok(false),
    }
}

fn contains(names: &[Txt], name: &str) -> bool
    ensures { result ≡ list_any (λ (n : List ℕ). bytes_eq n name.now) names.now }
{
    'names: for other in names {
        if other.as_str() == name {
            return true;
        }
    }
    false
}

/// Whether a queue is declared.
pub fn is_declared(alloc: Global, exec: &Exec, queue: &str) -> Result<bool, Memory>
    ensures { IfOk result (λ declared. declared ≡ list_any (λ (q : Queue). bytes_eq q.name queue.now) (language exec.now).queues) }
{
    let names = exec.queues(alloc)?;
    Ok(contains(&names, queue))
}

/// Of a turn of a workflow that isn't there.
pub fn unknown_turn(alloc: Global, id: &str) -> Result<Vec<u8>, Memory>
    ensures { (P : Language) (st : State) → flow_at st.history (length st.history) id.now ≡ None →
        IfOk result (λ text. IsTold P st (script.Does (model.Turn id.now)) text.items) }
{
    reply_text(
        alloc,
        &Reply::Refused {
            refusal: Refusal::UnknownId,
        },
    )
}

/// Of a dequeue of a queue that isn't declared.
pub fn unknown_queue(alloc: Global, queue: &str) -> Result<Vec<u8>, Memory>
    ensures { (P : Language) (st : State) → list_any (λ (q : Queue). bytes_eq q.name queue.now) P.queues ≡ false →
        IfOk result (λ text. IsTold P st (script.Does (model.Dequeue queue.now)) text.items) }
{
    reply_text(
        alloc,
        &Reply::Refused {
            refusal: Refusal::UnknownQueue,
        },
    )
}

/// The row of a workflow.
pub fn status(alloc: Global, exec: &Exec, id: &str) -> Result<Vec<u8>, Memory>
    requires { (st : State) × Stands exec.now st }
    ensures { (st : State) → Stands exec.now st →
        IfOk result (λ text. IsTold (language exec.now) st (script.Does (model.ShowStatus id.now)) text.items) }
{
    match exec.flow(alloc, id)? {
        Some(row) => reply_text(alloc, &Reply::Row { id, row }),
        None => reply_text(
            alloc,
            &Reply::Refused {
                refusal: Refusal::UnknownId,
            },
        ),
    }
}

// The value of a row of a declared table.
fn value(alloc: Global, exec: &Exec, table: &str, key: &str) -> Result<Vec<u8>, Memory>
    requires declared { (language exec.now).has_table table.now ≡ true }
    requires stands { (st : State) × Stands exec.now st }
    ensures { (st : State) → Stands exec.now st →
        IfOk result (λ text. IsTold (language exec.now) st (script.Does (model.GetRow table.now key.now)) text.items) }
{
    match exec.row(alloc, table, key)? {
        Some(value) => reply_text(alloc, &Reply::Value(value)),
        None => reply_text(alloc, &Reply::Absent),
    }
}

/// The value of a row.
pub fn get(alloc: Global, exec: &Exec, table: &str, key: &str) -> Result<Vec<u8>, Memory>
    requires { (st : State) × Stands exec.now st }
    ensures { (st : State) → Stands exec.now st →
        IfOk result (λ text. IsTold (language exec.now) st (script.Does (model.GetRow table.now key.now)) text.items) }
{
    if exec.has_table(table) {
        value(alloc, exec, table, key)
    } else {
        reply_text(
            alloc,
            &Reply::Refused {
                refusal: Refusal::UnknownTable,
            },
        )
    }
}

/// Of a line that is no JSON.
pub fn unread(alloc: Global) -> Result<Vec<u8>, Memory>
    ensures { (P : Language) (st : State) → IfOk result (λ text. IsTold P st script.Unread text.items) }
{
    reply_text(alloc, &Reply::NotRead)
}

/// Of a line that is JSON of no form.
pub fn unformed(alloc: Global) -> Result<Vec<u8>, Memory>
    ensures { (P : Language) (st : State) → IfOk result (λ text. IsTold P st script.Unformed text.items) }
{
    reply_text(alloc, &Reply::NotForm)
}
