//! What the store has when the script was run.

ghost use Rattle.std.specs.Prelude.{◌≡◌, ◌≤◌, length, codes, cond, IfOk};
ghost use Rattle.std.specs.Option.{option_copied};
ghost use Rattle.r3_model.specs.Generator.{amount, account, flow_id, is_success, successes, total};
ghost use Rattle.r3_model.specs.Machine.{State};
ghost use Rattle.r3_model.specs.Rows.{flow_at, row_at};
ghost use Rattle.r3_exec.specs.Runs.{Stands};
ghost use Rattle.r3_gen.specs.Ran.{summary_text};

use crate::lines::{ACCOUNTS, account, flow_id};
use r3_exec::Exec;
use r3_reply::summary_text;
use r3_rows::{FlowRow, Status};
use r3_session::Session;
use r3_value::{Memory, Val};
use std::alloc::Global;

fn is_success(row: Option<&FlowRow>) -> bool
    ensures { result ≡ is_success (option_copied row.entry) }
{
    match row {
        Some(row) => matches!(row.status, Status::Success),
        None => false,
    }
}

// 1 where the workflow of this transfer has succeeded, and else 0.
fn success_of(alloc: Global, exec: &Exec, i: u32) -> Result<u32, Memory>
    requires { (st : State) × Stands exec.now st }
    ensures success { (st : State) → Stands exec.now st →
        IfOk result (λ n. n ≡ cond (is_success (flow_at st.history (length st.history) (flow_id i))) 1 0) }
    ensures few { IfOk result (λ n. n ≤ 1) }
{
    let id = flow_id(alloc, i)?;
    let row = exec.flow(alloc, id.as_str())?;
    if is_success(row) { Ok(1) } else { Ok(0) }
}

// The number of the workflows that have succeeded.
fn successes(alloc: Global, exec: &Exec, count: u32) -> Result<u32, Memory>
    requires { (st : State) × Stands exec.now st }
    ensures { (st : State) → Stands exec.now st → IfOk result (λ n. n ≡ successes st.history count) }
{
    let mut successes = 0;
    'starts: for i in 0..count {
        let success = success_of(alloc, exec, i)?;
        successes += success;
    }
    Ok(successes)
}

// A row that is no Int counts nothing.
fn amount(value: Option<&Val>) -> i64
    ensures { result ≡ amount (option_copied value.entry) }
{
    match value {
        Some(Val::Int(n)) => *n,
        _ => 0,
    }
}

fn amount_of(alloc: Global, exec: &Exec, i: u32) -> Result<i64, Memory>
    requires { (st : State) × Stands exec.now st }
    ensures { (st : State) → Stands exec.now st →
        IfOk result (λ z. z ≡ amount (row_at st.history (length st.history) (codes "acct") (account i))) }
{
    let key = account(alloc, i)?;
    let value = exec.row(alloc, "acct", key.as_str())?;
    Ok(amount(value))
}

// The sum of the accounts.
fn total(alloc: Global, exec: &Exec) -> Result<i128, Memory>
    requires { (st : State) × Stands exec.now st }
    ensures { (st : State) → Stands exec.now st → IfOk result (λ z. z ≡ total st.history) }
{
    let mut sum = 0;
    'accounts: for i in 0..ACCOUNTS {
        sum += i128::from(amount_of(alloc, exec, i)?);
    }
    Ok(sum)
}

/// The summary of a store on which so many transfers were started: the number of its entries, of these transfers
/// that have succeeded, and the sum of the accounts.
pub fn summary_of(alloc: Global, session: &Session, count: u32) -> Result<Vec<u8>, Memory>
    requires { (st : State) × Stands session.now.exec st }
    ensures { (st : State) → Stands session.now.exec st →
        IfOk result (λ text. text.items ≡ summary_text st.history count) }
{
    let exec = session.exec();
    let success = successes(alloc, exec, count)?;
    let sum = total(alloc, exec)?;
    summary_text(alloc, exec.len(), success, sum)
}
