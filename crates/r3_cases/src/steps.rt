//! One step of a case: what is done, in words, and what it is answered.

ghost use Rattle.std.specs.Prelude.{◌≡◌, ◌<◌, ℕ, List, length, true, IfOk, OnOk, IsSome, IsTrue};
ghost use Rattle.std.specs.List.{list_any};
ghost use Rattle.std.specs.Str.{bytes_eq};
ghost use Rattle.r3_model.specs.Language.{Queue};
ghost use Rattle.r3_model.specs.Machine.{State};
ghost use Rattle.r3_model.specs.Rows.{flow_at};
ghost use Rattle.r3_exec.specs.Fit.{IsGiven};
ghost use Rattle.r3_exec.specs.Runs.{Runs, Stands, language};

use crate::answers::{
    command_words, dequeue_words, drain_words, flow_words, names_words, turn_words, value_words,
    words_of,
};
use crate::commands::command_of;
use r3_desk::Desk;
use r3_exec::{Exec, ExecFault};
use r3_recover::drain;
use r3_steps::Steps;
use r3_value::{Memory, Txt};
use std::alloc::Global;
use std::marker::Brand;
use std::sync::ledger::{Blank, Ledger};
use sys_flow::Command;

fn is_known(alloc: Global, exec: &Exec, id: &str) -> Result<bool, Memory>
    requires { (st : State) × Stands exec.now st }
    ensures { (st : State) → Stands exec.now st →
        IfOk result (λ known. known ≡ true → IsSome (flow_at st.history (length st.history) id.now)) }
{
    match exec.flow(alloc, id)? {
        Some(_) => Ok(true),
        None => Ok(false),
    }
}

fn turn<D: Desk, L: Ledger>(
    alloc: Global,
    desk: &mut D,
    exec: &mut Exec,
    id: &str,
    steps: &mut Steps<L>,
) -> Result<String, ExecFault>
    requires { (st : State) × (k : ℕ) × Runs D.size D.image D.may_leave desk.old exec.old st k }
    ensures { OnOk result ((st : State) × (k : ℕ) × Runs D.size D.image D.may_leave desk.new exec.new st k) }
{
    if !is_known(alloc, exec, id)? {
        return Ok(words_of(alloc, "unknown")?);
    }
    match exec.turn(alloc, desk, id, steps) {
        Ok(end) => Ok(turn_words(alloc, &end)?),
        Err(fault) => Err(fault),
    }
}

fn contains(names: &[Txt], name: &str) -> bool
    ensures { result ≡ list_any (λ (n : List ℕ). bytes_eq n name.now) names.now }
{
    'names: for other in names {
        if other.as_str() == name {
            return true;
        }
    }
    false
}

fn is_declared(alloc: Global, exec: &Exec, queue: &str) -> Result<bool, Memory>
    ensures { IfOk result (λ declared. declared ≡ list_any (λ (q : Queue). bytes_eq q.name queue.now) (language exec.now).queues) }
{
    let names = exec.queues(alloc)?;
    Ok(contains(&names, queue))
}

fn dequeue<D: Desk>(
    alloc: Global,
    desk: &mut D,
    exec: &mut Exec,
    queue: &str,
) -> Result<String, ExecFault>
    requires { (st : State) × (k : ℕ) × Runs D.size D.image D.may_leave desk.old exec.old st k }
    ensures { OnOk result ((st : State) × (k : ℕ) × Runs D.size D.image D.may_leave desk.new exec.new st k) }
{
    if !is_declared(alloc, exec, queue)? {
        return Ok(words_of(alloc, "unknown")?);
    }
    match exec.dequeue(alloc, desk, queue) {
        Ok(end) => Ok(dequeue_words(alloc, &end)?),
        Err(fault) => Err(fault),
    }
}

fn command<D: Desk>(
    alloc: Global,
    desk: &mut D,
    exec: &mut Exec,
    command: &Command,
) -> Result<String, ExecFault>
    requires given { IsGiven command.now }
    requires runs { (st : State) × (k : ℕ) × Runs D.size D.image D.may_leave desk.old exec.old st k }
    ensures { OnOk result ((st : State) × (k : ℕ) × Runs D.size D.image D.may_leave desk.new exec.new st k) }
{
    match exec.append(alloc, desk, command) {
        Ok(end) => Ok(command_words(alloc, &end)?),
        Err(fault) => Err(fault),
    }
}

fn drained<D: Desk, L: Ledger>(
    alloc: Global,
    desk: &mut D,
    exec: &mut Exec,
    turns: &str,
    steps: &mut Steps<L>,
) -> Result<String, ExecFault>
    requires { (st : State) × (k : ℕ) × Runs D.size D.image D.may_leave desk.old exec.old st k }
    ensures { OnOk result ((st : State) × (k : ℕ) × Runs D.size D.image D.may_leave desk.new exec.new st k) }
{
    let turns = turns.parse::<u32>().unwrap_or(0);
    match drain(alloc, exec, desk, turns, steps) {
        Ok(end) => Ok(drain_words(alloc, end)?),
        Err(fault) => Err(fault),
    }
}

fn settled<D: Desk>(alloc: Global, desk: &mut D, exec: &mut Exec) -> Result<String, ExecFault>
    requires { (st : State) × (k : ℕ) × Runs D.size D.image D.may_leave desk.old exec.old st k }
    ensures { OnOk result ((st : State) × (k : ℕ) × Runs D.size D.image D.may_leave desk.new exec.new st k) }
{
    match exec.settle(desk) {
        Ok(()) => Ok(words_of(alloc, "settled")?),
        Err(fault) => Err(fault),
    }
}

// What is read.
fn look(alloc: Global, exec: &Exec, words: &[&str]) -> Result<String, Memory>
    requires { (st : State) × Stands exec.now st }
{
    match words {
        ["status", id] => match exec.flow(alloc, id)? {
            Some(row) => flow_words(alloc, row),
            None => words_of(alloc, "unknown"),
        },
        ["get", table, key] => match exec.row(alloc, table, key)? {
            Some(value) => value_words(alloc, value),
            None => words_of(alloc, "absent"),
        },
        ["table", table] => Ok(format!(in alloc; "{}", exec.has_table(table))?),
        ["len"] => Ok(format!(in alloc; "{}", exec.len())?),
        ["queues"] => {
            let names = exec.queues(alloc)?;
            names_words(alloc, &names)
        }
        ["pending"] => {
            let ids = exec.pending(alloc)?;
            names_words(alloc, &ids)
        }
        _ => words_of(alloc, "no such step"),
    }
}

fn step_of<D: Desk, L: Ledger>(
    alloc: Global,
    desk: &mut D,
    exec: &mut Exec,
    words: &[&str],
    blank: Blank,
) -> Result<String, ExecFault>
    requires name { blank.name ≡ L.name }
    requires parts { blank.parts ≡ L.parts }
    requires some { 0 < blank.parts }
    requires runs { (st : State) × (k : ℕ) × Runs D.size D.image D.may_leave desk.old exec.old st k }
    ensures { OnOk result ((st : State) × (k : ℕ) × Runs D.size D.image D.may_leave desk.new exec.new st k) }
{
    let mut steps = Steps::<L>::new(blank);
    match words {
        ["turn", id] => turn(alloc, desk, exec, id, &mut steps),
        ["drain", turns] => drained(alloc, desk, exec, turns, &mut steps),
        ["dequeue", queue] => dequeue(alloc, desk, exec, queue),
        ["settle"] => settled(alloc, desk, exec),
        _ => match command_of(alloc, words)? {
            Some(given) => command(alloc, desk, exec, &given),
            None => Ok(look(alloc, exec, words)?),
        },
    }
}

/// Does a step, and tells its answer in words.
pub fn step<D: Desk>(
    alloc: Global,
    desk: &mut D,
    exec: &mut Exec,
    step: &str,
) -> Result<String, ExecFault>
    requires { (st : State) × (k : ℕ) × Runs D.size D.image D.may_leave desk.old exec.old st k }
    ensures { OnOk result ((st : State) × (k : ℕ) × Runs D.size D.image D.may_leave desk.new exec.new st k) }
{
    let mut words = Vec::new(alloc);
    for word in step.split(' ') {
        match words.push(word) {
            Ok(()) => {}
            Err(_) => return Err(ExecFault::Memory),
        }
    }
    step_of::<D, Brand>(alloc, desk, exec, &words, Blank::new(1))
}
