//! One step of a case: what is done, and what it is answered, in words.

ghost use Rattle.std.specs.Prelude.{◌≢◌, []};
ghost use Rattle.r3_entry.specs.Formed.{IsFormed};
ghost use Rattle.r3_model.specs.Functions.{language_of};
ghost use Rattle.r3_model.specs.Language.{Language};
ghost use Rattle.r3_model.specs.Valid.{IsValid};
ghost use Rattle.r3_plain.specs.Words.{state_of};
ghost use Rattle.r3_worked.specs.Later.{FitsLater};

use crate::drains::drained;
use crate::events::{event_of, recovery, turn};
use crate::words::{entry_words, names_words, out_words, words_of};
use fn_tree::checked::Checked;
use r3_plain::{Event, Out, State, pending, step};
use r3_value::{Memory, Outcome, Txt, Val};
use std::alloc::Global;

/// An event on a history that isn't empty, with this answer to its call.
fn happen(
    alloc: Global,
    program: &Checked,
    state: &mut State,
    event: Event,
    answer: Option<Outcome>,
) -> Result<Out, Memory>
    requires valid { IsValid (language_of program.now) (state_of state.old) }
    requires fits { FitsLater event }
    ensures { IsValid (language_of program.now) (state_of state.new) }
{
    let answers = [answer];
    step(alloc, program, state, &event, &answers)
}

/// An event, whose call is answered with null.
pub fn answered(
    alloc: Global,
    program: &Checked,
    state: &mut State,
    event: Event,
) -> Result<Out, Memory>
    requires valid { IsValid (language_of program.now) (state_of state.old) }
    requires fits { FitsLater event }
    ensures { IsValid (language_of program.now) (state_of state.new) }
{
    happen(
        alloc,
        program,
        state,
        event,
        Some(Outcome::Value(Val::Null)),
    )
}

// The same in words.
fn told(alloc: Global, program: &Checked, state: &mut State, event: Event) -> Result<String, Memory>
    requires valid { IsValid (language_of program.now) (state_of state.old) }
    requires fits { FitsLater event }
    ensures { IsValid (language_of program.now) (state_of state.new) }
{
    let out = answered(alloc, program, state, event)?;
    out_words(alloc, out)
}

// No answer, or a word as a failure.
fn failure_of(alloc: Global, word: &str) -> Result<Option<Outcome>, Memory> {
    if word == "unanswered" {
        return Ok(None);
    }
    match Txt::new(alloc, word) {
        Ok(word) => Ok(Some(Outcome::Failure(word))),
        Err(_) => Err(Memory),
    }
}

// A turn whose call fails, or isn't answered.
fn turned(
    alloc: Global,
    program: &Checked,
    state: &mut State,
    id: &str,
    word: &str,
) -> Result<String, Memory>
    requires { IsValid (language_of program.now) (state_of state.old) }
    ensures { IsValid (language_of program.now) (state_of state.new) }
{
    let answer = failure_of(alloc, word)?;
    let event = turn(alloc, id)?;
    let out = happen(alloc, program, state, event, answer)?;
    out_words(alloc, out)
}

/// The history alone is kept. It is valid for any program.
pub fn restart(alloc: Global, state: &mut State)
    requires formed { IsFormed (state_of state.old).history }
    requires begins { (state_of state.old).history ≢ [] }
    ensures { (language : Language) → IsValid language (state_of state.new) }
{
    state.restart(alloc);
}

// A restart: each running workflow is recovered, in their order.
fn restarted(alloc: Global, program: &Checked, state: &mut State) -> Result<String, Memory>
    requires { IsValid (language_of program.now) (state_of state.old) }
    ensures { IsValid (language_of program.now) (state_of state.new) }
{
    restart(alloc, state);
    let ids = pending(alloc, state)?;
    let mut words = String::new(alloc);
    'ids: for id in ids.as_slice() {
        let event = recovery(alloc, id.as_str())?;
        let reply = told(alloc, program, state, event)?;
        let reply = format!(in alloc; " {} {}", id.as_str(), reply.as_str())?;
        words.push_str(reply.as_str())?;
    }
    Ok(words)
}

// So many recoveries of a workflow: the reply to the last one.
fn recovered(
    alloc: Global,
    program: &Checked,
    state: &mut State,
    id: &str,
    count: &str,
) -> Result<String, Memory>
    requires { IsValid (language_of program.now) (state_of state.old) }
    ensures { IsValid (language_of program.now) (state_of state.new) }
{
    let count = count.parse::<u32>().unwrap_or(0);
    let mut words = String::new(alloc);
    'recoveries: for _ in 0..count {
        let event = recovery(alloc, id)?;
        words = told(alloc, program, state, event)?;
    }
    Ok(words)
}

fn entry(alloc: Global, state: &State, number: &str) -> Result<String, Memory> {
    let number = number.parse::<usize>().unwrap_or(0);
    let history = state.history();
    if number == 0 || number > history.len() {
        return words_of(alloc, "no such entry");
    }
    entry_words(alloc, &history[number - 1])
}

fn running(alloc: Global, state: &State) -> Result<String, Memory>
    requires { IsFormed (state_of state.now).history }
{
    let ids = pending(alloc, state)?;
    names_words(alloc, &ids)
}

fn event_by(
    alloc: Global,
    program: &Checked,
    state: &mut State,
    words: &[&str],
) -> Result<String, Memory>
    requires { IsValid (language_of program.now) (state_of state.old) }
    ensures { IsValid (language_of program.now) (state_of state.new) }
{
    match event_of(alloc, words)? {
        None => words_of(alloc, "no such step"),
        Some(event) => told(alloc, program, state, event),
    }
}

fn done(
    alloc: Global,
    program: &Checked,
    state: &mut State,
    words: &[&str],
) -> Result<String, Memory>
    requires { IsValid (language_of program.now) (state_of state.old) }
    ensures { IsValid (language_of program.now) (state_of state.new) }
{
    match words {
        ["turn", id, word] => turned(alloc, program, state, id, word),
        ["drain", turns] => drained(alloc, program, state, turns.parse::<u32>().unwrap_or(0)),
        ["restart"] => restarted(alloc, program, state),
        ["recoveries", id, count] => recovered(alloc, program, state, id, count),
        ["entry", number] => entry(alloc, state, number),
        ["pending"] => running(alloc, state),
        ["len"] => Ok(format!(in alloc; "{}", state.history().len())?),
        _ => event_by(alloc, program, state, words),
    }
}

/// Does a step, and tells what it is answered.
pub fn done_by(
    alloc: Global,
    program: &Checked,
    state: &mut State,
    text: &str,
) -> Result<String, Memory>
    requires { IsValid (language_of program.now) (state_of state.old) }
    ensures { IsValid (language_of program.now) (state_of state.new) }
{
    let mut words = Vec::new(alloc);
    for word in text.split(' ') {
        words.push(word)?;
    }
    done(alloc, program, state, &words)
}
