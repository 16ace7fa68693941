//! One step.

ghost use Rattle.std.specs.Prelude.{◌≡◌, ◌+◌, List, Option, length, IfOk, OnErr};
ghost use Rattle.r3_value.specs.declared.value.Outcome.{Outcome as O};
ghost use Rattle.r3_entry.specs.declared.entry.Entry.{Entry as E};
ghost use Rattle.r3_entry.specs.Formed.{IsFormed};
ghost use Rattle.r3_model.specs.Acts as acts;
ghost use Rattle.r3_model.specs.Event as machine_event;
ghost use Rattle.r3_model.specs.Fits.{Fits};
ghost use Rattle.r3_model.specs.Functions.{language_of};
ghost use Rattle.r3_model.specs.Given.{Enters};
ghost use Rattle.r3_model.specs.Machine as machine;
ghost use Rattle.r3_model.specs.Valid.{AreOpen, IsValid};
ghost use Rattle.r3_plain.specs.Comes.{Happens};
ghost use Rattle.r3_plain.specs.Done.{IsDone, IsOther, got_of};
ghost use Rattle.r3_plain.specs.Kept.{Stands};
ghost use Rattle.r3_plain.specs.Words.{event_of, given_of, out_of, state_of};

use crate::answers::{first_of, is_answer};
use crate::came::came;
use crate::commands::{commanded, next};
use crate::dequeues::dequeued;
use crate::event::Event;
use crate::given::{Given, Turned, quiet};
use crate::looks::{got, shown};
use crate::past::Kept;
use crate::reply::{Call, Out, Reply};
use crate::state::State;
use crate::turn::turn_of;
use fn_tree::checked::Checked;
use r3_acts::program_entry;
use r3_entry::ProgramText;
use r3_laws::{
    enters_what_follows, keeps_open, keeps_valid, programs_are_lawful, programs_are_limited,
};
use r3_past::Past;
use r3_value::{Memory, Outcome};
use std::alloc::Global;
use sys_flow::Text;

// The text of a program is appended.
fn appended(alloc: Global, past: &Kept<'_>, text: &ProgramText) -> Result<Given, Memory>
    requires stands { (h : List E) × Stands past.now h }
    ensures { IfOk result (λ g. (h : List E) → Stands past.now h →
        given_of g ≡ Enters (acts.program_entry h text.now) (machine_event.Entry (length h + 1))) }
{
    let text = text.copy()?;
    let entry = program_entry(alloc, past.count(), text);
    Ok(Given::Enters {
        entry,
        reply: Reply::Entry { number: next(past) },
    })
}

// A user's row is looked at.
fn got_by(
    alloc: Global,
    program: &Checked,
    past: &Kept<'_>,
    table: &Text,
    key: &Text,
) -> Result<Given, Memory>
    requires stands { (h : List E) × Stands past.now h }
    ensures { IfOk result (λ g. (h : List E) → Stands past.now h → given_of g ≡ got_of (language_of program.now) h table.now key.now) }
{
    let given = got(alloc, program, past, table.as_str(), key.as_str())?;
    Ok(given)
}

// What an event but a turn comes to.
fn done(alloc: Global, program: &Checked, past: &Kept<'_>, event: &Event) -> Result<Given, Memory>
    requires stands { (h : List E) × Stands past.now h }
    ensures { IfOk result (λ g. (h : List E) → Stands past.now h → IsDone (language_of program.now) h event.now g) }
{
    match event {
        Event::Append { text } => appended(alloc, past, text),
        Event::Run(command) => commanded(alloc, program, past, command),
        Event::Dequeue { queue } => dequeued(alloc, program, past, queue.as_str()),
        Event::ShowStatus { id } => shown(alloc, past, id.as_str()),
        Event::GetRow { table, key } => got_by(alloc, program, past, table, key),
        Event::Turn { .. } => Ok(Given::Answers(Reply::Nil)),
        Event::Nothing => Ok(Given::Answers(Reply::Nil)),
    }
}

// What an event but a turn comes to in this state. It makes no call.
fn happens(alloc: Global, program: &Checked, state: &State, event: &Event) -> Result<Turned, Memory>
    requires formed { IsFormed (state_of state.now).history }
    ensures { IfOk result (λ t. IsOther event.now → (answer : Option O) → Happens (language_of program.now) (state_of state.now) (event_of event.now) answer t) }
{
    let past = Kept::of(state.history.as_slice());
    let given = done(alloc, program, &past, event)?;
    Ok(quiet(given))
}

// What an event comes to.
fn what_comes(
    alloc: Global,
    program: &Checked,
    state: &State,
    event: &Event,
    answer: &Option<Outcome>,
) -> Result<Turned, Memory>
    requires formed { IsFormed (state_of state.now).history }
    requires snapshots { AreOpen (language_of program.now) (state_of state.now) }
    ensures { IfOk result (Happens (language_of program.now) (state_of state.now) (event_of event.now) answer.now) }
{
    match event {
        Event::Turn { id } => turn_of(alloc, program, state, id.as_str(), answer),
        _ => happens(alloc, program, state, event),
    }
}

fn let_go(call: Option<Call>) {
    let _call = call;
}

// What it comes to is done.
fn stepped(
    alloc: Global,
    program: &Checked,
    state: &mut State,
    event: &Event,
    answer: &Option<Outcome>,
) -> Result<Out, Memory>
    requires formed { IsFormed (state_of state.old).history }
    requires snapshots { AreOpen (language_of program.now) (state_of state.old) }
    requires fits { Fits (state_of state.old).history (event_of event.now) }
    ensures step { IfOk result (λ out. machine.stepped (language_of program.now) (state_of state.old) (event_of event.now) answer.now ≡ out_of state.new out) }
    ensures err { OnErr result (state_of state.new ≡ state_of state.old) }
{
    is_answer(answer);
    programs_are_lawful();
    programs_are_limited();
    enters_what_follows();
    program.holds_values();
    program.program();
    let Turned { given, call } = what_comes(alloc, program, state, event, answer)?;
    match came(alloc, state, event, given) {
        Ok(reply) => Ok(Out { reply, call }),
        Err(_) => {
            let_go(call);
            Err(Memory)
        }
    }
}

/// One event, with the answers of the outside: an external call takes the first one, and fails where there is none
/// or where it is None.
///
/// A program fits an empty history alone, and commands keep the limits of their lines. Where there is no memory
/// nothing has happened.
pub fn step(
    alloc: Global,
    program: &Checked,
    state: &mut State,
    event: &Event,
    answers: &[Option<Outcome>],
) -> Result<Out, Memory>
    requires formed { IsFormed (state_of state.old).history }
    requires snapshots { AreOpen (language_of program.now) (state_of state.old) }
    requires fits { Fits (state_of state.old).history (event_of event.now) }
    ensures step { IfOk result (λ out. machine.step (language_of program.now) (state_of state.old) (event_of event.now) answers.now ≡ out_of state.new out) }
    ensures formed { IsFormed (state_of state.new).history }
    ensures snapshots { AreOpen (language_of program.now) (state_of state.new) }
    ensures valid { IsValid (language_of program.now) (state_of state.old) → IsValid (language_of program.now) (state_of state.new) }
    ensures memory { OnErr result (state_of state.new ≡ state_of state.old) }
{
    keeps_open();
    keeps_valid();
    let answer = first_of(answers)?;
    is_answer(&answer);
    programs_are_lawful();
    programs_are_limited();
    program.holds_values();
    program.program();
    match stepped(alloc, program, state, event, &answer) {
        Ok(out) => Ok(out),
        Err(fault) => Err(fault),
    }
}
