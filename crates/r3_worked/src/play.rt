//! A case: steps on the state that a program begins, each beside what it is answered.

ghost use Rattle.std.specs.Prelude.{◌≢◌, [], IfOk};
ghost use Rattle.r3_entry.specs.Formed.{IsFormed};
ghost use Rattle.r3_model.specs.Functions.{language_of};
ghost use Rattle.r3_model.specs.Valid.{IsValid};
ghost use Rattle.r3_plain.specs.Words.{state_of};

use crate::bank::program_of;
use crate::begin::begun;
use crate::steps::{done_by, restart};
use fn_tree::checked::Checked;
use r3_plain::State;
use r3_value::Memory;
use std::alloc::Global;
use std::process::Abort;
use std::test::Fail;

/// The accounts a, b and c hold 10, 5 and 0.
pub const LOAD: (&str, &str) = ("load acct", "entry 2");

fn play(
    rt: &impl Abort,
    alloc: Global,
    program: &Checked,
    state: &mut State,
    steps: &[(&str, &str)],
) -> Result<(), Memory>
    requires { IsValid (language_of program.now) (state_of state.old) }
    ensures { IsValid (language_of program.now) (state_of state.new) }
{
    'steps: for (text, want) in steps {
        let got = done_by(alloc, program, state, text)?;
        assert_eq!(rt; got.as_str(), *want, "{text}");
    }
    Ok(())
}

// The state that a program begins, once these steps are done.
fn played_from(
    rt: &impl Abort,
    alloc: Global,
    program: &Checked,
    text: &str,
    steps: &[(&str, &str)],
) -> Result<State, Memory>
    ensures { IfOk result (λ state. IsValid (language_of program.now) (state_of state)) }
{
    let mut state = begun(alloc, program, text)?;
    play(rt, alloc, program, &mut state, steps)?;
    Ok(state)
}

/// Plays a case with the functions of a text: each step is answered as it stands beside it.
pub fn played(
    rt: &impl Abort,
    alloc: Global,
    text: &str,
    steps: &[(&str, &str)],
) -> Result<(), Fail> {
    let program = program_of(alloc, text)?;
    played_from(rt, alloc, &program, text, steps)?;
    Ok(())
}

// Goes on with other functions, after a restart.
fn retold(
    rt: &impl Abort,
    alloc: Global,
    program: &Checked,
    state: State,
    steps: &[(&str, &str)],
) -> Result<(), Memory>
    requires formed { IsFormed (state_of state).history }
    requires begins { (state_of state).history ≢ [] }
{
    let mut state = state;
    restart(alloc, &mut state);
    play(rt, alloc, program, &mut state, steps)
}

/// Plays a case with the functions of a text, and goes on with those of another.
pub fn played_again(
    rt: &impl Abort,
    alloc: Global,
    text: &str,
    steps: &[(&str, &str)],
    other: &str,
    later: &[(&str, &str)],
) -> Result<(), Fail> {
    let program = program_of(alloc, text)?;
    let state = played_from(rt, alloc, &program, text, steps)?;
    let program = program_of(alloc, other)?;
    retold(rt, alloc, &program, state, later)?;
    Ok(())
}
