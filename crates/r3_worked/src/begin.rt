//! The state that a program begins.

ghost use Rattle.std.specs.Prelude.{◌≤◌, length, IfOk};
ghost use Rattle.r3_model.specs.Functions.{language_of};
ghost use Rattle.r3_model.specs.Valid.{IsValid};
ghost use Rattle.r3_plain.specs.Words.{state_of};

use fn_tree::checked::Checked;
use r3_entry::ProgramText;
use r3_laws::{keeps_valid, programs_are_lawful, programs_are_limited};
use r3_plain::{Event, Out, State, step};
use r3_value::Memory;
use std::alloc::Global;

fn let_go(out: Out) {
    let _out = out;
}

// The state once a program is appended to the empty one.
fn begin(alloc: Global, program: &Checked, text: ProgramText) -> Result<State, Memory>
    requires short { length text ≤ 1048576 }
    ensures valid { IfOk result (λ st. IsValid (language_of program.now) (state_of st)) }
{
    keeps_valid();
    programs_are_lawful();
    programs_are_limited();
    program.holds_values();
    program.program();
    // It tells that the text is UTF-8.
    let _text = text.as_str();
    let mut state = State::new(alloc);
    let event = Event::Append { text };
    match step(alloc, program, &mut state, &event, &[]) {
        Ok(out) => {
            let_go(out);
            Ok(state)
        }
        Err(fault) => Err(fault),
    }
}

/// The state that the program of a text of at most 2^20 bytes begins.
pub fn begun(alloc: Global, program: &Checked, text: &str) -> Result<State, Memory>
    ensures { IfOk result (λ st. IsValid (language_of program.now) (state_of st)) }
{
    if text.len() > 1_048_576 {
        return Err(Memory);
    }
    let text = ProgramText::from_string(String::from_str(alloc, text)?);
    begin(alloc, program, text)
}
