//! The answers of the outside.

ghost use Rattle.std.specs.Prelude.{◌≡◌, IfOk};
ghost use Rattle.r3_entry.specs.Limits.{IfThere, IsOutcome};
ghost use Rattle.r3_model.specs.Machine as machine;

use crate::turned::copy_answer;
use r3_value::{Memory, Outcome};

/// The first answer. Where there is none, asking fails.
pub fn first_of(answers: &[Option<Outcome>]) -> Result<Option<Outcome>, Memory>
    ensures { IfOk result (λ a. a ≡ machine.first_of answers.now) }
{
    match answers.first() {
        None => Ok(None),
        Some(answer) => copy_answer(answer),
    }
}

// An outcome keeps the limits of values.
fn is_outcome(outcome: &Outcome)
    ensures { IsOutcome outcome.now }
{
    match outcome {
        Outcome::Value(value) => {
            value.weight();
        }
        Outcome::Failure(word) => {
            word.as_str();
        }
    }
}

/// An answer keeps the limits of values.
pub fn is_answer(answer: &Option<Outcome>)
    ensures { IfThere IsOutcome answer.now }
{
    match answer {
        None => {}
        Some(outcome) => is_outcome(outcome),
    }
}
