//! What a workflow that awaits another finds.

ghost use Rattle.std.specs.Prelude.{◌≡◌, ◌≤◌, IfOk, length};
ghost use Rattle.std.specs.Option.{option_copied};
ghost use Rattle.r3_value.specs.declared.value.Outcome.TheVariants as outcomes;
ghost use Rattle.sys_flow.specs.Awaits as rule;

use r3_rows::{FlowRow, Status};
use r3_value::{Memory, Outcome, Txt, Val};
use std::alloc::Global;

/// What an await finds.
#[derive(Debug, Drop)]
pub enum Awaited {
    /// The workflow hasn't ended: the step isn't taken yet.
    Waiting,
    /// The outcome of the step.
    Answer(Outcome),
}

/// What an await of a workflow finds whose row is given. The workflow's own outcome is answered where it
/// ended with one; a cancelled one, one that was recovered too often and an unknown ID are failures.
pub fn awaited_of(alloc: Global, row: Option<&FlowRow>) -> Result<Awaited, Memory>
    ensures { IfOk result (λ a. a ≡ rule.awaited_of (option_copied row.entry)) }
{
    match row {
        None => failure(alloc, "unknown_id"),
        Some(row) => match row.status {
            Status::Enqueued | Status::Pending => Ok(Awaited::Waiting),
            Status::Success | Status::Error => outcome_of(row),
            Status::Cancelled => failure(alloc, "cancelled"),
            Status::MaxRecoveryAttemptsExceeded => failure(alloc, "attempts"),
        },
    }
}

fn failure(alloc: Global, word: &str) -> Result<Awaited, Memory>
    requires { length word.now ≤ 4091 }
    ensures { IfOk result (λ a. a ≡ Awaited.Answer (outcomes.Failure word.now)) }
{
    match Txt::new(alloc, word) {
        Ok(word) => Ok(Awaited::Answer(Outcome::Failure(word))),
        Err(_) => Err(Memory),
    }
}

// A workflow that ended has an outcome.
fn outcome_of(row: &FlowRow) -> Result<Awaited, Memory>
    ensures { IfOk result (λ a. a ≡ Awaited.Answer (rule.outcome_of row.now)) }
{
    match &row.outcome {
        Some(outcome) => Ok(Awaited::Answer(outcome.copy()?)),
        None => Ok(Awaited::Answer(Outcome::Value(Val::Null))),
    }
}
