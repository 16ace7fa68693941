//! An ID that is used again.

ghost use Rattle.std.specs.Prelude.{◌≡◌};
ghost use Rattle.std.specs.Option.{option_copied};
ghost use Rattle.sys_flow.specs.Repeats as rule;

use r3_rows::FlowRow;

/// What a new ID meets.
#[derive(Clone, Copy, Debug, PartialEq, Eq)]
pub enum Repeat {
    /// No workflow has it.
    Fresh,
    /// A workflow of the same function has it, which the entry of that number started.
    Known { started: u32 },
    /// A workflow of another function has it.
    Conflict,
}

/// What an ID meets whose row is given, where a workflow of this function is to start. Neither the
/// arguments nor the queue are compared.
pub fn repeat_of(row: Option<&FlowRow>, function: &str) -> Repeat
    ensures { result ≡ rule.repeat_of (option_copied row.entry) function.now }
{
    match row {
        None => Repeat::Fresh,
        Some(row) => {
            if row.function.as_str() == function {
                Repeat::Known {
                    started: row.started,
                }
            } else {
                Repeat::Conflict
            }
        }
    }
}
