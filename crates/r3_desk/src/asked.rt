//! An external call that was recorded.

use r3_value::{Outcome, Val};

/// An external call: the ID of the workflow, the step's number, the function's name, its arguments, and the
/// answer, or None where the call failed.
#[derive(Drop)]
pub struct Asked {
    pub id: String,
    pub n: u32,
    pub name: String,
    pub args: Val,
    pub answer: Option<Outcome>,
}
