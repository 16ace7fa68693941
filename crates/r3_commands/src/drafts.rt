//! What a command comes to.

use r3_entry::Entry;
use r3_value::Txt;
use sys_flow::Refusal;

/// What a command comes to, before anything is appended.
#[derive(Debug, Drop)]
pub enum Draft {
    /// The entry is to be appended. Where it starts a workflow, the ID of that.
    Enters { entry: Entry, id: Option<Txt> },
    /// The entry of this number started the workflow before, and nothing is appended.
    Known { number: u32, id: Txt },
    /// The command is refused.
    Refused(Refusal),
}
