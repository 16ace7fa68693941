//! What an event comes to.

ghost use Rattle.std.specs.Prelude.{◌≡◌, []};
ghost use Rattle.r3_plain.specs.Words.{given_of, calls_of};

use crate::reply::{Call, Reply};
use r3_entry::Entry;

/// What an event comes to, before it is looked whether there is room.
#[derive(Drop)]
pub enum Given {
    /// The entry is to be appended, with this reply once it stands.
    Enters { entry: Entry, reply: Reply },
    /// Nothing is appended.
    Answers(Reply),
}

/// What an event comes to, with the external call that it made.
#[derive(Drop)]
pub struct Turned {
    pub given: Given,
    pub call: Option<Call>,
}

/// No call is made.
pub fn quiet(given: Given) -> Turned
    ensures given { given_of result.given ≡ given_of given }
    ensures call { calls_of result.call ≡ [] }
{
    Turned { given, call: None }
}
