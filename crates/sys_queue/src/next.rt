//! What a queue answers.

use r3_value::Txt;

/// What a queue starts next.
#[derive(Debug, Drop)]
pub enum Next<'a> {
    /// This workflow: of those that wait the first started.
    Ready { id: &'a Txt },
    /// Nobody waits.
    Empty,
    /// So many run already: the bound or more.
    Limit { running: u32 },
}
