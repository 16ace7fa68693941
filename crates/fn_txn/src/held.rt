//! A row of a map in memory.

use r3_value::{Txt, Val};

/// A key of a table with its value, or None where it was deleted, and its version.
#[derive(Drop)]
pub struct Held {
    pub table: Txt,
    pub key: Txt,
    pub value: Option<Val>,
    pub version: u32,
}
