//! What a transaction's body gives.

use r3_value::{Outcome, Txt, Val};
use sqlite_items::Items;

/// What a body read: a key with its version, or a range with the keys that it found and their
/// versions. A version is the number of the last entry that wrote the key, a deletion counting, or 0.
#[derive(Drop)]
pub enum Look {
    At {
        table: Txt,
        key: Txt,
        version: u32,
    },
    Range {
        table: Txt,
        lo: Txt,
        hi: Txt,
        keys: Items<(Txt, u32)>,
    },
}

/// What a transaction's body gives: its looks in order of the first, and its writes in rising order
/// of table and key, where None is a deletion. A failed body has no writes, and its looks stay.
#[derive(Drop)]
pub struct TxnRun {
    pub outcome: Outcome,
    pub reads: Items<Look>,
    pub writes: Items<(Txt, Txt, Option<Val>)>,
}
