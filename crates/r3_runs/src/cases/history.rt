//! The history of a store's file, in words.

use super::desk_over;
use r3_entry::Act;
use r3_store::Store;
use std::alloc::Global;
use std::test::Fail;

fn word_of(act: &Act) -> &'static str {
    match act {
        Act::Program { .. } => "program",
        Act::Load => "load",
        Act::Start { .. } => "start",
        Act::Enqueue { .. } => "enqueue",
        Act::Dequeue { .. } => "dequeue",
        Act::Txn { .. } => "txn",
        Act::Outside { .. } => "outside",
        Act::Child { .. } => "child",
        Act::Await { .. } => "await",
        Act::Finish { .. } => "finish",
        Act::Cancel { .. } => "cancel",
        Act::Resume { .. } => "resume",
        Act::Fork { .. } => "fork",
        Act::Recover { .. } => "recover",
    }
}

// What each entry did, with a blank behind each word.
pub fn acts_of(alloc: Global, image: &[u8]) -> Result<String, Fail> {
    let mut desk = desk_over(alloc, image, 0)?;
    let entries = Store::history(alloc, &mut desk)?;
    let mut words = String::new(alloc);
    for entry in entries.iter() {
        words.push_str(word_of(&entry.act))?;
        words.push_str(" ")?;
    }
    Ok(words)
}
