//! What a pinned snapshot reads while versions are discarded.

use super::commits::{commit_row, open_held, row_entry};
use super::{LOAD, PROGRAM, desk_over, image_of};
use crate::Store;
use r3_rows::{Cell, Key};
use r3_value::{Txt, Val};
use std::alloc::Global;
use std::test::Fail;

// The number under row a, with its version.
fn row_a(alloc: Global, store: &Store, index: u32) -> Result<(Option<i64>, u32), Fail> {
    let key = Key::User {
        table: Txt::new(alloc, "acct")?,
        key: Txt::new(alloc, "a")?,
    };
    let value = match store.read_at(&key, index) {
        Some(Cell::Row(Val::Int(value))) => Some(*value),
        _ => None,
    };
    Ok((value, store.version_at(&key, index)))
}

#[test]
fn a_pinned_snapshot_is_read_after_a_vacuum(rt: HostRuntime) -> Result<(), Fail> {
    let alloc = rt.alloc();
    let mut desk = desk_over(alloc, image_of(alloc, &[PROGRAM, LOAD], &[], 0)?)?;
    let (mut store, held) = open_held(alloc, &mut desk)?;
    let a = row_entry(alloc, "00000002", "61", "0000000000000014")?;
    assert!(rt; commit_row(alloc, &mut desk, &mut store, held, a)? == Ok(3));
    store.vacuum();
    assert!(rt; row_a(alloc, &store, 2)? == (Some(10), 2));
    assert!(rt; row_a(alloc, &store, 3)? == (Some(20), 3));
    store.release(held);
    store.vacuum();
    assert!(rt; row_a(alloc, &store, 3)? == (Some(20), 3));
    Ok(())
}
