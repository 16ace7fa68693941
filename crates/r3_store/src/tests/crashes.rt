//! What a crash leaves of commits and their flush.

use super::commits::{commit_row, open_held, row_entry};
use super::{LOAD, PROGRAM, desk_over, image_of, opened};
use r3_desk::{Desk, MemDesk, Torn};
use std::alloc::Global;
use std::test::Fail;

// The number of entries in what a crash leaves after so many device calls.
fn opened_after(alloc: Global, desk: &MemDesk, moment: u64, torn: Torn) -> Result<u32, Fail> {
    if moment > desk.moment() {
        return Err(Fail::from("no such moment"));
    }
    let image = desk.crash(moment, torn)?;
    let count = opened(alloc, image)??;
    Ok(count)
}

#[test]
fn a_crash_forgets_what_was_not_flushed(rt: HostRuntime) -> Result<(), Fail> {
    let alloc = rt.alloc();
    let mut desk = desk_over(alloc, image_of(alloc, &[PROGRAM, LOAD], &[], 0)?)?;
    let (mut store, held) = open_held(alloc, &mut desk)?;
    let a = row_entry(alloc, "00000002", "61", "0000000000000014")?;
    assert!(rt; commit_row(alloc, &mut desk, &mut store, held, a)? == Ok(3));
    let b = row_entry(alloc, "00000002", "62", "0000000000000014")?;
    assert!(rt; commit_row(alloc, &mut desk, &mut store, held, b)? == Ok(4));
    let staged = desk.moment();
    store.settle(&mut desk)?;
    assert!(rt; staged < desk.moment());
    for moment in 0..=desk.moment() {
        for torn in [Torn::Old, Torn::New, Torn::Fill(0x37), Torn::Fill(0xa5)] {
            let count = opened_after(alloc, &desk, moment, torn)?;
            assert!(rt; count == 2 || count == 4, "{torn:?} after {moment} calls");
            assert!(rt;
                count == 2 || staged < moment,
                "{torn:?} after {moment} calls"
            );
            assert!(rt; count == 4 || moment < desk.moment(), "{torn:?} at the end");
        }
    }
    Ok(())
}
