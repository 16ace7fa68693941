//! Stores whose bytes were written by hand: a full one, one with other steps, one of another program.

use crate::answers::asked_words;
use crate::bank::BANK;
use crate::play::{desk_over, played, taken_up};
use r3_recover::StartFault;
use std::alloc::Global;
use std::test::Fail;

// Two workflows: one ends at once, and one calls a transaction.
const SHORT: &str =
    "queue line 5; txn a() {} flow f() { return 1; } flow g() { let r = call a(); return r; }";

fn put_record(image: &mut Vec<u8>, payload: &[u8]) -> Result<(), Fail> {
    let len = u32::try_from(payload.len()).unwrap_or(u32::MAX);
    image.push(0xa5)?;
    image.extend_from_slice(&len.to_be_bytes())?;
    image.extend_from_slice(payload)?;
    Ok(())
}

// A store with the program, these entries, and so many loads of no rows.
fn image_of(alloc: Global, text: &str, entries: &[&[u8]], loads: u32) -> Result<Vec<u8>, Fail> {
    let mut image = b"R3STORE1".to_vec(alloc)?;
    let len = u32::try_from(text.len()).unwrap_or(u32::MAX);
    let mut program = [1u8].to_vec(alloc)?;
    program.extend_from_slice(&len.to_be_bytes())?;
    program.extend_from_slice(text.as_bytes())?;
    program.extend_from_slice(&[0; 12])?;
    put_record(&mut image, &program)?;
    for entry in entries {
        put_record(&mut image, entry)?;
    }
    let mut load = [2u8].to_vec(alloc)?;
    load.extend_from_slice(&[0; 12])?;
    for _ in 0..loads {
        put_record(&mut image, &load)?;
    }
    image.push(0)?;
    Ok(image)
}

// Act 03 starts s1 on the snapshot of 1; its Flow row is PENDING under g, without arguments.
const STARTED: &[u8] =
    b"\x03\0\0\0\x02s1\0\0\0\x01\0\0\0\0\0\0\0\x01\x01\0\0\0\x02s1\x01\x01\x01\0\0\0\x01g\x04\0\0\0\0\0\0\0\0\0\x02\0\0\0\0\0";

// Act 02 on the snapshot of 2: step 0 of s1 was the transaction b, which returned null.
const STEPPED: &[u8] =
    b"\x02\0\0\0\x02\0\0\0\0\0\0\0\x01\x02\0\0\0\x02s1\0\0\0\0\x01\x02\0\0\0\x01b\0\0\0";

#[test]
fn the_last_entry_is_number_1_000_000(rt: HostRuntime) -> Result<(), Fail> {
    let alloc = rt.alloc();
    let image = image_of(alloc, SHORT, &[], 999_997)?;
    let steps = [
        ("len", "999998"),
        ("enqueue q1 line f", "entry 999999 q1"),
        ("start f1 f", "entry 1000000 f1"),
        ("turn f1", "full entries"),
        ("dequeue line", "full entries"),
        ("start f2 f", "full entries"),
        ("start f1 f", "entry 1000000 f1"),
        ("start f1 h", "refused unknown_function"),
        ("drain 4", "idle 2"),
        ("len", "1000000"),
    ];
    played(&rt, alloc, &image, SHORT, &steps)?;
    Ok(())
}

// One workflow calls a transaction, and one the outside.
const CALLS: &str =
    "outside tell(n); txn a() {} flow g() { let r = call a(); return r; } flow t() { let r = call tell(1); return r; }";

// A turn whose entry has no room leaves the snapshot open, and an external call that was made is made again. Taken up
// again, what runs isn't recovered.
#[test]
fn a_turn_without_room_leaves_all_as_it_was(rt: HostRuntime) -> Result<(), Fail> {
    let alloc = rt.alloc();
    let image = image_of(alloc, CALLS, &[], 999_995)?;
    let steps = [
        ("len", "999996"),
        ("start g1 g", "entry 999997 g1"),
        ("start t1 t", "entry 999998 t1"),
        ("turn g1", "began 999998"),
        ("start g2 g", "entry 999999 g2"),
        ("start g3 g", "entry 1000000 g3"),
        ("turn g1", "full entries"),
        ("turn g1", "full entries"),
        ("turn t1", "full entries"),
        ("turn t1", "full entries"),
    ];
    let desk = played(&rt, alloc, &image, CALLS, &steps)?;
    let asked = asked_words(alloc, &desk)?;
    assert_eq!(rt;
        asked.as_str(),
        "t1 0 tell 1: value null; t1 0 tell 1: value null; "
    );
    let steps = [
        ("len", "1000000"),
        (
            "status g1",
            "PENDING g; none; queue none; started 999997; attempts 0; parent none",
        ),
        ("turn g1", "began 1000000"),
        ("turn g1", "full entries"),
    ];
    played(&rt, alloc, desk.image(), CALLS, &steps)?;
    Ok(())
}

#[test]
fn a_step_of_another_name_is_unexpected(rt: HostRuntime) -> Result<(), Fail> {
    let alloc = rt.alloc();
    let image = image_of(alloc, SHORT, &[STARTED, STEPPED], 0)?;
    // entry 4 is the recovery of the opening
    let steps = [
        ("len", "4"),
        ("turn s1", "unexpected 0 recorded b asked a"),
        ("len", "4"),
    ];
    played(&rt, alloc, &image, SHORT, &steps)?;
    Ok(())
}

#[test]
fn a_store_of_another_program_is_refused(rt: HostRuntime) -> Result<(), Fail> {
    let alloc = rt.alloc();
    let image = image_of(alloc, SHORT, &[], 0)?;
    let mut desk = desk_over(alloc, &image, 0)?;
    assert!(rt; matches!(taken_up(alloc, &mut desk, BANK), Err(StartFault::Other)));
    let mut desk = desk_over(alloc, b"no such store", 0)?;
    assert!(rt; matches!(taken_up(alloc, &mut desk, BANK), Err(StartFault::Store(_))));
    Ok(())
}
