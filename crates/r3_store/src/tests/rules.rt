//! Files whose records are whole, and whose last entry breaks a rule of formed histories.

use super::{LOAD, PROGRAM, image_of, opened, payload_of, put_digits};
use crate::OpenFault;
use std::alloc::Global;
use std::test::Fail;

// Step 0 of s1, at snapshot 2, before its reads and writes.
const STEP: &str = "06 00000002 7331 00000000 04 00000000 00000002";

// One look at row a of acct, before its version.
const LOOK: &str = "00 00000004 61636374 00000001 61";

// A row of s1, a workflow `pay` that is enqueued and has no queue.
const QUEUED: &str =
    "01 00000002 7331 01 01 00 00000003 706179 04 00000000 00 00 00000002 00000000 00";

// Step 0 of s1, which called `pay`.
const PAID: &str = "02 00000002 7331 00000000 01 02 00000003 706179 00 00 00";

// So many rows of acct are deleted, under keys of two bytes.
fn rows_of(alloc: Global, count: u32) -> Result<Vec<u8>, Fail> {
    let mut payload = payload_of(alloc, &["02 00000001 00000000"])?;
    payload.extend_from_slice(&count.to_be_bytes())?;
    for n in 0..count {
        put_digits(&mut payload, "00 00000004 61636374 00000002")?;
        payload.push((n / 100 % 128) as u8)?;
        payload.push((n % 100) as u8)?;
        payload.push(0)?;
    }
    Ok(payload)
}

// So many looks at one row.
fn looks_of(alloc: Global, count: u32) -> Result<Vec<u8>, Fail> {
    let mut payload = payload_of(alloc, &[STEP])?;
    payload.extend_from_slice(&count.to_be_bytes())?;
    for _ in 0..count {
        put_digits(&mut payload, LOOK)?;
        payload.extend_from_slice(&2u32.to_be_bytes())?;
    }
    put_digits(&mut payload, "00000000")?;
    Ok(payload)
}

// What opening answers to the entries before, and one of this payload behind them.
fn opened_with(
    alloc: Global,
    before: &[&str],
    payload: &[u8],
) -> Result<Result<u32, OpenFault>, Fail> {
    opened(alloc, image_of(alloc, before, payload, 1)?)
}

#[test]
fn a_broken_rule_is_named_by_its_entry(rt: HostRuntime) -> Result<(), Fail> {
    let alloc = rt.alloc();
    // what is wrong, the entries before, the pieces of one more, its number
    let cases: [(&str, &[&str], &[&str], u32); 8] = [
        (
            "no program first",
            &[],
            &["02 00000000 00000000 00000000"],
            1,
        ),
        ("a second program", &[PROGRAM], &[PROGRAM], 2),
        (
            "a snapshot ahead",
            &[PROGRAM],
            &["02 00000002 00000000 00000000"],
            2,
        ),
        (
            "a look at another version",
            &[PROGRAM, LOAD],
            &[STEP, "00000001", LOOK, "00000001 00000000"],
            3,
        ),
        ("a key written since", &[PROGRAM, LOAD], &[LOAD], 3),
        (
            "a workflow deleted",
            &[PROGRAM],
            &["02 00000001 00000000 00000001 01 00000002 7331 00"],
            2,
        ),
        (
            "a step without its workflow",
            &[PROGRAM],
            &["02 00000001 00000000 00000001", PAID],
            2,
        ),
        (
            "an enqueued workflow without a queue",
            &[PROGRAM],
            &["02 00000001 00000000 00000001", QUEUED],
            2,
        ),
    ];
    for (what, before, pieces, entry) in cases {
        let payload = payload_of(alloc, pieces)?;
        let got = opened_with(alloc, before, &payload)?;
        assert!(rt; got == Err(OpenFault::NotFormed { entry }), "{what}");
    }
    Ok(())
}

#[test]
fn too_many_rows_or_looks_are_named_by_their_entry(rt: HostRuntime) -> Result<(), Fail> {
    let alloc = rt.alloc();
    let before = [PROGRAM, LOAD];
    let fault = Err(OpenFault::NotFormed { entry: 3 });
    assert!(rt; opened_with(alloc, &before, &rows_of(alloc, 1024)?)? == Ok(3));
    assert!(rt; opened_with(alloc, &before, &rows_of(alloc, 1025)?)? == fault);
    assert!(rt; opened_with(alloc, &before, &looks_of(alloc, 4096)?)? == Ok(3));
    assert!(rt; opened_with(alloc, &before, &looks_of(alloc, 4097)?)? == fault);
    Ok(())
}
