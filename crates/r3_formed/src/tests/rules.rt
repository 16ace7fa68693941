//! Each rule of formed histories, broken and kept by one entry, and the limits of an entry. All are read
//! twice, with the entries kept and without.

use super::{LOAD, PROGRAM, STARTED, payload_of, put_digits, read_with};
use crate::LoadFault;
use std::alloc::Global;
use std::test::Fail;

// Step 0 of s1, at snapshot 2, before its reads and writes.
const STEP: &str = "06 00000002 7331 00000000 04 00000000 00000002";

// One look at a row of acct, and one at a range.
const LOOK: &str = "00 00000004 61636374 00000001 61";

const RANGE: &str = "01 00000004 61636374";

// A flow key s1 and the row of a workflow `pay`, from its status to its arguments.
const FLOW: &str = "02 00000001 00000000 00000001 01 00000002 7331 01 01";

const PAY: &str = "00000003 706179 04 00000000";

// Step 0 of s1, which called `pay`.
const PAID: &str = "02 00000002 7331 00000000 01 02 00000003 706179 00 00 00";

// And took step 0.
const STEPPED: &str =
    "02 00000002 00000000 00000001 02 00000002 7331 00000000 01 02 00000003 706179 00 00 00";

// Why the entries before, and one of this payload behind them, are no formed history; None where they are.
fn fault_with(
    alloc: Global,
    before: &[&str],
    payload: Vec<u8>,
    keep: bool,
) -> Result<Option<LoadFault>, Fail> {
    Ok(read_with(alloc, before, payload, keep)?.err())
}

#[test]
fn each_rule_of_formed_histories_is_checked(rt: HostRuntime) -> Result<(), Fail> {
    let alloc = rt.alloc();
    // what it shows, the entries before, the pieces of one more, whether that is formed
    let cases: [(&str, &[&str], &[&str], bool); 26] = [
        ("a program first", &[], &[PROGRAM], true),
        ("rows first", &[], &["02 00000000 00000000 00000000"], false),
        ("rows second", &[PROGRAM], &[LOAD], true),
        ("a second program", &[PROGRAM], &[PROGRAM], false),
        (
            "a snapshot ahead",
            &[PROGRAM],
            &["02 00000002 00000000 00000000"],
            false,
        ),
        (
            "a read",
            &[PROGRAM, LOAD],
            &[STEP, "00000001", LOOK, "00000002 00000000"],
            true,
        ),
        (
            "another version",
            &[PROGRAM, LOAD],
            &[STEP, "00000001", LOOK, "00000001 00000000"],
            false,
        ),
        (
            "a range",
            &[PROGRAM, LOAD],
            &[
                STEP,
                "00000001",
                RANGE,
                "00000001 61 00000001 62 00000001 00000001 61 00000002 00000000",
            ],
            true,
        ),
        (
            "a range with another version",
            &[PROGRAM, LOAD],
            &[
                STEP,
                "00000001",
                RANGE,
                "00000001 61 00000001 62 00000001 00000001 61 00000001 00000000",
            ],
            false,
        ),
        (
            "a range with a key left out",
            &[PROGRAM, LOAD],
            &[
                STEP,
                "00000001",
                RANGE,
                "00000001 61 00000001 62 00000000 00000000",
            ],
            false,
        ),
        (
            "a range up to its key",
            &[PROGRAM, LOAD],
            &[
                STEP,
                "00000001",
                RANGE,
                "00000000 00000001 61 00000000 00000000",
            ],
            true,
        ),
        ("a key written since", &[PROGRAM, LOAD], &[LOAD], false),
        (
            "a workflow deleted",
            &[PROGRAM],
            &["02 00000001 00000000 00000001 01 00000002 7331 00"],
            false,
        ),
        (
            "a row of another kind",
            &[PROGRAM],
            &["02 00000001 00000000 00000001 01 00000002 7331 01 00 00"],
            false,
        ),
        (
            "a step without its workflow",
            &[PROGRAM],
            &["02 00000001 00000000 00000001", PAID],
            false,
        ),
        (
            "a step of a workflow",
            &[PROGRAM, STARTED],
            &["02 00000002 00000000 00000001", PAID],
            true,
        ),
        (
            "a workflow and its step",
            &[PROGRAM],
            &[
                "02 00000001 00000000 00000002 01 00000002 7331 01 01 01",
                PAY,
                "00 00 00000002 00000000 00",
                PAID,
            ],
            true,
        ),
        (
            "a step again",
            &[PROGRAM, STARTED, STEPPED],
            &["02 00000003 00000000 00000001", PAID],
            false,
        ),
        (
            "a pending workflow",
            &[PROGRAM],
            &[FLOW, "01", PAY, "00 00 00000002 00000000 00"],
            true,
        ),
        (
            "a pending workflow with an outcome",
            &[PROGRAM],
            &[FLOW, "01", PAY, "01 00 00 00 00000002 00000000 00"],
            false,
        ),
        (
            "a workflow that failed with a value",
            &[PROGRAM],
            &[FLOW, "03", PAY, "01 00 00 00 00000002 00000000 00"],
            false,
        ),
        (
            "a workflow that succeeded with it",
            &[PROGRAM],
            &[FLOW, "02", PAY, "01 00 00 00 00000002 00000000 00"],
            true,
        ),
        (
            "an enqueued workflow without a queue",
            &[PROGRAM],
            &[FLOW, "00", PAY, "00 00 00000002 00000000 00"],
            false,
        ),
        (
            "an enqueued workflow",
            &[PROGRAM],
            &[FLOW, "00", PAY, "00 01 00000001 71 00000002 00000000 00"],
            true,
        ),
        (
            "a workflow of a later entry",
            &[PROGRAM],
            &[FLOW, "01", PAY, "00 00 00000003 00000000 00"],
            false,
        ),
        ("bytes left over", &[PROGRAM], &[LOAD, "00"], false),
    ];
    for (what, before, pieces, formed) in cases {
        let entry = u32::try_from(before.len())
            .unwrap_or(u32::MAX)
            .saturating_add(1);
        for keep in [true, false] {
            let payload = payload_of(alloc, pieces)?;
            let got = fault_with(alloc, before, payload, keep)?;
            let want = if formed {
                None
            } else {
                Some(LoadFault::NotFormed { entry })
            };
            assert!(rt; got == want, "{what}, entries kept: {keep}");
        }
    }
    Ok(())
}

// So many rows of acct are deleted, under keys of two bytes.
fn rows_of(alloc: Global, count: u32) -> Result<Vec<u8>, Fail> {
    let mut payload = payload_of(alloc, &["02 00000001 00000000"])?;
    payload.extend_from_slice(&count.to_be_bytes())?;
    for n in 0..count {
        put_digits(&mut payload, "00 00000004 61636374 00000002")?;
        payload.push((n / 100 % 128) as u8)?;
        payload.push((n % 100) as u8)?;
        payload.push(0)?;
    }
    Ok(payload)
}

// So many looks at one row.
fn looks_of(alloc: Global, count: u32) -> Result<Vec<u8>, Fail> {
    let mut payload = payload_of(alloc, &[STEP])?;
    payload.extend_from_slice(&count.to_be_bytes())?;
    for _ in 0..count {
        put_digits(&mut payload, LOOK)?;
        payload.extend_from_slice(&2u32.to_be_bytes())?;
    }
    put_digits(&mut payload, "00000000")?;
    Ok(payload)
}

#[test]
fn rows_and_looks_have_their_limits(rt: HostRuntime) -> Result<(), Fail> {
    let alloc = rt.alloc();
    let fault = Some(LoadFault::NotFormed { entry: 3 });
    let before = [PROGRAM, LOAD];
    for keep in [true, false] {
        assert!(rt; fault_with(alloc, &before, rows_of(alloc, 1024)?, keep)?.is_none());
        assert!(rt; fault_with(alloc, &before, rows_of(alloc, 1025)?, keep)? == fault);
        assert!(rt; fault_with(alloc, &before, looks_of(alloc, 4096)?, keep)?.is_none());
        assert!(rt; fault_with(alloc, &before, looks_of(alloc, 4097)?, keep)? == fault);
    }
    Ok(())
}
