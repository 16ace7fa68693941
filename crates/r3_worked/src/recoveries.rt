//! Restarts and recoveries, and calls that fail.

use crate::bank::BANK;
use crate::play::{LOAD, played};
use std::test::Fail;

// The snapshot of before the restart is gone, and no step is taken twice.
#[test]
fn a_workflow_goes_on_after_a_restart(rt: HostRuntime) -> Result<(), Fail> {
    let steps = [
        LOAD,
        ("start m1 move a b 3", "entry 3 m1"),
        ("turn m1", "began 3"),
        ("start m1 move a b 3", "entry 3 m1"),
        ("restart", " m1 entry 4"),
        ("entry 4", "recover m1 on 3; m1 = PENDING"),
        ("start m1 move a b 3", "entry 3 m1"),
        ("drain 100", "idle 9, called m1 1 notify b 3: value null"),
        (
            "entry 5",
            "txn m1 0 a b 3 on 4; acct.a@2; acct.b@2; acct.a = 7; acct.b = 8; m1#0 = txn pay value 3",
        ),
        ("start m1 move a b 3", "entry 3 m1"),
        (
            "status m1",
            "SUCCESS move a b 3; value 3; queue none; started 3; attempts 1; parent none",
        ),
        // nothing runs any more
        ("restart", ""),
        ("len", "7"),
    ];
    played(&rt, rt.alloc(), BANK, &steps)
}

// The step is recorded before the restart, and isn't asked again.
#[test]
fn a_recorded_call_is_not_made_again(rt: HostRuntime) -> Result<(), Fail> {
    let steps = [
        LOAD,
        ("start m1 move a b 3", "entry 3 m1"),
        ("turn m1", "began 3"),
        ("turn m1", "entry 4"),
        ("turn m1", "entry 5, called m1 1 notify b 3: value null"),
        ("restart", " m1 entry 6"),
        ("turn m1", "entry 7"),
        ("entry 7", "finish m1 on 6; m1 = SUCCESS"),
    ];
    played(&rt, rt.alloc(), BANK, &steps)
}

// Until an answer is recorded the call is made again; a failure is an answer.
#[test]
fn a_call_that_fails_is_made_again(rt: HostRuntime) -> Result<(), Fail> {
    let steps = [
        LOAD,
        ("start m1 move a b 3", "entry 3 m1"),
        ("turn m1", "began 3"),
        ("turn m1", "entry 4"),
        ("turn m1 unanswered", "again, called m1 1 notify b 3: none"),
        ("len", "4"),
        (
            "turn m1 down",
            "entry 5, called m1 1 notify b 3: failure down",
        ),
        (
            "entry 5",
            "outside m1 1 b 3 on 4; m1#1 = outside notify failure down",
        ),
        ("turn m1", "entry 6"),
        (
            "status m1",
            "ERROR move a b 3; failure down; queue none; started 3; attempts 0; parent none",
        ),
    ];
    played(&rt, rt.alloc(), BANK, &steps)
}

#[test]
fn a_workflow_is_recovered_fifty_times(rt: HostRuntime) -> Result<(), Fail> {
    let steps = [
        ("start w1 wait w1", "entry 2 w1"),
        ("recoveries w1 50", "entry 52"),
        (
            "status w1",
            "PENDING wait w1; none; queue none; started 2; attempts 50; parent none",
        ),
        ("recover w1", "entry 53"),
        (
            "status w1",
            "MAX_RECOVERY_ATTEMPTS_EXCEEDED wait w1; none; queue none; started 2; attempts 51; parent none",
        ),
        ("turn w1", "none MAX_RECOVERY_ATTEMPTS_EXCEEDED"),
        ("recover w1", "refused MAX_RECOVERY_ATTEMPTS_EXCEEDED"),
        ("restart", ""),
        ("len", "53"),
        // it is taken up as one that was never recovered
        ("resume w1", "entry 54"),
        (
            "status w1",
            "PENDING wait w1; none; queue none; started 2; attempts 0; parent none",
        ),
    ];
    played(&rt, rt.alloc(), BANK, &steps)
}
