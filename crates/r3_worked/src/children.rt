//! Children, and workflows that await others.

use crate::bank::BANK;
use crate::play::{LOAD, played};
use std::test::Fail;

#[test]
fn a_child_is_started_and_awaited(rt: HostRuntime) -> Result<(), Fail> {
    let steps = [
        LOAD,
        ("start p1 both a b 3", "entry 3 p1"),
        ("turn p1", "entry 4"),
        (
            "entry 4",
            "child p1 0 p1-0 on 3; p1-0 = PENDING; p1#0 = child send value p1-0",
        ),
        ("turn p1", "waiting p1-0"),
        ("pending", " p1 p1-0"),
        ("turn p1-0", "began 4"),
        ("turn p1-0", "entry 5"),
        ("turn p1-0", "entry 6"),
        ("turn p1", "entry 7"),
        (
            "entry 7",
            "await p1 1 p1-0 on 6; p1#1 = await await value 3",
        ),
        ("turn p1", "entry 8"),
        (
            "status p1-0",
            "SUCCESS send a b 3; value 3; queue none; started 4; attempts 0; parent p1",
        ),
        (
            "status p1",
            "SUCCESS both a b 3; value 3; queue none; started 3; attempts 0; parent none",
        ),
    ];
    played(&rt, rt.alloc(), BANK, &steps)
}

// The ID of the child stands under its function: the step is recorded, and nothing starts.
#[test]
fn a_child_that_stands_there_is_adopted(rt: HostRuntime) -> Result<(), Fail> {
    let steps = [
        LOAD,
        ("start p1-0 send c a 0", "entry 3 p1-0"),
        ("start p1 both a b 3", "entry 4 p1"),
        ("turn p1", "entry 5"),
        (
            "entry 5",
            "child p1 0 p1-0 on 4; p1#0 = child send value p1-0",
        ),
        (
            "status p1-0",
            "PENDING send c a 0; none; queue none; started 3; attempts 0; parent none",
        ),
    ];
    played(&rt, rt.alloc(), BANK, &steps)
}

#[test]
fn a_child_under_another_function_is_a_conflict(rt: HostRuntime) -> Result<(), Fail> {
    let steps = [
        LOAD,
        ("start p1-0 wait x", "entry 3 p1-0"),
        ("start p1 both a b 3", "entry 4 p1"),
        ("turn p1", "entry 5"),
        (
            "entry 5",
            "child p1 0 p1-0 on 4; p1#0 = child send failure conflict",
        ),
        ("turn p1", "entry 6"),
        (
            "status p1",
            "ERROR both a b 3; failure conflict; queue none; started 4; attempts 0; parent none",
        ),
    ];
    played(&rt, rt.alloc(), BANK, &steps)
}

// Each workflow `wait` awaits one, and ends with what the await gave.
#[test]
fn an_await_takes_the_outcome_of_what_has_ended(rt: HostRuntime) -> Result<(), Fail> {
    let steps = [
        LOAD,
        ("start w1 wait x", "entry 3 w1"),
        ("turn w1", "entry 4"),
        (
            "entry 4",
            "await w1 0 x on 3; w1#0 = await await failure unknown_id",
        ),
        ("start s1 send a b 3", "entry 5 s1"),
        ("start w2 wait s1", "entry 6 w2"),
        ("turn w2", "waiting s1"),
        ("turn s1", "began 6"),
        ("turn s1", "entry 7"),
        ("turn s1", "entry 8"),
        ("turn w2", "entry 9"),
        ("entry 9", "await w2 0 s1 on 8; w2#0 = await await value 3"),
        ("start o1 spin 0", "entry 10 o1"),
        ("turn o1", "entry 11"),
        ("start w3 wait o1", "entry 12 w3"),
        ("turn w3", "entry 13"),
        (
            "entry 13",
            "await w3 0 o1 on 12; w3#0 = await await failure budget",
        ),
    ];
    played(&rt, rt.alloc(), BANK, &steps)
}

// One that is enqueued or runs is waited for; one that was cancelled or recovered too often isn't.
#[test]
fn an_await_takes_a_failure_where_no_outcome_comes(rt: HostRuntime) -> Result<(), Fail> {
    let steps = [
        LOAD,
        ("enqueue e1 mail send a b 3", "entry 3 e1"),
        ("start w1 wait e1", "entry 4 w1"),
        ("turn w1", "waiting e1"),
        ("dequeue mail", "entry 5 e1"),
        ("turn w1", "waiting e1"),
        ("cancel e1", "entry 6"),
        ("turn w1", "entry 7"),
        (
            "entry 7",
            "await w1 0 e1 on 6; w1#0 = await await failure cancelled",
        ),
        ("start r1 send a b 3", "entry 8 r1"),
        ("start w2 wait r1", "entry 9 w2"),
        ("recoveries r1 50", "entry 59"),
        ("turn w2", "waiting r1"),
        ("recoveries r1 1", "entry 60"),
        ("turn w2", "entry 61"),
        (
            "entry 61",
            "await w2 0 r1 on 60; w2#0 = await await failure attempts",
        ),
    ];
    played(&rt, rt.alloc(), BANK, &steps)
}

// A hyphen and the number make 200 bytes.
#[test]
fn a_child_id_may_have_200_bytes(rt: HostRuntime) -> Result<(), Fail> {
    let alloc = rt.alloc();
    let id = "p".repeat(alloc, 198)?;
    let id = id.as_str();
    let start = format!(in alloc; "start {id} both a b 3")?;
    let started = format!(in alloc; "entry 3 {id}")?;
    let turn = format!(in alloc; "turn {id}")?;
    let entry = format!(in alloc;
        "child {id} 0 {id}-0 on 3; {id}-0 = PENDING; {id}#0 = child send value {id}-0"
    )?;
    let steps = [
        LOAD,
        (start.as_str(), started.as_str()),
        (turn.as_str(), "entry 4"),
        ("entry 4", entry.as_str()),
    ];
    played(&rt, alloc, BANK, &steps)
}

// One byte more: the step fails, nothing starts, and the act has the parent's ID.
#[test]
fn a_child_id_that_is_too_long_fails_its_step(rt: HostRuntime) -> Result<(), Fail> {
    let alloc = rt.alloc();
    let id = "p".repeat(alloc, 199)?;
    let id = id.as_str();
    let start = format!(in alloc; "start {id} both a b 3")?;
    let started = format!(in alloc; "entry 3 {id}")?;
    let turn = format!(in alloc; "turn {id}")?;
    let entry = format!(in alloc; "child {id} 0 {id} on 3; {id}#0 = child send failure id")?;
    let status = format!(in alloc; "status {id}")?;
    let steps = [
        LOAD,
        (start.as_str(), started.as_str()),
        (turn.as_str(), "entry 4"),
        ("entry 4", entry.as_str()),
        (turn.as_str(), "entry 5"),
        (
            status.as_str(),
            "ERROR both a b 3; failure id; queue none; started 3; attempts 0; parent none",
        ),
    ];
    played(&rt, alloc, BANK, &steps)
}
