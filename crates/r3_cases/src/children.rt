//! Children, and workflows that await others.

use crate::answers::asked_words;
use crate::bank::{BANK, FAMILY};
use crate::entries::told;
use crate::play::{LOAD, played};
use std::test::Fail;

// A child is a workflow as any other: its ID isn't started again, and a copied step has no second child.
#[test]
fn a_child_is_started_once(rt: HostRuntime) -> Result<(), Fail> {
    let alloc = rt.alloc();
    let steps = [
        LOAD,
        ("start p1 both a b 3", "entry 3 p1"),
        ("turn p1", "entry 4"),
        ("start p1-0 send c c 1", "entry 4 p1-0"),
        ("enqueue p1-0 mail send a b 3", "entry 4 p1-0"),
        ("start p1-0 draw a b 3", "refused conflict"),
        ("fork p1 0 p1-0", "refused conflict"),
        ("fork p1-0 0 c1", "entry 5 c1"),
        ("fork p1 1 p2", "entry 6 p2"),
        ("turn p2", "waiting p1-0"),
        ("turn p1-0", "began 6"),
        ("turn p1-0", "entry 7"),
        ("turn p1-0", "entry 8"),
        ("turn p2", "entry 9"),
        ("turn p2", "entry 10"),
        (
            "status p2",
            "SUCCESS both a b 3; value 3; queue none; started 6; attempts 0; parent none",
        ),
        (
            "status c1",
            "PENDING send a b 3; none; queue none; started 5; attempts 0; parent none",
        ),
        ("status p2-0", "unknown"),
        ("pending", " p1 c1"),
    ];
    let desk = played(&rt, alloc, &[], BANK, &steps)?;
    let entries = [
        (
            4,
            "child p1 0 p1-0; on 3; reads; writes p1-0=PENDING send a b 3; none; queue none; \
                started 4; attempts 0; parent p1 p1.0=child send value p1-0",
        ),
        (
            9,
            "await p2 1 p1-0; on 8; reads; writes p2.1=await await value 3",
        ),
    ];
    told(&rt, alloc, &desk, &entries)?;
    Ok(())
}

// A workflow that has the child's ID is taken for it where it has the child's function.
#[test]
fn a_workflow_of_the_childs_id_is_adopted(rt: HostRuntime) -> Result<(), Fail> {
    let alloc = rt.alloc();
    let steps = [
        LOAD,
        ("start p1-0 send a c 2", "entry 3 p1-0"),
        ("start p1 both a b 3", "entry 4 p1"),
        ("turn p1", "entry 5"),
        (
            "status p1-0",
            "PENDING send a c 2; none; queue none; started 3; attempts 0; parent none",
        ),
        ("turn p1", "waiting p1-0"),
        ("turn p1-0", "began 5"),
        ("turn p1-0", "entry 6"),
        ("turn p1-0", "entry 7"),
        // one that has ended is adopted too
        ("fork p1 0 p2", "entry 8 p2"),
        ("start p2-0 send a c 2", "entry 9 p2-0"),
        ("cancel p2-0", "entry 10"),
        ("turn p2", "entry 11"),
        ("turn p2", "entry 12"),
        ("turn p2", "entry 13"),
        (
            "status p2",
            "ERROR both a b 3; failure cancelled; queue none; started 8; attempts 0; parent none",
        ),
        ("turn p1", "entry 14"),
        ("turn p1", "entry 15"),
        (
            "status p1",
            "SUCCESS both a b 3; value 2; queue none; started 4; attempts 0; parent none",
        ),
    ];
    let desk = played(&rt, alloc, &[], BANK, &steps)?;
    let entries = [
        (
            5,
            "child p1 0 p1-0; on 4; reads; writes p1.0=child send value p1-0",
        ),
        (
            11,
            "child p2 0 p2-0; on 10; reads; writes p2.0=child send value p2-0",
        ),
        (
            12,
            "await p2 1 p2-0; on 11; reads; writes p2.1=await await failure cancelled",
        ),
    ];
    told(&rt, alloc, &desk, &entries)?;
    // under another function it isn't the child
    let steps = [
        ("start p1-0 draw a b 1", "entry 2 p1-0"),
        ("start p1 both a b 3", "entry 3 p1"),
        ("turn p1", "entry 4"),
        ("turn p1", "entry 5"),
        (
            "status p1",
            "ERROR both a b 3; failure conflict; queue none; started 3; attempts 0; parent none",
        ),
    ];
    let desk = played(&rt, alloc, &[], BANK, &steps)?;
    let entries = [(
        4,
        "child p1 0 p1-0; on 3; reads; writes p1.0=child send failure conflict",
    )];
    told(&rt, alloc, &desk, &entries)?;
    Ok(())
}

// With the hyphen and the step the child's ID is two bytes longer than its parent's.
#[test]
fn ids_have_at_most_200_bytes(rt: HostRuntime) -> Result<(), Fail> {
    let alloc = rt.alloc();
    let failed = "ERROR both a b 3; failure id; queue none; started 2; attempts 0; parent none";
    let running = "PENDING both a b 3; none; queue none; started 2; attempts 0; parent none";
    // bytes of the parent's ID, whether the child is started, and how the parent stands
    for (bytes, is_started, row) in [(198, true, running), (199, false, failed)] {
        let id = "p".repeat(alloc, bytes)?;
        let start = format!(in alloc; "start {id} both a b 3")?;
        let started = format!(in alloc; "entry 2 {id}")?;
        let turn = format!(in alloc; "turn {id}")?;
        let waiting = format!(in alloc; "waiting {id}-0")?;
        let status = format!(in alloc; "status {id}")?;
        let second = if is_started {
            waiting.as_str()
        } else {
            "entry 4"
        };
        let steps = [
            (start.as_str(), started.as_str()),
            (turn.as_str(), "entry 3"),
            (turn.as_str(), second),
            (status.as_str(), row),
        ];
        played(&rt, alloc, &[], BANK, &steps)?;
    }
    let id = "p".repeat(alloc, 200)?;
    let start = format!(in alloc; "start {id} odd 1")?;
    let started = format!(in alloc; "entry 2 {id}")?;
    let longer = format!(in alloc; "start {id}p odd 1")?;
    let steps = [
        (start.as_str(), started.as_str()),
        (longer.as_str(), "refused id"),
    ];
    played(&rt, alloc, &[], BANK, &steps)?;
    Ok(())
}

#[test]
fn a_parent_awaits_its_child(rt: HostRuntime) -> Result<(), Fail> {
    let alloc = rt.alloc();
    let steps = [
        // it ends with a value
        ("start p1 parent 1", "entry 2 p1"),
        ("turn p1", "entry 3"),
        ("turn p1", "waiting p1-0"),
        ("turn p1-0", "entry 4"),
        ("turn p1", "entry 5"),
        ("turn p1", "entry 6"),
        (
            "status p1",
            "SUCCESS parent 1; value 7; queue none; started 2; attempts 0; parent none",
        ),
        // it fails, and so does its parent
        ("start p2 parent 2", "entry 7 p2"),
        ("turn p2", "entry 8"),
        ("turn p2-0", "entry 9"),
        ("turn p2", "entry 10"),
        ("turn p2", "entry 11"),
        (
            "status p2-0",
            "ERROR child 2; failure broken; queue none; started 8; attempts 0; parent p2",
        ),
        (
            "status p2",
            "ERROR parent 2; failure broken; queue none; started 7; attempts 0; parent none",
        ),
    ];
    played(&rt, alloc, &[], FAMILY, &steps)?;
    // it is cancelled in the middle: what was answered stays, whatever becomes of it later
    let steps = [
        ("start p3 parent 3", "entry 2 p3"),
        ("turn p3", "entry 3"),
        ("turn p3-0", "entry 4"),
        ("turn p3", "waiting p3-0"),
        ("cancel p3-0", "entry 5"),
        ("turn p3", "entry 6"),
        ("resume p3-0", "entry 7"),
        ("turn p3-0", "entry 8"),
        ("turn p3", "entry 9"),
        (
            "status p3-0",
            "SUCCESS child 3; value 0; queue none; started 3; attempts 0; parent p3",
        ),
        (
            "status p3",
            "ERROR parent 3; failure cancelled; queue none; started 2; attempts 0; parent none",
        ),
    ];
    let desk = played(&rt, alloc, &[], FAMILY, &steps)?;
    let asked = asked_words(alloc, &desk)?;
    assert_eq!(rt; asked.as_str(), "p3-0 0 tell 3: value null; ");
    Ok(())
}

// Whoever has an ID may be awaited, and whoever has none too.
#[test]
fn an_await_is_answered_by_the_status(rt: HostRuntime) -> Result<(), Fail> {
    let alloc = rt.alloc();
    let steps = [
        ("start a1 wait w", "entry 2 a1"),
        ("turn a1", "entry 3"),
        ("enqueue w line child 1", "entry 4 w"),
        ("start a2 wait w", "entry 5 a2"),
        // ENQUEUED
        ("turn a2", "waiting w"),
        ("cancel w", "entry 6"),
        // CANCELLED
        ("start a3 wait w", "entry 7 a3"),
        ("turn a3", "entry 8"),
        ("resume w", "entry 9"),
        // PENDING
        ("turn a2", "waiting w"),
        ("turn w", "entry 10"),
        // SUCCESS
        ("turn a2", "entry 11"),
        ("start v child 2", "entry 12 v"),
        ("turn v", "entry 13"),
        // ERROR
        ("start a4 wait v", "entry 14 a4"),
        ("turn a4", "entry 15"),
        // it was never there, and has come since
        ("turn a1", "entry 16"),
        (
            "status a1",
            "ERROR wait w; failure unknown_id; queue none; started 2; attempts 0; parent none",
        ),
        ("turn a2", "entry 17"),
        (
            "status a2",
            "SUCCESS wait w; value 7; queue none; started 5; attempts 0; parent none",
        ),
    ];
    let desk = played(&rt, alloc, &[], FAMILY, &steps)?;
    let entries = [
        (
            3,
            "await a1 0 w; on 2; reads; writes a1.0=await await failure unknown_id",
        ),
        (
            8,
            "await a3 0 w; on 7; reads; writes a3.0=await await failure cancelled",
        ),
        (
            11,
            "await a2 0 w; on 10; reads; writes a2.0=await await value 7",
        ),
        (
            15,
            "await a4 0 v; on 14; reads; writes a4.0=await await failure broken",
        ),
    ];
    told(&rt, alloc, &desk, &entries)?;
    Ok(())
}
