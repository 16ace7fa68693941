//! Commands: the repeat rule, and the refusals in their order.

use crate::bank::BANK;
use crate::play::{LOAD, played};
use crate::transactions::TRANSFERRED;
use std::test::Fail;

// Arguments, queue and source aren't compared.
#[test]
fn an_id_that_is_used_again_has_one_reply(rt: HostRuntime) -> Result<(), Fail> {
    let steps = [
        LOAD,
        ("start s1 send a b 3", "entry 3 s1"),
        ("start s1 send a b 3", "entry 3 s1"),
        ("start s1 send c c 0", "entry 3 s1"),
        ("enqueue s1 mail send a b 3", "entry 3 s1"),
        ("fork s1 0 s1", "entry 3 s1"),
        ("len", "3"),
        // another function
        ("start s1 move a b 3", "refused conflict"),
        ("enqueue s1 mail move a b 3", "refused conflict"),
        // what is refused for itself is refused before the repeat
        ("start s1 send a b", "refused arity"),
        ("fork s1 1 s1", "refused step"),
        ("len", "3"),
    ];
    played(&rt, rt.alloc(), BANK, &steps)
}

#[test]
fn a_transfer_is_not_made_again_under_its_id(rt: HostRuntime) -> Result<(), Fail> {
    let steps = [
        LOAD,
        ("start m1 move a b 3", "entry 3 m1"),
        ("drain 100", "idle 9, called m1 1 notify b 3: value null"),
        ("start m1 send a b 1", "refused conflict"),
        ("start m1 move c c 9", "entry 3 m1"),
        ("status m1", TRANSFERRED),
        ("len", "6"),
    ];
    played(&rt, rt.alloc(), BANK, &steps)
}

// The version 5 UUID of 1, as Python has it.
#[test]
fn an_absent_id_is_made_of_the_length(rt: HostRuntime) -> Result<(), Fail> {
    let steps = [
        (
            "start - odd 1",
            "entry 2 11116e73-1c03-5de6-9130-5f9925ae8ab4",
        ),
        ("turn 11116e73-1c03-5de6-9130-5f9925ae8ab4", "entry 3"),
        (
            "status 11116e73-1c03-5de6-9130-5f9925ae8ab4",
            "SUCCESS odd 1; value overflow; queue none; started 2; attempts 0; parent none",
        ),
        (
            "start 11116e73-1c03-5de6-9130-5f9925ae8ab4 spin 0",
            "refused conflict",
        ),
    ];
    played(&rt, rt.alloc(), BANK, &steps)
}

#[test]
fn refusals_come_in_their_order(rt: HostRuntime) -> Result<(), Fail> {
    let steps = [
        ("load none", "refused unknown_table"),
        ("start  none a", "refused id"),
        ("start x none a", "refused unknown_function"),
        ("start x pay a b 1", "refused unknown_function"),
        ("start x move a", "refused arity"),
        ("enqueue  none none a", "refused id"),
        ("enqueue x none none a", "refused unknown_queue"),
        ("enqueue x mail none a", "refused unknown_function"),
        ("enqueue x mail move a", "refused arity"),
        ("fork x 9 ", "refused unknown_id"),
        ("cancel x", "refused unknown_id"),
        ("resume x", "refused unknown_id"),
        ("recover x", "refused unknown_id"),
        ("turn x", "refused unknown_id"),
        ("dequeue none", "refused unknown_queue"),
        ("status x", "refused unknown_id"),
        ("get none a", "refused unknown_table"),
        ("get acct a", "absent"),
        ("nothing", "nil"),
        ("start x send a b 1", "entry 2 x"),
        ("fork x 9 ", "refused id"),
        ("fork x 9 y", "refused step"),
        ("resume x", "refused PENDING"),
        ("len", "2"),
    ];
    played(&rt, rt.alloc(), BANK, &steps)
}

// A cancelled workflow loses its snapshot.
#[test]
fn a_cancelled_workflow_stops_until_it_is_resumed(rt: HostRuntime) -> Result<(), Fail> {
    let steps = [
        LOAD,
        ("start s1 send a b 3", "entry 3 s1"),
        ("turn s1", "began 3"),
        ("cancel s1", "entry 4"),
        ("turn s1", "none CANCELLED"),
        ("cancel s1", "refused CANCELLED"),
        ("recover s1", "refused CANCELLED"),
        ("resume s1", "entry 5"),
        ("turn s1", "began 5"),
        ("turn s1", "entry 6"),
        ("turn s1", "entry 7"),
        ("cancel s1", "refused SUCCESS"),
        ("resume s1", "refused SUCCESS"),
        ("len", "7"),
    ];
    played(&rt, rt.alloc(), BANK, &steps)
}

// It comes out of the queue, which then has no bound for it.
#[test]
fn a_resumed_workflow_has_no_queue(rt: HostRuntime) -> Result<(), Fail> {
    let steps = [
        LOAD,
        ("enqueue e1 mail send a b 1", "entry 3 e1"),
        ("enqueue e2 mail send a b 1", "entry 4 e2"),
        ("cancel e1", "entry 5"),
        (
            "status e1",
            "CANCELLED send a b 1; none; queue mail; started 3; attempts 0; parent none",
        ),
        ("resume e1", "entry 6"),
        (
            "status e1",
            "PENDING send a b 1; none; queue none; started 3; attempts 0; parent none",
        ),
        ("dequeue mail", "entry 7 e2"),
    ];
    played(&rt, rt.alloc(), BANK, &steps)
}

#[test]
fn a_fork_does_only_what_comes_after_its_steps(rt: HostRuntime) -> Result<(), Fail> {
    let steps = [
        LOAD,
        ("start m1 move a b 3", "entry 3 m1"),
        ("drain 100", "idle 9, called m1 1 notify b 3: value null"),
        ("fork m1 1 m2", "entry 7 m2"),
        (
            "entry 7",
            "fork m2 m1 1 on 6; m2 = PENDING; m2#0 = txn pay value 3",
        ),
        ("turn m2", "entry 8, called m2 1 notify b 3: value null"),
        ("turn m2", "entry 9"),
        ("get acct a", "7"),
        ("fork m1 3 m3", "refused step"),
        ("fork m1 2 m3", "entry 10 m3"),
        ("turn m3", "entry 11"),
        ("get acct a", "7"),
    ];
    played(&rt, rt.alloc(), BANK, &steps)
}

#[test]
fn an_id_has_at_most_200_bytes(rt: HostRuntime) -> Result<(), Fail> {
    let alloc = rt.alloc();
    let id = "i".repeat(alloc, 200)?;
    let id = id.as_str();
    let start = format!(in alloc; "start {id} wait x")?;
    let started = format!(in alloc; "entry 2 {id}")?;
    let longer = format!(in alloc; "start {id}i wait x")?;
    let enqueued = format!(in alloc; "enqueue {id}i mail wait x")?;
    let forked = format!(in alloc; "fork {id} 0 {id}i")?;
    let steps = [
        (longer.as_str(), "refused id"),
        (start.as_str(), started.as_str()),
        (enqueued.as_str(), "refused id"),
        (forked.as_str(), "refused id"),
        ("len", "2"),
    ];
    played(&rt, alloc, BANK, &steps)
}
