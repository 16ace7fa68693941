//! Queues, drains, and stores that are taken up again.

use crate::answers::asked_words;
use crate::bank::BANK;
use crate::play::{LOAD, played};
use std::test::Fail;

#[test]
fn a_queue_of_one_place_starts_one_at_a_time(rt: HostRuntime) -> Result<(), Fail> {
    let steps = [
        ("queues", " mail"),
        LOAD,
        ("dequeue mail", "empty"),
        ("enqueue e1 mail send a b 1", "entry 3 e1"),
        ("enqueue e2 mail send a b 1", "entry 4 e2"),
        ("enqueue e3 mail send a b 1", "entry 5 e3"),
        ("pending", ""),
        ("dequeue mail", "entry 6 e1"),
        ("dequeue mail", "limit 1"),
        ("turn e1", "began 6"),
        ("turn e1", "entry 7"),
        ("turn e1", "entry 8"),
        ("dequeue mail", "entry 9 e2"),
        ("turn e3", "none ENQUEUED"),
        ("dequeue post_box", "unknown"),
    ];
    played(&rt, rt.alloc(), &[], BANK, &steps)?;
    Ok(())
}

// The second run counts a recovery, and begins the transaction anew.
#[test]
fn a_transfer_goes_on_where_it_was_left(rt: HostRuntime) -> Result<(), Fail> {
    let alloc = rt.alloc();
    let start = ("start m1 move a b 3", "entry 3 m1");
    let steps = [LOAD, start, ("turn m1", "began 3"), start, ("len", "3")];
    let desk = played(&rt, alloc, &[], BANK, &steps)?;
    let steps = [
        ("len", "4"),
        start,
        ("drain 100", "idle 9"),
        start,
        (
            "status m1",
            "SUCCESS move a b 3; value 3; queue none; started 3; attempts 1; parent none",
        ),
    ];
    let desk = played(&rt, alloc, desk.image(), BANK, &steps)?;
    let asked = asked_words(alloc, &desk)?;
    assert_eq!(rt; asked.as_str(), "m1 1 notify b 3: value null; ");
    Ok(())
}

#[test]
fn a_drain_is_idle_or_spent(rt: HostRuntime) -> Result<(), Fail> {
    let alloc = rt.alloc();
    let steps = [
        ("start w1 wait w1", "entry 2 w1"),
        ("turn w1", "waiting w1"),
        ("drain 100", "idle 2"),
        ("recover w1", "entry 3"),
    ];
    played(&rt, alloc, &[], BANK, &steps)?;
    let steps = [
        LOAD,
        ("start m1 move a b 3", "entry 3 m1"),
        ("drain 3", "spent 3"),
    ];
    played(&rt, alloc, &[], BANK, &steps)?;
    Ok(())
}

#[test]
fn a_refusal_leaves_all_as_it_was(rt: HostRuntime) -> Result<(), Fail> {
    let steps = [
        LOAD,
        ("load none", "refused unknown_table"),
        ("table acct", "true"),
        ("table none", "false"),
        ("start x move a", "refused arity"),
        ("turn x", "unknown"),
        ("start  move", "refused id"),
        ("start x pay a b 1", "refused unknown_function"),
        ("enqueue x post_box pay a b 1", "refused unknown_queue"),
        ("cancel x", "refused unknown_id"),
        ("resume x", "refused unknown_id"),
        ("recover x", "refused unknown_id"),
        ("fork x 0 y", "refused unknown_id"),
        ("get acct d", "absent"),
        ("len", "2"),
    ];
    played(&rt, rt.alloc(), &[], BANK, &steps)?;
    Ok(())
}
