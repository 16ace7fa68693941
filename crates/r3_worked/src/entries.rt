//! The entry of each act: its snapshot, what it reads and what it writes.

use crate::bank::BANK;
use crate::play::{LOAD, played};
use std::test::Fail;

#[test]
fn the_entries_of_a_transfer(rt: HostRuntime) -> Result<(), Fail> {
    let steps = [
        LOAD,
        ("start m1 move a b 3", "entry 3 m1"),
        ("drain 100", "idle 9, called m1 1 notify b 3: value null"),
        ("entry 1", "program on 0"),
        ("entry 2", "load on 1; acct.a = 10; acct.b = 5; acct.c = 0"),
        ("entry 3", "start m1 on 2; m1 = PENDING"),
        (
            "entry 4",
            "txn m1 0 a b 3 on 3; acct.a@2; acct.b@2; acct.a = 7; acct.b = 8; m1#0 = txn pay value 3",
        ),
        (
            "entry 5",
            "outside m1 1 b 3 on 4; m1#1 = outside notify value null",
        ),
        ("entry 6", "finish m1 on 5; m1 = SUCCESS"),
    ];
    played(&rt, rt.alloc(), BANK, &steps)
}

#[test]
fn the_entries_of_changes(rt: HostRuntime) -> Result<(), Fail> {
    let steps = [
        ("enqueue o1 mail odd 1", "entry 2 o1"),
        ("entry 2", "enqueue o1 on 1; o1 = ENQUEUED"),
        ("dequeue mail", "entry 3 o1"),
        ("entry 3", "dequeue o1 on 2; o1 = PENDING"),
        ("recover o1", "entry 4"),
        ("entry 4", "recover o1 on 3; o1 = PENDING"),
        ("cancel o1", "entry 5"),
        ("entry 5", "cancel o1 on 4; o1 = CANCELLED"),
        ("resume o1", "entry 6"),
        ("entry 6", "resume o1 on 5; o1 = PENDING"),
        ("fork o1 0 o2", "entry 7 o2"),
        ("entry 7", "fork o2 o1 0 on 6; o2 = PENDING"),
        ("start o3 spin 0", "entry 8 o3"),
        ("turn o3", "entry 9"),
        ("entry 9", "finish o3 on 8; o3 = ERROR"),
        ("entry 10", "no such entry"),
    ];
    played(&rt, rt.alloc(), BANK, &steps)
}
