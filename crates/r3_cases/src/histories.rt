//! The entries of whole runs: what each event leaves, and which events leave none.

use crate::answers::asked_words;
use crate::bank::{BANK, FAMILY};
use crate::entries::told;
use crate::play::{LOAD, played};
use std::test::Fail;

// The version 5 UUIDs of the nil namespace and of a number, as Python's `uuid.uuid5` gives them.
const MADE_OF_1: &str = "11116e73-1c03-5de6-9130-5f9925ae8ab4";

const MADE_OF_2: &str = "1087ebe8-1ef8-5d97-8873-735b4949004d";

const MADE_OF_3: &str = "7e57d004-2b97-5e7a-b45f-5387367791cd";

const MADE_OF_5: &str = "f797f61e-a392-5acf-af25-b46057f1c8e8";

#[test]
fn a_transfer_is_told_as_its_entries(rt: HostRuntime) -> Result<(), Fail> {
    let alloc = rt.alloc();
    let steps = [
        LOAD,
        ("start m1 move a b 3", "entry 3 m1"),
        ("drain 100", "idle 9"),
        ("len", "6"),
    ];
    let desk = played(&rt, alloc, &[], BANK, &steps)?;
    let program = format!(in alloc; "program {BANK}; on 0; reads; writes")?;
    let entries = [
        (1, program.as_str()),
        (2, "load; on 1; reads; writes acct/a=10 acct/b=5 acct/c=0"),
        (
            3,
            "start m1; on 2; reads; writes m1=PENDING move a b 3; none; queue none; started 3; \
                attempts 0; parent none",
        ),
        (
            4,
            "txn m1 0 a b 3; on 3; reads acct/a@2 acct/b@2; \
                writes acct/a=7 acct/b=8 m1.0=txn pay value 3",
        ),
        (
            5,
            "outside m1 1 b 3; on 4; reads; writes m1.1=outside notify value null",
        ),
        (
            6,
            "finish m1; on 5; reads; writes m1=SUCCESS move a b 3; value 3; queue none; \
                started 3; attempts 0; parent none",
        ),
    ];
    told(&rt, alloc, &desk, &entries)?;
    Ok(())
}

#[test]
fn each_command_is_told_as_one_entry(rt: HostRuntime) -> Result<(), Fail> {
    let alloc = rt.alloc();
    let steps = [
        ("put acct a 4", "entry 2"),
        ("enqueue e1 mail move a b 1", "entry 3 e1"),
        ("dequeue mail", "entry 4 e1"),
        ("recover e1", "entry 5"),
        ("cancel e1", "entry 6"),
        ("resume e1", "entry 7"),
        ("fork e1 0 e2", "entry 8 e2"),
        ("len", "8"),
    ];
    let desk = played(&rt, alloc, &[], BANK, &steps)?;
    let entries = [
        (2, "load; on 1; reads; writes acct/a=4"),
        (
            3,
            "enqueue e1; on 2; reads; writes e1=ENQUEUED move a b 1; none; queue mail; \
                started 3; attempts 0; parent none",
        ),
        (
            4,
            "dequeue e1; on 3; reads; writes e1=PENDING move a b 1; none; queue mail; \
                started 3; attempts 0; parent none",
        ),
        (
            5,
            "recover e1; on 4; reads; writes e1=PENDING move a b 1; none; queue mail; \
                started 3; attempts 1; parent none",
        ),
        (
            6,
            "cancel e1; on 5; reads; writes e1=CANCELLED move a b 1; none; queue mail; \
                started 3; attempts 1; parent none",
        ),
        (
            7,
            "resume e1; on 6; reads; writes e1=PENDING move a b 1; none; queue none; started 3; \
                attempts 0; parent none",
        ),
        (
            8,
            "fork e2 0 e1; on 7; reads; writes e2=PENDING move a b 1; none; queue none; \
                started 8; attempts 0; parent none",
        ),
    ];
    told(&rt, alloc, &desk, &entries)?;
    Ok(())
}

// Each opening counts one, and the 51st gives it up, until it is resumed.
#[test]
fn a_workflow_is_recovered_50_times(rt: HostRuntime) -> Result<(), Fail> {
    let alloc = rt.alloc();
    let steps = [("start u child 3", "entry 2 u")];
    let mut desk = played(&rt, alloc, &[], FAMILY, &steps)?;
    for opening in 1u32..51 {
        let len = format!(in alloc; "{}", opening + 2)?;
        let steps = [("len", len.as_str()), ("pending", " u")];
        let next = played(&rt, alloc, desk.image(), FAMILY, &steps)?;
        desk = next;
    }
    let given_up =
        "MAX_RECOVERY_ATTEMPTS_EXCEEDED child 3; none; queue none; started 2; attempts 51; \
            parent none";
    let steps = [
        ("len", "53"),
        ("status u", given_up),
        ("pending", ""),
        ("turn u", "none MAX_RECOVERY_ATTEMPTS_EXCEEDED"),
        ("recover u", "refused MAX_RECOVERY_ATTEMPTS_EXCEEDED"),
        ("cancel u", "refused MAX_RECOVERY_ATTEMPTS_EXCEEDED"),
    ];
    let desk = played(&rt, alloc, desk.image(), FAMILY, &steps)?;
    let entries = [
        (
            52,
            "recover u; on 51; reads; writes u=PENDING child 3; none; queue none; started 2; \
                attempts 50; parent none",
        ),
        (
            53,
            "recover u; on 52; reads; writes u=MAX_RECOVERY_ATTEMPTS_EXCEEDED child 3; none; \
                queue none; started 2; attempts 51; parent none",
        ),
    ];
    told(&rt, alloc, &desk, &entries)?;
    let steps = [
        // nobody is recovered
        ("len", "53"),
        ("start a1 wait u", "entry 54 a1"),
        ("turn a1", "entry 55"),
        ("turn a1", "entry 56"),
        (
            "status a1",
            "ERROR wait u; failure attempts; queue none; started 54; attempts 0; parent none",
        ),
        ("resume u", "entry 57"),
        ("recover u", "entry 58"),
        (
            "status u",
            "PENDING child 3; none; queue none; started 2; attempts 1; parent none",
        ),
    ];
    played(&rt, alloc, desk.image(), FAMILY, &steps)?;
    Ok(())
}

// It stands for the length of the history, and may be given by hand too.
#[test]
fn an_absent_id_is_made_of_the_length(rt: HostRuntime) -> Result<(), Fail> {
    let alloc = rt.alloc();
    let first = format!(in alloc; "entry 2 {MADE_OF_1}")?;
    let second = format!(in alloc; "entry 3 {MADE_OF_2}")?;
    let fork = format!(in alloc; "fork {MADE_OF_1} 0 _")?;
    let third = format!(in alloc; "entry 4 {MADE_OF_3}")?;
    let given = format!(in alloc; "start {MADE_OF_5} odd 1")?;
    let known = format!(in alloc; "entry 5 {MADE_OF_5}")?;
    let turn = format!(in alloc; "turn {MADE_OF_3}")?;
    let steps = [
        ("start _ odd 1", first.as_str()),
        ("enqueue _ mail odd 2", second.as_str()),
        (fork.as_str(), third.as_str()),
        // on a history of length 5 it is there already
        (given.as_str(), known.as_str()),
        ("start _ odd 4", known.as_str()),
        ("enqueue _ mail odd 5", known.as_str()),
        (fork.as_str(), known.as_str()),
        ("start _ spin 4", "refused conflict"),
        ("start _ odd", "refused arity"),
        ("len", "5"),
        (turn.as_str(), "entry 6"),
    ];
    let desk = played(&rt, alloc, &[], BANK, &steps)?;
    let words = format!(in alloc;
        "fork {MADE_OF_3} 0 {MADE_OF_1}; on 3; reads; writes {MADE_OF_3}=PENDING odd 1; none; \
            queue none; started 4; attempts 0; parent none"
    )?;
    told(&rt, alloc, &desk, &[(4, words.as_str())])?;
    Ok(())
}

// Arguments, queue and source aren't compared. What is refused before the conflict is refused of a known ID too.
#[test]
fn an_id_is_used_once(rt: HostRuntime) -> Result<(), Fail> {
    let steps = [
        LOAD,
        ("start s1 send a b 3", "entry 3 s1"),
        ("start s1 send c c 9", "entry 3 s1"),
        ("enqueue s1 mail send a b 3", "entry 3 s1"),
        ("enqueue e1 mail send a c 1", "entry 4 e1"),
        ("dequeue mail", "entry 5 e1"),
        ("start e1 send a c 1", "entry 4 e1"),
        ("fork s1 0 e1", "entry 4 e1"),
        ("fork e1 0 e1", "entry 4 e1"),
        ("start s1 draw a b 3", "refused conflict"),
        ("enqueue s1 mail draw a b 3", "refused conflict"),
        ("start s1 send a", "refused arity"),
        ("start s1 nobody a b 3", "refused unknown_function"),
        ("enqueue s1 none send a b 3", "refused unknown_queue"),
        ("fork s1 1 e1", "refused step"),
        ("fork s1 1001 e1", "refused step"),
        ("fork nobody 0 e1", "refused unknown_id"),
        ("cancel s1", "entry 6"),
        ("start s1 send a b 3", "entry 3 s1"),
        (
            "status s1",
            "CANCELLED send a b 3; none; queue none; started 3; attempts 0; parent none",
        ),
        ("len", "6"),
    ];
    played(&rt, rt.alloc(), &[], BANK, &steps)?;
    Ok(())
}

// Only what comes after the copied steps is done, and each fork does it by itself.
#[test]
fn a_fork_goes_on_from_the_steps_that_it_copies(rt: HostRuntime) -> Result<(), Fail> {
    let alloc = rt.alloc();
    let steps = [
        LOAD,
        ("start m1 move a b 3", "entry 3 m1"),
        ("fork m1 0 m2", "entry 4 m2"),
        ("fork m1 1 m3", "refused step"),
        ("turn m1", "began 4"),
        ("turn m1", "entry 5"),
        ("fork m1 1 m3", "entry 6 m3"),
        ("turn m1", "entry 7"),
        ("fork m1 2 m4", "entry 8 m4"),
        ("turn m4", "entry 9"),
        ("turn m3", "entry 10"),
        ("turn m3", "entry 11"),
        ("get acct a", "7"),
        ("turn m2", "began 11"),
        ("turn m2", "entry 12"),
        ("get acct a", "4"),
        // a fork of a fork, and one of a workflow that waits in a queue
        ("fork m3 2 m5", "entry 13 m5"),
        ("turn m5", "entry 14"),
        ("enqueue e1 mail send a c 1", "entry 15 e1"),
        ("fork e1 0 e2", "entry 16 e2"),
        (
            "status e2",
            "PENDING send a c 1; none; queue none; started 16; attempts 0; parent none",
        ),
        ("fork m1 3 m6", "refused step"),
        ("status m6", "unknown"),
    ];
    let desk = played(&rt, alloc, &[], BANK, &steps)?;
    let asked = asked_words(alloc, &desk)?;
    assert_eq!(rt;
        asked.as_str(),
        "m1 1 notify b 3: value null; m3 1 notify b 3: value null; "
    );
    let entries = [
        (
            8,
            "fork m4 2 m1; on 7; reads; writes m4=PENDING move a b 3; none; queue none; \
                started 8; attempts 0; \
                parent none m4.0=txn pay value 3 m4.1=outside notify value null",
        ),
        (
            14,
            "finish m5; on 13; reads; writes m5=SUCCESS move a b 3; value 3; queue none; \
                started 13; attempts 0; parent none",
        ),
    ];
    told(&rt, alloc, &desk, &entries)?;
    Ok(())
}

// Cancelled is what runs or waits in a queue, resumed what was cancelled, recovered what runs.
#[test]
fn commands_need_their_statuses(rt: HostRuntime) -> Result<(), Fail> {
    let steps = [
        ("enqueue w line child 1", "entry 2 w"),
        ("recover w", "refused ENQUEUED"),
        ("resume w", "refused ENQUEUED"),
        ("cancel w", "entry 3"),
        ("cancel w", "refused CANCELLED"),
        ("recover w", "refused CANCELLED"),
        ("dequeue line", "empty"),
        ("turn w", "none CANCELLED"),
        ("resume w", "entry 4"),
        ("resume w", "refused PENDING"),
        ("cancel w", "entry 5"),
        ("resume w", "entry 6"),
        ("turn w", "entry 7"),
        ("cancel w", "refused SUCCESS"),
        ("resume w", "refused SUCCESS"),
        ("recover w", "refused SUCCESS"),
        ("start v child 2", "entry 8 v"),
        ("turn v", "entry 9"),
        ("cancel v", "refused ERROR"),
        ("resume v", "refused ERROR"),
        ("recover v", "refused ERROR"),
        ("turn v", "none ERROR"),
    ];
    played(&rt, rt.alloc(), &[], FAMILY, &steps)?;
    // one that was resumed has no place in its queue, which starts the next
    let steps = [
        ("enqueue w line child 3", "entry 2 w"),
        ("enqueue v line child 3", "entry 3 v"),
        ("dequeue line", "entry 4 w"),
        ("dequeue line", "limit 1"),
        ("cancel w", "entry 5"),
        ("resume w", "entry 6"),
        ("dequeue line", "entry 7 v"),
        ("dequeue line", "limit 1"),
        ("pending", " w v"),
    ];
    played(&rt, rt.alloc(), &[], FAMILY, &steps)?;
    Ok(())
}
