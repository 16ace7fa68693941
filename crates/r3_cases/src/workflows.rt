//! Workflows turn by turn: what each step is answered, and which calls were made.

use crate::answers::asked_words;
use crate::bank::BANK;
use crate::play::{LOAD, TRANSFERRED, played};
use std::test::Fail;

// The transaction, the external call, the end; then nothing is left to do.
#[test]
fn a_transfer_pays_tells_and_ends(rt: HostRuntime) -> Result<(), Fail> {
    let alloc = rt.alloc();
    let steps = [
        LOAD,
        ("start m1 move a b 3", "entry 3 m1"),
        ("turn m1", "began 3"),
        ("turn m1", "entry 4"),
        ("turn m1", "entry 5"),
        ("turn m1", "entry 6"),
        ("turn m1", "none SUCCESS"),
        ("status m1", TRANSFERRED),
        ("get acct a", "7"),
        ("get acct b", "8"),
        // the ID stands under another function, and under its own it is told again
        ("start m1 send a b 1", "refused conflict"),
        ("start m1 move c c 9", "entry 3 m1"),
        ("len", "6"),
    ];
    let desk = played(&rt, alloc, &[], BANK, &steps)?;
    let asked = asked_words(alloc, &desk)?;
    assert_eq!(rt; asked.as_str(), "m1 1 notify b 3: value null; ");
    // It is taken up as it was left, and a fork does only what comes after the steps that it copies.
    let steps = [
        ("status m1", TRANSFERRED),
        ("fork m1 1 m2", "entry 7 m2"),
        ("turn m2", "entry 8"),
        ("turn m2", "entry 9"),
        ("get acct a", "7"),
        ("fork m1 3 m3", "refused step"),
    ];
    let desk = played(&rt, alloc, desk.image(), BANK, &steps)?;
    let asked = asked_words(alloc, &desk)?;
    assert_eq!(rt; asked.as_str(), "m2 1 notify b 3: value null; ");
    Ok(())
}

#[test]
fn of_two_transfers_from_one_account_the_second_loses(rt: HostRuntime) -> Result<(), Fail> {
    let steps = [
        LOAD,
        ("start s1 send a b 3", "entry 3 s1"),
        ("start s2 send a c 4", "entry 4 s2"),
        ("turn s1", "began 4"),
        ("turn s2", "began 4"),
        ("turn s1", "entry 5"),
        ("turn s2", "conflict 5"),
        ("turn s2", "began 5"),
        ("turn s2", "entry 6"),
        ("get acct a", "3"),
    ];
    played(&rt, rt.alloc(), &[], BANK, &steps)?;
    Ok(())
}

// Each sees the sum of before the other: write skew.
#[test]
fn two_withdrawals_from_two_accounts_both_pass(rt: HostRuntime) -> Result<(), Fail> {
    let steps = [
        LOAD,
        ("start d1 draw a b 12", "entry 3 d1"),
        ("start d2 draw b a 12", "entry 4 d2"),
        ("turn d1", "began 4"),
        ("turn d2", "began 4"),
        ("turn d1", "entry 5"),
        ("turn d2", "entry 6"),
        ("get acct a", "-2"),
        ("get acct b", "-7"),
    ];
    played(&rt, rt.alloc(), &[], BANK, &steps)?;
    Ok(())
}

#[test]
fn an_overflow_is_caught_and_a_spent_budget_is_not(rt: HostRuntime) -> Result<(), Fail> {
    let steps = [
        ("start o1 odd 1", "entry 2 o1"),
        ("turn o1", "entry 3"),
        (
            "status o1",
            "SUCCESS odd 1; value overflow; queue none; started 2; attempts 0; parent none",
        ),
        ("start o2 spin 0", "entry 4 o2"),
        ("turn o2", "entry 5"),
        (
            "status o2",
            "ERROR spin 0; failure budget; queue none; started 4; attempts 0; parent none",
        ),
    ];
    played(&rt, rt.alloc(), &[], BANK, &steps)?;
    Ok(())
}

#[test]
fn a_child_is_awaited(rt: HostRuntime) -> Result<(), Fail> {
    let steps = [
        LOAD,
        ("start p1 both a b 3", "entry 3 p1"),
        ("turn p1", "entry 4"),
        ("turn p1", "waiting p1-0"),
        ("pending", " p1 p1-0"),
        ("turn p1-0", "began 4"),
        ("turn p1-0", "entry 5"),
        ("turn p1-0", "entry 6"),
        ("turn p1", "entry 7"),
        ("turn p1", "entry 8"),
        ("pending", ""),
        (
            "status p1-0",
            "SUCCESS send a b 3; value 3; queue none; started 4; attempts 0; parent p1",
        ),
        (
            "status p1",
            "SUCCESS both a b 3; value 3; queue none; started 3; attempts 0; parent none",
        ),
    ];
    played(&rt, rt.alloc(), &[], BANK, &steps)?;
    Ok(())
}

// A cancelled workflow loses its snapshot.
#[test]
fn a_cancelled_workflow_stops_until_it_is_resumed(rt: HostRuntime) -> Result<(), Fail> {
    let steps = [
        LOAD,
        ("start s1 send a b 3", "entry 3 s1"),
        ("turn s1", "began 3"),
        ("cancel s1", "entry 4"),
        ("turn s1", "none CANCELLED"),
        ("cancel s1", "refused CANCELLED"),
        ("recover s1", "refused CANCELLED"),
        ("resume s1", "entry 5"),
        ("turn s1", "began 5"),
        ("turn s1", "entry 6"),
    ];
    played(&rt, rt.alloc(), &[], BANK, &steps)?;
    Ok(())
}
