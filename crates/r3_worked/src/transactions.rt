//! Transactions: what they read and write, and which one loses.

use crate::bank::BANK;
use crate::play::{LOAD, played, played_again};
use std::test::Fail;

/// The row of m1 once it has moved 3 from a to b.
pub const TRANSFERRED: &str =
    "SUCCESS move a b 3; value 3; queue none; started 3; attempts 0; parent none";

// Items by their names: they are put, counted in a range, and deleted.
const ITEMS: &str = r#"table item;
txn put_one(k) { put item[k] = 1; return k; }
txn drop_one(k) { delete item[k]; return k; }
txn count() { let rows = scan item["a", "n"]; return len(rows); }
txn tally() {
  let rows = scan item["a", "n"];
  put item["tally"] = len(rows);
  return len(rows);
}
flow puts(k) { let r = call put_one(k); return r; }
flow drops(k) { let r = call drop_one(k); return r; }
flow counts() { let r = call count(); return r; }
flow tallies() { let r = call tally(); return r; }
"#;

// The same workflow, whose transaction has another name.
const RENAMED: &str = r#"table item;
txn put_all(k) { put item[k] = 1; return k; }
flow puts(k) { let r = call put_all(k); return r; }
"#;

#[test]
fn a_transfer_pays_tells_and_ends(rt: HostRuntime) -> Result<(), Fail> {
    let steps = [
        LOAD,
        ("start m1 move a b 3", "entry 3 m1"),
        ("turn m1", "began 3"),
        ("turn m1", "entry 4"),
        ("turn m1", "entry 5, called m1 1 notify b 3: value null"),
        ("turn m1", "entry 6"),
        ("turn m1", "none SUCCESS"),
        ("status m1", TRANSFERRED),
        ("get acct a", "7"),
        ("get acct b", "8"),
        ("len", "6"),
    ];
    played(&rt, rt.alloc(), BANK, &steps)
}

#[test]
fn of_two_transfers_from_one_account_the_second_loses(rt: HostRuntime) -> Result<(), Fail> {
    let steps = [
        LOAD,
        ("start s1 send a b 3", "entry 3 s1"),
        ("start s2 send a c 4", "entry 4 s2"),
        ("turn s1", "began 4"),
        ("turn s2", "began 4"),
        ("turn s1", "entry 5"),
        ("turn s2", "conflict 5"),
        ("turn s2", "began 5"),
        ("turn s2", "entry 6"),
        ("get acct a", "3"),
    ];
    played(&rt, rt.alloc(), BANK, &steps)
}

// Entries 5 and 6 wrote a key of s2's transaction.
#[test]
fn a_transaction_that_loses_is_told_the_first_later_writer(rt: HostRuntime) -> Result<(), Fail> {
    let steps = [
        LOAD,
        ("start s1 send a b 3", "entry 3 s1"),
        ("start s2 send a c 4", "entry 4 s2"),
        ("turn s2", "began 4"),
        ("turn s1", "began 4"),
        ("turn s1", "entry 5"),
        ("load acct", "entry 6"),
        ("turn s2", "conflict 5"),
        ("len", "6"),
    ];
    played(&rt, rt.alloc(), BANK, &steps)
}

// Each sees the sum of before the other: write skew.
#[test]
fn two_withdrawals_on_one_snapshot_both_pass(rt: HostRuntime) -> Result<(), Fail> {
    let steps = [
        LOAD,
        ("start d1 draw a b 12", "entry 3 d1"),
        ("start d2 draw b a 12", "entry 4 d2"),
        ("turn d1", "began 4"),
        ("turn d2", "began 4"),
        ("turn d1", "entry 5"),
        ("turn d2", "entry 6"),
        (
            "entry 6",
            "txn d2 0 b a 12 on 4; acct.b@2; acct.a@2; acct.b = -7; d2#0 = txn take value -7",
        ),
        ("get acct a", "-2"),
        ("get acct b", "-7"),
    ];
    played(&rt, rt.alloc(), BANK, &steps)
}

// A failed body writes no row, and its failure is the step's.
#[test]
fn a_transaction_that_fails_writes_its_step_alone(rt: HostRuntime) -> Result<(), Fail> {
    let steps = [
        LOAD,
        ("start d1 draw a b 16", "entry 3 d1"),
        ("turn d1", "began 3"),
        ("turn d1", "entry 4"),
        (
            "entry 4",
            "txn d1 0 a b 16 on 3; acct.a@2; acct.b@2; d1#0 = txn take failure short",
        ),
        ("turn d1", "entry 5"),
        (
            "status d1",
            "ERROR draw a b 16; failure short; queue none; started 3; attempts 0; parent none",
        ),
        ("get acct a", "10"),
    ];
    played(&rt, rt.alloc(), BANK, &steps)
}

// The range ends before n, and a deleted key isn't in it. A deletion is a write of its own version.
#[test]
fn a_range_has_the_keys_that_are_present(rt: HostRuntime) -> Result<(), Fail> {
    let steps = [
        ("start p1 puts apple", "entry 2 p1"),
        ("start p2 puts melon", "entry 3 p2"),
        ("start p3 puts nut", "entry 4 p3"),
        ("drain 100", "idle 9"),
        ("len", "10"),
        ("start c1 counts", "entry 11 c1"),
        ("drain 100", "idle 3"),
        (
            "entry 12",
            "txn c1 0 on 11; item[a, n] apple@5 melon@6; c1#0 = txn count value 2",
        ),
        ("start d1 drops apple", "entry 14 d1"),
        ("drain 100", "idle 3"),
        (
            "entry 15",
            "txn d1 0 apple on 14; item.apple = deleted; d1#0 = txn drop_one value apple",
        ),
        ("get item apple", "absent"),
        ("start c2 counts", "entry 17 c2"),
        ("drain 100", "idle 3"),
        (
            "entry 18",
            "txn c2 0 on 17; item[a, n] melon@6; c2#0 = txn count value 1",
        ),
    ];
    played(&rt, rt.alloc(), ITEMS, &steps)
}

// A key that comes into the range since is no conflict: only keys that are written are.
#[test]
fn a_range_that_has_changed_since_is_no_conflict(rt: HostRuntime) -> Result<(), Fail> {
    let steps = [
        ("start t1 tallies", "entry 2 t1"),
        ("start p1 puts kiwi", "entry 3 p1"),
        ("turn t1", "began 3"),
        ("turn p1", "began 3"),
        ("turn p1", "entry 4"),
        ("turn t1", "entry 5"),
        (
            "entry 5",
            "txn t1 0 on 3; item[a, n]; item.tally = 0; t1#0 = txn tally value 0",
        ),
        ("get item tally", "0"),
    ];
    played(&rt, rt.alloc(), ITEMS, &steps)
}

// A deletion is a write, and so it makes another writer of the key lose.
#[test]
fn a_deletion_makes_another_writer_lose(rt: HostRuntime) -> Result<(), Fail> {
    let steps = [
        ("start p1 puts kiwi", "entry 2 p1"),
        ("start d1 drops kiwi", "entry 3 d1"),
        ("turn p1", "began 3"),
        ("turn d1", "began 3"),
        ("turn d1", "entry 4"),
        ("turn p1", "conflict 4"),
        ("get item kiwi", "absent"),
    ];
    played(&rt, rt.alloc(), ITEMS, &steps)
}

// A recorded step of another name: nothing is appended.
#[test]
fn a_step_of_another_name_is_unexpected(rt: HostRuntime) -> Result<(), Fail> {
    let first = [
        ("start p1 puts kiwi", "entry 2 p1"),
        ("turn p1", "began 2"),
        ("turn p1", "entry 3"),
    ];
    let later = [
        ("turn p1", "unexpected 0 recorded put_one asked put_all"),
        ("len", "3"),
    ];
    played_again(&rt, rt.alloc(), ITEMS, &first, RENAMED, &later)
}
