//! What transactions see, what they leave, and which of them lose.

use crate::bank::{BANK, LEDGER};
use crate::entries::told;
use crate::play::{LOAD, played};
use std::test::Fail;

// Neither a row that goes meanwhile nor one that comes is seen.
#[test]
fn a_range_is_read_as_of_the_snapshot(rt: HostRuntime) -> Result<(), Fail> {
    let alloc = rt.alloc();
    let steps = [
        LOAD,
        ("start t1 sum a c", "entry 3 t1"),
        ("start c1 close b", "entry 4 c1"),
        ("turn t1", "began 4"),
        ("turn c1", "began 4"),
        ("turn c1", "entry 5"),
        ("get acct b", "absent"),
        ("turn t1", "entry 6"),
        ("get sums a", "15"),
        ("start t2 sum a c", "entry 7 t2"),
        ("turn t2", "began 7"),
        ("start o1 open aa 1", "entry 8 o1"),
        ("turn o1", "began 8"),
        ("turn o1", "entry 9"),
        ("turn t2", "entry 10"),
        ("get sums a", "10"),
        ("start t3 sum a d", "entry 11 t3"),
        ("turn t3", "began 11"),
        ("turn t3", "entry 12"),
        ("start t4 sum c a", "entry 13 t4"),
        ("turn t4", "began 13"),
        ("turn t4", "entry 14"),
    ];
    let desk = played(&rt, alloc, &[], LEDGER, &steps)?;
    let entries = [
        (
            5,
            "txn c1 0 b; on 4; reads acct/b@2; writes acct/b- c1.0=txn remove value 5",
        ),
        (
            6,
            "txn t1 0 a c; on 4; reads acct/[a,c),a@2,b@2; \
                writes sums/a=15 t1.0=txn total value 15",
        ),
        (
            9,
            "txn o1 0 aa 1; on 8; reads acct/aa@0; writes acct/aa=1 o1.0=txn add value 1",
        ),
        (
            10,
            "txn t2 0 a c; on 7; reads acct/[a,c),a@2; writes sums/a=10 t2.0=txn total value 10",
        ),
        (
            12,
            "txn t3 0 a d; on 11; reads acct/[a,d),a@2,aa@9,c@2; \
                writes sums/a=11 t3.0=txn total value 11",
        ),
        (
            14,
            "txn t4 0 c a; on 13; reads acct/[c,a); writes sums/c=0 t4.0=txn total value 0",
        ),
    ];
    told(&rt, alloc, &desk, &entries)?;
    Ok(())
}

// It has a version and conflicts as a value does, also where nothing was there.
#[test]
fn a_deletion_is_a_write(rt: HostRuntime) -> Result<(), Fail> {
    let alloc = rt.alloc();
    let steps = [
        LOAD,
        ("start c1 close b", "entry 3 c1"),
        ("turn c1", "began 3"),
        ("turn c1", "entry 4"),
        ("start c2 close b", "entry 5 c2"),
        ("turn c2", "began 5"),
        ("turn c2", "entry 6"),
        ("start o1 open b 7", "entry 7 o1"),
        ("turn o1", "began 7"),
        ("start c3 close b", "entry 8 c3"),
        ("turn c3", "began 8"),
        ("turn c3", "entry 9"),
        ("turn o1", "conflict 9"),
        ("turn o1", "began 9"),
        ("turn o1", "entry 10"),
        ("get acct b", "7"),
    ];
    let desk = played(&rt, alloc, &[], LEDGER, &steps)?;
    let entries = [
        (
            4,
            "txn c1 0 b; on 3; reads acct/b@2; writes acct/b- c1.0=txn remove value 5",
        ),
        (
            6,
            "txn c2 0 b; on 5; reads acct/b@4; writes acct/b- c2.0=txn remove value null",
        ),
        (
            10,
            "txn o1 0 b 7; on 9; reads acct/b@9; writes acct/b=7 o1.0=txn add value 7",
        ),
    ];
    told(&rt, alloc, &desk, &entries)?;
    // the row stands again where the store is taken up
    let steps = [
        ("get acct b", "7"),
        ("start o2 open b 8", "entry 15 o2"),
        ("turn o2", "began 15"),
        ("turn o2", "entry 16"),
        ("turn o2", "entry 17"),
        (
            "status o2",
            "ERROR open b 8; failure there; queue none; started 15; attempts 0; parent none",
        ),
    ];
    played(&rt, alloc, desk.image(), LEDGER, &steps)?;
    Ok(())
}

// The first entry is told, and neither the newest nor that of the first key.
#[test]
fn of_several_conflicts_the_first_is_told(rt: HostRuntime) -> Result<(), Fail> {
    let steps = [
        LOAD,
        ("start s1 send a b 1", "entry 3 s1"),
        ("start s2 send a c 1", "entry 4 s2"),
        ("turn s1", "began 4"),
        ("turn s2", "began 4"),
        ("turn s2", "entry 5"),
        ("load acct", "entry 6"),
        ("load acct", "entry 7"),
        ("turn s1", "conflict 5"),
        ("turn s1", "began 7"),
        ("put acct c 9", "entry 8"),
        ("put acct b 50", "entry 9"),
        ("put acct a 40", "entry 10"),
        ("put acct b 51", "entry 11"),
        ("turn s1", "conflict 9"),
        // what was written up to the snapshot is no conflict, and nor is another key
        ("turn s1", "began 11"),
        ("put acct c 8", "entry 12"),
        ("turn s1", "entry 13"),
        ("get acct a", "39"),
        ("get acct b", "52"),
    ];
    played(&rt, rt.alloc(), &[], BANK, &steps)?;
    Ok(())
}

// It writes no row, whatever was written since, and its workflow may go on.
#[test]
fn a_failed_transaction_loses_to_nobody(rt: HostRuntime) -> Result<(), Fail> {
    let alloc = rt.alloc();
    let steps = [
        LOAD,
        ("start d1 draw a b 100", "entry 3 d1"),
        ("start s1 send a b 1", "entry 4 s1"),
        ("turn d1", "began 4"),
        ("turn s1", "began 4"),
        ("turn s1", "entry 5"),
        ("turn d1", "entry 6"),
        ("turn d1", "entry 7"),
        (
            "status d1",
            "ERROR draw a b 100; failure short; queue none; started 3; attempts 0; parent none",
        ),
        ("get acct a", "9"),
    ];
    let desk = played(&rt, alloc, &[], BANK, &steps)?;
    let entries = [(
        6,
        "txn d1 0 a b 100; on 4; reads acct/a@2 acct/b@2; writes d1.0=txn take failure short",
    )];
    told(&rt, alloc, &desk, &entries)?;
    Ok(())
}
