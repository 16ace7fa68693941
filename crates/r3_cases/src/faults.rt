//! Device calls that fail, each in a run of its own.

use crate::answers::asked_words;
use crate::bank::BANK;
use crate::play::{LOAD, TRANSFERRED, desk_over, play, taken_up};
use crate::steps::step;
use r3_exec::ExecFault;
use r3_recover::StartFault;
use std::alloc::Global;
use std::process::Abort;
use std::test::Fail;

const BEGUN: &[(&str, &str)] = &[
    LOAD,
    ("start m1 move a b 3", "entry 3 m1"),
    ("turn m1", "began 3"),
    ("turn m1", "entry 4"),
];

const ENDED: &[(&str, &str)] = &[
    ("turn m1", "entry 6"),
    ("turn m1", "none SUCCESS"),
    ("status m1", TRANSFERRED),
    ("settle", "settled"),
];

// What the failed call came to.
#[derive(Clone, Copy, Debug, PartialEq, Eq)]
enum Failed {
    // The store wasn't opened.
    Opening,
    // The executor told a fault of the disk.
    Disk,
    // The external call was made again.
    Again,
    // No call has that number.
    Nothing,
}

fn of_exec(fault: ExecFault) -> Result<Failed, Fail> {
    match fault {
        ExecFault::Disk => Ok(Failed::Disk),
        ExecFault::Memory => Err(Fail::from("out of memory")),
    }
}

// A transfer, of whose device calls the one of this number fails.
fn transfer(rt: &impl Abort, alloc: Global, number: u64) -> Result<Failed, Fail> {
    let mut desk = desk_over(alloc, &[], number)?;
    let mut exec = match taken_up(alloc, &mut desk, BANK) {
        Ok(exec) => exec,
        Err(StartFault::Disk) => return Ok(Failed::Opening),
        Err(_) => return Err(Fail::from("no other fault comes")),
    };
    if let Err(fault) = play(rt, alloc, &mut desk, &mut exec, BEGUN) {
        return of_exec(fault);
    }
    let first = match step(alloc, &mut desk, &mut exec, "turn m1") {
        Ok(first) => first,
        Err(fault) => return of_exec(fault),
    };
    let again = first.as_str() == "again";
    let calls = if again {
        "m1 1 notify b 3: none; m1 1 notify b 3: value null; "
    } else {
        "m1 1 notify b 3: value null; "
    };
    let second = if again {
        ("turn m1", "entry 5")
    } else {
        ("len", "5")
    };
    assert!(rt; again || first.as_str() == "entry 5", "at call {number}");
    if let Err(fault) = play(rt, alloc, &mut desk, &mut exec, &[second]) {
        return of_exec(fault);
    }
    if let Err(fault) = play(rt, alloc, &mut desk, &mut exec, ENDED) {
        return of_exec(fault);
    }
    let asked = asked_words(alloc, &desk)?;
    assert_eq!(rt; asked.as_str(), calls, "at call {number}");
    Ok(if again {
        Failed::Again
    } else {
        Failed::Nothing
    })
}

fn count_of(ends: &[Failed], wanted: Failed) -> usize {
    ends.iter().filter(|end| **end == wanted).count()
}

// A fault of the disk is told as such; a failed external call is made again at the next turn.
#[test]
fn each_device_call_may_fail(rt: HostRuntime) -> Result<(), Fail> {
    let alloc = rt.alloc();
    let mut ends = Vec::new(alloc);
    for call in 1..1000 {
        let end = transfer(&rt, alloc, call)?;
        if end == Failed::Nothing {
            break;
        }
        ends.push(end)?;
    }
    // No more calls are made than these.
    assert!(rt; ends.len() < 999);
    assert_eq!(rt; count_of(&ends, Failed::Again), 1);
    assert!(rt; ends.contains(&Failed::Opening) && ends.contains(&Failed::Disk));
    Ok(())
}
