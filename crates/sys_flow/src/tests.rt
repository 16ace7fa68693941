use super::*;
use r3_rows::{FlowRow, Status};
use r3_value::{Outcome, Txt, Val};
use std::alloc::Global;
use std::test::*;

const STATUSES: [Status; 6] = [
    Status::Enqueued,
    Status::Pending,
    Status::Success,
    Status::Error,
    Status::Cancelled,
    Status::MaxRecoveryAttemptsExceeded,
];

#[test]
fn statuses_allow_these_commands(rt: HostRuntime) {
    // may be cancelled, may be resumed, by status
    let cases = [
        (true, false),
        (true, false),
        (false, false),
        (false, false),
        (false, true),
        (false, true),
    ];
    for i in 0..6 {
        let status = STATUSES[i];
        assert_eq!(rt; may_cancel(status), cases[i].0, "cancel {status:?}");
        assert_eq!(rt; may_resume(status), cases[i].1, "resume {status:?}");
    }
}

#[test]
fn fifty_recoveries_are_allowed(rt: HostRuntime) {
    let most = Status::MaxRecoveryAttemptsExceeded;
    for status in STATUSES {
        // attempts before, status and attempts after
        let cases = [
            (0, status, 1),
            (1, status, 2),
            (49, status, 50),
            (50, most, 51),
            (51, most, 51),
        ];
        for (attempts, want, counted) in cases {
            let got = recovered(status, attempts);
            assert!(rt;
                got.0 == want && got.1 == counted,
                "{status:?} at {attempts}"
            );
        }
    }
}

#[test]
fn a_child_id_has_at_most_200_bytes(rt: HostRuntime) -> Result<(), Fail> {
    let alloc = rt.alloc();
    // bytes of the parent's ID, step, bytes of the child's ID or 0
    let cases = [
        (1, 0, 3),
        (198, 9, 200),
        (198, 10, 0),
        (197, 10, 200),
        (197, 100, 0),
        (195, 999, 199),
        (200, 0, 0),
    ];
    for (parent, n, want) in cases {
        assert_eq!(rt;
            child_bytes(alloc, parent, n)?,
            want,
            "step {n} of {parent} bytes"
        );
    }
    assert_eq!(rt; child_id(alloc, "p1", 0)?.as_str(), "p1-0");
    assert_eq!(rt; child_id(alloc, "p1-0", 999)?.as_str(), "p1-0-999");
    Ok(())
}

fn child_bytes(alloc: Global, parent: u32, n: u32) -> Result<usize, Fail> {
    let mut text = String::new(alloc);
    for _ in 0..parent {
        text.push_str("p")?;
    }
    match child_id(alloc, text.as_str(), n) {
        Ok(id) => Ok(id.as_str().len()),
        Err(ChildFault::Id) => Ok(0),
        Err(ChildFault::Memory) => Ok(1),
    }
}

// A workflow that began with entry 3.
fn workflow(alloc: Global, status: Status) -> Result<FlowRow, Fail> {
    let function = Txt::new(alloc, "send")?;
    Ok(FlowRow {
        status,
        function,
        args: Val::Null,
        outcome: Some(Outcome::Value(Val::Int(8))),
        queue: None,
        started: 3,
        attempts: 0,
        parent: None,
    })
}

fn meets(row: &FlowRow, function: &str, want: Repeat) -> bool {
    repeat_of(Some(row), function) == want
}

#[test]
fn a_known_id_is_a_repeat_or_a_conflict(rt: HostRuntime) -> Result<(), Fail> {
    assert!(rt; repeat_of(None, "send") == Repeat::Fresh);
    let row = workflow(rt.alloc(), Status::Success)?;
    assert!(rt; meets(&row, "send", Repeat::Known { started: 3 }));
    assert!(rt; meets(&row, "move", Repeat::Conflict));
    Ok(())
}

fn awaits(alloc: Global, row: Option<&FlowRow>) -> bool {
    match awaited_of(alloc, row) {
        Ok(Awaited::Waiting) => true,
        _ => false,
    }
}

fn answers_eight(alloc: Global, row: Option<&FlowRow>) -> bool {
    match awaited_of(alloc, row) {
        Ok(Awaited::Answer(Outcome::Value(value))) => value.same(&Val::Int(8)),
        _ => false,
    }
}

fn fails_with(alloc: Global, row: Option<&FlowRow>, word: &str) -> bool {
    match awaited_of(alloc, row) {
        Ok(Awaited::Answer(Outcome::Failure(got))) => got.as_str() == word,
        _ => false,
    }
}

fn as_wanted(alloc: Global, status: Status, word: &str) -> Result<bool, Fail> {
    let row = workflow(alloc, status)?;
    match word {
        "waits" => Ok(awaits(alloc, Some(&row))),
        "eight" => Ok(answers_eight(alloc, Some(&row))),
        _ => Ok(fails_with(alloc, Some(&row), word)),
    }
}

#[test]
fn an_await_finds_what_the_status_says(rt: HostRuntime) -> Result<(), Fail> {
    let alloc = rt.alloc();
    let wants = ["waits", "waits", "eight", "eight", "cancelled", "attempts"];
    for i in 0..6 {
        let status = STATUSES[i];
        assert!(rt; as_wanted(alloc, status, wants[i])?, "{status:?}");
    }
    assert!(rt; fails_with(alloc, None, "unknown_id"));
    Ok(())
}

#[test]
fn a_text_of_any_length_is_kept(rt: HostRuntime) -> Result<(), Fail> {
    let alloc = rt.alloc();
    let text = Text::from_string(String::from_str(alloc, "acct")?);
    let copied = text.copy()?;
    assert_eq!(rt; copied.as_str(), "acct");
    assert_eq!(rt; text.into_string().as_str(), "acct");
    Ok(())
}
