//! What no clause says: calls succeed with ample memory. Images by hand, and the counts of faults.

use super::*;
use crate::{AskFault, DiskFault, SayFault};
use std::alloc::Global;
use std::test::Fail;

// A desk over the six bytes `abcdef`.
fn desk_with(alloc: Global, fails: &[u64], calls: u32, bytes: u32) -> Result<MemDesk, Fail> {
    let mut answers = Vec::new(alloc);
    answers.push(Outcome::Value(Val::Int(7)))?;
    let image = b"abcdef".to_vec(alloc)?;
    let fails = fails.to_vec(alloc)?;
    let desk = MemDesk::new(alloc, image, answers, fails, Room { calls, bytes })?;
    Ok(desk)
}

// A write within the image or at its end.
fn write(desk: &mut MemDesk, at: u64, bytes: &[u8]) -> Result<Result<(), DiskFault>, Fail> {
    if at > desk.image().len() as u64 {
        return Err(Fail::from("past the end"));
    }
    Ok(desk.write_at(at, bytes))
}

// The image of a crash after calls that were recorded.
fn left(desk: &MemDesk, moment: u64, torn: Torn) -> Result<Vec<u8>, Fail> {
    if moment > desk.moment() {
        return Err(Fail::from("too late"));
    }
    let image = desk.crash(moment, torn)?;
    Ok(image)
}

#[test]
fn a_crash_keeps_what_was_synced_and_tears_the_rest(rt: HostRuntime) -> Result<(), Fail> {
    let alloc = rt.alloc();
    let mut desk = desk_with(alloc, &[], 10, 20)?;
    write(&mut desk, 2, b"XY")??;
    desk.sync()?;
    write(&mut desk, 5, b"12")??;
    write(&mut desk, 0, b"Q")??;
    desk.say(b"hi")?;
    desk.sync()?;
    write(&mut desk, 7, b"z")??;
    assert_eq!(rt; desk.moment(), 7);
    assert_eq!(rt; desk.image(), b"QbXYe12z".as_slice());
    // device calls, image where nothing, all and torn bytes of the unsynced writes are left
    let cases = [
        (
            0,
            b"abcdef".as_slice(),
            b"abcdef".as_slice(),
            b"abcdef".as_slice(),
        ),
        (1, b"abcdef", b"abXYef", b"ab??ef"),
        (2, b"abXYef", b"abXYef", b"abXYef"),
        (3, b"abXYef", b"abXYe12", b"abXYe??"),
        (4, b"abXYef", b"QbXYe12", b"?bXYe??"),
        (5, b"abXYef", b"QbXYe12", b"?bXYe??"),
        (6, b"QbXYe12", b"QbXYe12", b"QbXYe12"),
        (7, b"QbXYe12", b"QbXYe12z", b"QbXYe12?"),
    ];
    for (moment, old, new, fill) in cases {
        let image = left(&desk, moment, Torn::Old)?;
        assert_eq!(rt; image.as_slice(), old, "nothing left after {moment} calls");
        let image = left(&desk, moment, Torn::New)?;
        assert_eq!(rt; image.as_slice(), new, "all left after {moment} calls");
        let image = left(&desk, moment, Torn::Fill(b'?'))?;
        assert_eq!(rt; image.as_slice(), fill, "torn after {moment} calls");
    }
    Ok(())
}

#[test]
fn calls_fail_by_their_number_and_change_nothing(rt: HostRuntime) -> Result<(), Fail> {
    let alloc = rt.alloc();
    let mut desk = desk_with(alloc, &[2, 4, 5, 6], 10, 20)?;
    let mut part = [0u8; 4];
    assert_eq!(rt; desk.len(), Ok(6));
    assert_eq!(rt; desk.read(3, &mut part), Err(DiskFault));
    assert_eq!(rt; desk.read(3, &mut part), Ok(3));
    assert_eq!(rt; part, *b"def\0");
    assert_eq!(rt; write(&mut desk, 0, b"Z")?, Err(DiskFault));
    assert_eq!(rt; desk.sync(), Err(DiskFault));
    assert_eq!(rt; desk.say(b"hi"), Err(SayFault));
    assert_eq!(rt; desk.say(b"ho"), Ok(()));
    assert_eq!(rt; desk.image(), b"abcdef".as_slice());
    assert_eq!(rt; desk.said(), b"ho".as_slice());
    assert_eq!(rt; desk.moment(), 7);
    assert_eq!(rt; desk.disk_faults, 3);
    assert_eq!(rt; desk.say_faults, 1);
    assert_eq!(rt; desk.ask_faults, 0);
    Ok(())
}

#[test]
fn calls_past_the_room_fail_unrecorded(rt: HostRuntime) -> Result<(), Fail> {
    let alloc = rt.alloc();
    let mut desk = desk_with(alloc, &[], 4, 5)?;
    assert_eq!(rt; write(&mut desk, 6, b"ghi")?, Ok(()));
    assert_eq!(rt; desk.say(b"one"), Err(SayFault));
    assert_eq!(rt; desk.say(b"ok"), Ok(()));
    assert_eq!(rt; write(&mut desk, 0, b"Z")?, Err(DiskFault));
    assert_eq!(rt; desk.len(), Err(DiskFault));
    assert_eq!(rt; desk.moment(), 2);
    // an external call is recorded nevertheless
    desk.ask("m1", 1, "notify", &Val::Null)?;
    assert_eq!(rt; desk.moment(), 3);
    assert_eq!(rt; desk.image(), b"abcdefghi".as_slice());
    assert_eq!(rt; desk.said(), b"ok".as_slice());
    Ok(())
}

#[test]
fn external_calls_are_answered_in_order(rt: HostRuntime) -> Result<(), Fail> {
    let alloc = rt.alloc();
    let mut desk = desk_with(alloc, &[1], 10, 20)?;
    assert!(rt;
        matches!(
            desk.ask("m1", 1, "notify", &Val::Int(5)),
            Err(AskFault::Fault)
        )
    );
    // the answer that was given, and then null
    for want in [Outcome::Value(Val::Int(7)), Outcome::Value(Val::Null)] {
        let got = desk.ask("m1", 2, "notify", &Val::Int(5))?;
        assert!(rt; got.same(&want));
    }
    assert_eq!(rt; desk.ask_faults, 1);
    let asked = desk.asked();
    assert_eq!(rt; asked.len(), 3);
    let first = &asked[0];
    assert_eq!(rt; first.id.as_str(), "m1");
    assert_eq!(rt; first.n, 1);
    assert_eq!(rt; first.name.as_str(), "notify");
    assert!(rt; first.args.same(&Val::Int(5)));
    assert!(rt; first.answer.is_none());
    let second = &asked[1];
    assert_eq!(rt; second.n, 2);
    assert!(rt; second.answer.is_some());
    Ok(())
}
