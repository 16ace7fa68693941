//! What no clause says: bytes by hand, edges of limits, and a crash at each device call of a commit.

ghost use Rattle.std.specs.Prelude.{IfOk};
ghost use Rattle.r3_desk.specs.Crash.{NothingPending};

use super::*;
use r3_desk::{Desk, MemDesk, Room, Torn};
use std::alloc::Global;
use std::test::Fail;

// "ab", "c" and "def", committed: the commit bytes stand at 8, 15, 21 and 29.
const THREE: [u8; 30] = *b"R3STORE1\xa5\0\0\0\x02ab\xa5\0\0\0\x01c\xa5\0\0\0\x03def\0";

fn desk_over(alloc: Global, image: &[u8]) -> Result<MemDesk, Fail>
    ensures { IfOk result (λ desk.
        NothingPending (⟦<MemDesk as Desk>⟧.image desk) (⟦<MemDesk as Desk>⟧.may_leave desk)) }
{
    let room = Room {
        calls: 30,
        bytes: 200,
    };
    let image = image.to_vec(alloc)?;
    let desk = MemDesk::new(alloc, image, Vec::new(alloc), Vec::new(alloc), room)?;
    Ok(desk)
}

// What opening a file answers: its payloads one after another, each with a bar behind it.
fn read(alloc: Global, image: &[u8]) -> Result<Result<Vec<u8>, GateFault>, Fail> {
    let mut desk = desk_over(alloc, image)?;
    let payloads = match Gate::open(alloc, &mut desk) {
        Ok((_, payloads)) => payloads,
        Err(fault) => return Ok(Err(fault)),
    };
    let mut text = Vec::new(alloc);
    for payload in &payloads.list {
        text.extend_from_slice(payload)?;
        text.push(b'|')?;
    }
    Ok(Ok(text))
}

#[test]
fn a_changed_byte_is_read_by_the_format(rt: HostRuntime) -> Result<(), Fail> {
    let alloc = rt.alloc();
    // place, byte, what is read
    let cases = [
        (8, 0x00, Ok(b"".as_slice())),
        (8, 0x37, Ok(b"".as_slice())),
        (15, 0x00, Ok(b"ab|".as_slice())),
        (15, 0x37, Ok(b"ab|".as_slice())),
        (21, 0x00, Ok(b"ab|c|".as_slice())),
        (21, 0x37, Ok(b"ab|c|".as_slice())),
        (29, 0x37, Ok(b"ab|c|def|".as_slice())),
        (29, 0xa5, Err(GateFault::Damaged { entry: 4 })),
        (12, 0x00, Err(GateFault::Damaged { entry: 1 })),
        (16, 0x01, Err(GateFault::Damaged { entry: 2 })),
        (25, 0x04, Err(GateFault::Damaged { entry: 3 })),
        (7, b'2', Err(GateFault::NotStore)),
    ];
    for (place, byte, want) in cases {
        let mut image = THREE;
        if place < image.len() {
            image[place] = byte;
        }
        let got = read(alloc, &image)?;
        match (got, want) {
            (Ok(got), Ok(want)) => assert_eq!(rt; got.as_slice(), want, "{byte} at {place}"),
            (Err(got), Err(want)) => assert_eq!(rt; got, want, "{byte} at {place}"),
            _ => assert!(rt; false, "{byte} at {place}"),
        }
    }
    Ok(())
}

#[test]
fn a_file_is_cut_to_each_length(rt: HostRuntime) -> Result<(), Fail> {
    let alloc = rt.alloc();
    for len in 0..=THREE.len() {
        let got = read(alloc, &THREE[..len])?;
        let want = match len {
            0..=9 => None,
            10..=15 => Some(GateFault::Damaged { entry: 1 }),
            16..=21 => Some(GateFault::Damaged { entry: 2 }),
            22..=29 => Some(GateFault::Damaged { entry: 3 }),
            _ => None,
        };
        assert_eq!(rt; got.err(), want, "cut to {len} bytes");
    }
    Ok(())
}

// Opens the log, stages these payloads and publishes them.
fn append<D: Desk>(alloc: Global, desk: &mut D, payloads: &[&[u8]]) -> Result<(), Fail>
    requires { NothingPending (D.image desk.old) (D.may_leave desk.old) }
{
    let (mut gate, _before) = Gate::open(alloc, desk)?;
    for payload in payloads {
        if payload.is_empty() || payload.len() > 100 {
            return Err(Fail::from("no payload"));
        }
        gate.stage(alloc, desk, payload)?;
    }
    if !gate.has_staged() {
        return Err(Fail::from("nothing is staged"));
    }
    gate.publish(desk)?;
    Ok(())
}

// What opening the file answers that a crash leaves after so many device calls.
fn read_after(
    alloc: Global,
    desk: &MemDesk,
    moment: u64,
    torn: Torn,
) -> Result<Result<Vec<u8>, GateFault>, Fail> {
    if moment > desk.moment() {
        return Err(Fail::from("no such moment"));
    }
    let image = desk.crash(moment, torn)?;
    read(alloc, &image)
}

#[test]
fn a_record_takes_the_place_of_one_that_was_not_committed(rt: HostRuntime) -> Result<(), Fail> {
    let alloc = rt.alloc();
    for byte in [0x00, 0x37] {
        let mut image = *b"R3STORE1\xa5\0\0\0\x02ab\xa5\0\0\0\x01c\0";
        image[15] = byte;
        let mut desk = desk_over(alloc, &image)?;
        append(alloc, &mut desk, &[b"d"])?;
        let want = b"R3STORE1\xa5\0\0\0\x02ab\xa5\0\0\0\x01d\0".as_slice();
        assert_eq!(rt; desk.image(), want, "behind {byte}");
    }
    Ok(())
}

#[test]
fn a_crash_leaves_all_that_was_staged_or_none_of_it(rt: HostRuntime) -> Result<(), Fail> {
    let alloc = rt.alloc();
    // a file, its payloads, those with "c", "def" and "g", and the call that opens the commit byte
    let cases = [
        (b"".as_slice(), b"".as_slice(), b"c|def|g|".as_slice(), 8),
        (b"R3STORE1\xa5\0\0\0\x02ab\0", b"ab|", b"ab|c|def|g|", 7),
    ];
    for (image, before, after, opening) in cases {
        let mut desk = desk_over(alloc, image)?;
        append(alloc, &mut desk, &[b"c", b"def", b"g"])?;
        assert!(rt; desk.moment() > opening);
        for moment in 0..=desk.moment() {
            for torn in [Torn::Old, Torn::New, Torn::Fill(0x37), Torn::Fill(0xa5)] {
                // that call isn't synced yet
                let may_open = moment == opening && matches!(torn, Torn::New | Torn::Fill(0xa5));
                let want = if moment > opening || may_open {
                    after
                } else {
                    before
                };
                let got = read_after(alloc, &desk, moment, torn)?;
                assert_eq!(rt; got?.as_slice(), want, "{torn:?} after {moment} calls");
            }
        }
    }
    Ok(())
}
