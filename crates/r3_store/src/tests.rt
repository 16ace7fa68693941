//! Stores over a disk in memory, on files whose bytes are written by hand.

ghost use Rattle.std.specs.Prelude.{IfOk};
ghost use Rattle.r3_desk.specs.Crash.{NothingPending};

mod commits;
mod crashes;
mod opening;
mod rules;
mod snapshots;

use crate::{OpenFault, Store};
use r3_desk::{Desk, MemDesk, Room};
use std::alloc::Global;
use std::test::Fail;

// The text `table acct;`, behind no entry.
const PROGRAM: &str = "01 0000000b 7461626c6520616363743b 00000000 00000000 00000000";

// Row a of acct becomes 10, behind one entry.
const LOAD: &str =
    "02 00000001 00000000 00000001 00 00000004 61636374 00000001 61 01 00 02 000000000000000a";

fn desk_over(alloc: Global, image: Vec<u8>) -> Result<MemDesk, Fail>
    ensures { IfOk result (λ desk.
        NothingPending (⟦<MemDesk as Desk>⟧.image desk) (⟦<MemDesk as Desk>⟧.may_leave desk)) }
{
    let room = Room {
        calls: 1000,
        bytes: 200,
    };
    let desk = MemDesk::new(alloc, image, Vec::new(alloc), Vec::new(alloc), room)?;
    Ok(desk)
}

// The bytes of hexadecimal digits; what is no digit doesn't count.
fn put_digits(bytes: &mut Vec<u8>, digits: &str) -> Result<(), Fail> {
    let mut high: Option<u8> = None;
    for digit in digits.as_bytes() {
        let value = match *digit {
            b'0'..=b'9' => *digit - b'0',
            b'a'..=b'f' => *digit - b'a' + 10,
            _ => 16,
        };
        if value < 16 {
            match high {
                None => high = Some(value),
                Some(front) => {
                    bytes.push(front.wrapping_mul(16).wrapping_add(value))?;
                    high = None;
                }
            }
        }
    }
    Ok(())
}

fn payload_of(alloc: Global, pieces: &[&str]) -> Result<Vec<u8>, Fail> {
    let mut payload = Vec::new(alloc);
    for digits in pieces {
        put_digits(&mut payload, digits)?;
    }
    Ok(payload)
}

fn put_record(image: &mut Vec<u8>, payload: &[u8]) -> Result<(), Fail> {
    let len = u32::try_from(payload.len()).unwrap_or(u32::MAX);
    image.push(0xa5)?;
    image.extend_from_slice(&len.to_be_bytes())?;
    image.extend_from_slice(payload)?;
    Ok(())
}

// The entries before, and behind them one of this payload, so many times.
fn image_of(alloc: Global, before: &[&str], payload: &[u8], count: u32) -> Result<Vec<u8>, Fail> {
    let mut image = b"R3STORE1".to_vec(alloc)?;
    for digits in before {
        let payload = payload_of(alloc, &[digits])?;
        put_record(&mut image, &payload)?;
    }
    for _ in 0..count {
        put_record(&mut image, payload)?;
    }
    image.push(0)?;
    Ok(image)
}

// The number of entries.
fn opened(alloc: Global, image: Vec<u8>) -> Result<Result<u32, OpenFault>, Fail> {
    let mut desk = desk_over(alloc, image)?;
    match Store::open(alloc, &mut desk) {
        Ok(store) => Ok(Ok(store.len())),
        Err(fault) => Ok(Err(fault)),
    }
}
