//! Histories as bytes by hand: which entry may stand behind others, and what their versions tell.

ghost use Rattle.std.specs.Prelude.{IsTrue};
ghost use Rattle.std.specs.List.{AllByRecursion};
ghost use Rattle.r3_gate.specs.Log.{Fits, IsPayload};
ghost use Rattle.r3_formed.specs.Load.{bytes_of};

mod looks;
mod rules;

use crate::{LoadFault, Loaded, load};
use std::alloc::Global;
use std::test::Fail;

// The text `table acct;`, behind no entry.
const PROGRAM: &str = "01 0000000b 7461626c6520616363743b 00000000 00000000 00000000";

// Row a of acct becomes 10, behind one entry.
const LOAD: &str =
    "02 00000001 00000000 00000001 00 00000004 61636374 00000001 61 01 00 02 000000000000000a";

// The workflow s1 was started.
const STARTED: &str =
    "03 00000002 7331 00000001 00000000 00000001 01 00000002 7331 01 01 01 00000003 706179 04 00000000 00 00 00000002 00000000 00";

// The bytes of hexadecimal digits; what is no digit doesn't count.
fn put_digits(bytes: &mut Vec<u8>, digits: &str) -> Result<(), Fail> {
    let mut high: Option<u8> = None;
    for digit in digits.as_bytes() {
        let value = match *digit {
            b'0'..=b'9' => *digit - b'0',
            b'a'..=b'f' => *digit - b'a' + 10,
            _ => 16,
        };
        if value < 16 {
            match high {
                None => high = Some(value),
                Some(front) => {
                    bytes.push(front.wrapping_mul(16).wrapping_add(value))?;
                    high = None;
                }
            }
        }
    }
    Ok(())
}

fn payload_of(alloc: Global, pieces: &[&str]) -> Result<Vec<u8>, Fail> {
    let mut payload = Vec::new(alloc);
    for digits in pieces {
        put_digits(&mut payload, digits)?;
    }
    Ok(payload)
}

fn is_short(payload: &Vec<u8>) -> bool
    ensures { IsTrue result → IsPayload payload.now.items }
{
    let len = payload.len();
    1 <= len && len <= 1 << 23
}

fn are_short(payloads: &[Vec<u8>]) -> bool
    ensures { IsTrue result → AllByRecursion (λ p. IsPayload p.items) payloads.now }
{
    'payloads: for payload in payloads {
        if !is_short(payload) {
            return false;
        }
    }
    true
}

// Whether a log has room for the payloads, of which there are few.
fn are_few(payloads: &[Vec<u8>]) -> bool
    ensures { IsTrue result → Fits (bytes_of payloads.now) }
{
    payloads.len() <= 4 && are_short(payloads)
}

// What the entries before, and one of this payload behind them, are read as.
fn read_with(
    alloc: Global,
    before: &[&str],
    payload: Vec<u8>,
    keep: bool,
) -> Result<Result<Loaded, LoadFault>, Fail> {
    let mut payloads = Vec::new(alloc);
    for digits in before {
        payloads.push(payload_of(alloc, &[digits])?)?;
    }
    payloads.push(payload)?;
    if !are_few(&payloads) {
        return Err(Fail::from("too many payloads"));
    }
    Ok(load(alloc, &payloads, keep))
}
