use super::*;
use std::alloc::Global;
use std::test::*;

// Snapshot 0, no read items and no writes.
const REST: &str = "00000000 00000000 00000000";

// The bytes of hexadecimal digits; what is no digit doesn't count.
fn put_digits(bytes: &mut Vec<u8>, digits: &str) -> Result<(), Fail> {
    let mut high: Option<u8> = None;
    for digit in digits.as_bytes() {
        let value = match *digit {
            b'0'..=b'9' => *digit - b'0',
            b'a'..=b'f' => *digit - b'a' + 10,
            _ => 16,
        };
        if value < 16 {
            match high {
                None => high = Some(value),
                Some(front) => {
                    bytes.push(front.wrapping_mul(16).wrapping_add(value))?;
                    high = None;
                }
            }
        }
    }
    Ok(())
}

fn digits(alloc: Global, front: &str, back: &str) -> Result<Vec<u8>, Fail> {
    let mut bytes = Vec::new(alloc);
    put_digits(&mut bytes, front)?;
    put_digits(&mut bytes, back)?;
    Ok(bytes)
}

// So many bytes 00 between.
fn filled(alloc: Global, front: &str, count: u32, back: &str) -> Result<Vec<u8>, Fail> {
    let mut bytes = Vec::new(alloc);
    put_digits(&mut bytes, front)?;
    for _ in 0..count {
        bytes.push(0)?;
    }
    put_digits(&mut bytes, back)?;
    Ok(bytes)
}

// None for want of memory.
fn is_entry(alloc: Global, bytes: &[u8]) -> Option<bool> {
    if bytes.len() > 10_000_000 {
        return None;
    }
    match decode(alloc, bytes) {
        Ok(_) => Some(true),
        Err(EntryFault::NotEntry) => Some(false),
        Err(EntryFault::Memory) => None,
    }
}

// The place of the act in the format's list.
fn number_of(act: &Act) -> u8 {
    match act {
        Act::Program { .. } => 1,
        Act::Load => 2,
        Act::Start { .. } => 3,
        Act::Enqueue { .. } => 4,
        Act::Dequeue { .. } => 5,
        Act::Txn { .. } => 6,
        Act::Outside { .. } => 7,
        Act::Child { .. } => 8,
        Act::Await { .. } => 9,
        Act::Finish { .. } => 10,
        Act::Cancel { .. } => 11,
        Act::Resume { .. } => 12,
        Act::Fork { .. } => 13,
        Act::Recover { .. } => 14,
    }
}

// The number of the act, and what is written for the entry that was read.
fn again(alloc: Global, bytes: &[u8]) -> Result<(u8, Vec<u8>), Fail> {
    if bytes.len() > 10_000_000 {
        return Ok((0, Vec::new(alloc)));
    }
    let entry = decode(alloc, bytes)?;
    let number = number_of(&entry.act);
    Ok((number, encode(alloc, &entry)?))
}

#[test]
fn each_act_goes_both_ways(rt: HostRuntime) -> Result<(), Fail> {
    let alloc = rt.alloc();
    let acts = [
        (1, "01 0000000b 7461626c6520616363743b"),
        (2, "02"),
        (3, "03 00000002 6d31"),
        (4, "04 00000002 6d31"),
        (5, "05 00000002 6d31"),
        (6, "06 00000002 6d31 00000000 04 00000001 00"),
        (7, "07 00000002 6d31 00000001 04 00000000"),
        (8, "08 00000002 7031 00000000 00000004 70312d30"),
        (9, "09 00000002 7731 000003e7 00000000"),
        (10, "0a 00000002 6d31"),
        (11, "0b 00000002 6d31"),
        (12, "0c 00000002 6d31"),
        (13, "0d 00000002 6d32 00000002 6d31 000003e8"),
        (14, "0e 00000002 6d31"),
    ];
    for (number, act) in acts {
        let bytes = digits(alloc, act, REST)?;
        let (found, written) = again(alloc, &bytes)?;
        assert_eq!(rt; found, number);
        assert_eq!(rt; written.as_slice(), bytes.as_slice(), "act {number}");
    }
    Ok(())
}

#[test]
fn read_items_and_writes_go_both_ways(rt: HostRuntime) -> Result<(), Fail> {
    let alloc = rt.alloc();
    // read items, writes
    let cases = [
        (
            "00000000",
            "00000001 00 00000004 61636374 00000001 61 01 00 02 000000000000000a",
        ),
        ("00000000", "00000001 00 00000004 61636374 00000001 61 00"),
        (
            "00000001 00 00000004 61636374 00000001 61 00000002",
            "00000000",
        ),
        (
            "00000001 01 00000004 61636374 00000000 00000001 62 00000001 00000001 61 00000002",
            "00000000",
        ),
        (
            "00000000",
            "00000001 01 00000002 6d31 01 01 01 00000004 6d6f7665 04 00000000 00 00 00000003 00000000 00",
        ),
        (
            "00000000",
            "00000001 01 00000002 6d31 01 01 00 00000001 66 04 00000000 00 01 00000001 71 000f4240 00000033 01 00000001 70",
        ),
        (
            "00000000",
            "00000001 01 00000002 6d31 01 01 02 00000001 66 04 00000000 01 00 01 01 00 00000001 00000000 00",
        ),
        (
            "00000000",
            "00000001 01 00000002 6d31 01 01 03 00000001 66 04 00000000 01 01 00000002 6964 00 00000001 00000000 00",
        ),
        (
            "00000000",
            "00000001 02 00000002 6d31 00000000 01 02 00000003 706179 00 00 02 0000000000000003",
        ),
        (
            "00000000",
            "00000003 00 00000001 61 00000001 61 00 01 00000001 61 00 02 00000001 61 00000000 00",
        ),
    ];
    for (reads, writes) in cases {
        let mut bytes = digits(alloc, "02 00000003", reads)?;
        put_digits(&mut bytes, writes)?;
        let (_, written) = again(alloc, &bytes)?;
        assert_eq!(rt; written.as_slice(), bytes.as_slice(), "{reads} {writes}");
    }
    Ok(())
}

#[test]
fn texts_have_their_limits(rt: HostRuntime) -> Result<(), Fail> {
    let alloc = rt.alloc();
    // the bytes before the text, its length, the bytes behind it, whether this is an entry
    let cases = [
        ("03 00000000", 0, REST, false),
        ("03 00000001", 1, REST, true),
        ("03 000000c8", 200, REST, true),
        ("03 000000c9", 201, REST, false),
        (
            "0d 00000001 61 000000c8",
            200,
            "00000000 00000000 00000000 00000000",
            true,
        ),
        (
            "0d 00000001 61 000000c9",
            201,
            "00000000 00000000 00000000 00000000",
            false,
        ),
        ("08 00000001 61 00000000 000000c8", 200, REST, true),
        ("08 00000001 61 00000000 000000c9", 201, REST, false),
        ("09 00000001 61 00000000 00000ffb", 4091, REST, true),
        ("09 00000001 61 00000000 00000ffc", 4092, REST, false),
        ("01 00100000", 1_048_576, REST, true),
        ("01 00100001", 1_048_577, REST, false),
        (
            "02 00000000 00000000 00000001 00 00000000",
            0,
            "00000001 61 00",
            false,
        ),
        (
            "02 00000000 00000000 00000001 00 00000040",
            64,
            "00000001 61 00",
            true,
        ),
        (
            "02 00000000 00000000 00000001 00 00000041",
            65,
            "00000001 61 00",
            false,
        ),
        (
            "02 00000000 00000000 00000001 00 00000001 61 00000000",
            0,
            "00",
            false,
        ),
        (
            "02 00000000 00000000 00000001 00 00000001 61 00000100",
            256,
            "00",
            true,
        ),
        (
            "02 00000000 00000000 00000001 00 00000001 61 00000101",
            257,
            "00",
            false,
        ),
        (
            "02 00000000 00000001 01 00000001 61 00000100",
            256,
            REST,
            true,
        ),
        (
            "02 00000000 00000001 01 00000001 61 00000101",
            257,
            REST,
            false,
        ),
        // sixteen and seventeen arguments, each null
        ("06 00000001 61 00000000 04 00000010", 16, REST, true),
        ("06 00000001 61 00000000 04 00000011", 17, REST, false),
    ];
    for (front, count, back, want) in cases {
        let bytes = filled(alloc, front, count, back)?;
        assert_eq!(rt;
            is_entry(alloc, &bytes),
            Some(want),
            "{front} and {count} bytes"
        );
    }
    Ok(())
}

#[test]
fn numbers_have_their_limits(rt: HostRuntime) -> Result<(), Fail> {
    let alloc = rt.alloc();
    let flow = "02 00000000 00000000 00000001 01 00000001 61 01 01";
    // the bytes before the number, the number and what follows, whether this is an entry
    let cases = [
        (
            "07 00000001 61",
            "000003e7 04 00000000 00000000 00000000 00000000",
            true,
        ),
        (
            "07 00000001 61",
            "000003e8 04 00000000 00000000 00000000 00000000",
            false,
        ),
        (
            "0d 00000001 61 00000001 62",
            "000003e8 00000000 00000000 00000000",
            true,
        ),
        (
            "0d 00000001 61 00000001 62",
            "000003e9 00000000 00000000 00000000",
            false,
        ),
        (
            flow,
            "00 00000001 66 04 00000000 00 00 00000001 00000033 00",
            true,
        ),
        (
            flow,
            "00 00000001 66 04 00000000 00 00 00000001 00000034 00",
            false,
        ),
        (
            flow,
            "00 00000001 66 04 00000000 00 00 00000000 00000000 00",
            false,
        ),
        (
            flow,
            "00 00000001 66 04 00000000 00 00 000f4240 00000000 00",
            true,
        ),
        (
            flow,
            "00 00000001 66 04 00000000 00 00 000f4241 00000000 00",
            false,
        ),
        (
            flow,
            "05 00000001 66 04 00000000 00 00 00000001 00000000 00",
            true,
        ),
        (
            flow,
            "06 00000001 66 04 00000000 00 00 00000001 00000000 00",
            false,
        ),
        // arguments that are no list, an outcome and an option of an unknown kind
        (flow, "00 00000001 66 00 00 00 00000001 00000000 00", false),
        (
            flow,
            "00 00000001 66 04 00000000 01 02 00 00000001 00000000 00",
            false,
        ),
        (
            flow,
            "00 00000001 66 04 00000000 00 02 00000001 00000000 00",
            false,
        ),
        // a step of an unknown kind
        (
            "02 00000000 00000000 00000001 02 00000001 61 00000000 01",
            "02 00000001 66 03 00 00",
            true,
        ),
        (
            "02 00000000 00000000 00000001 02 00000001 61 00000000 01",
            "02 00000001 66 04 00 00",
            false,
        ),
        // a cell, a key and a read item of an unknown kind
        (
            "02 00000000 00000000 00000001 02 00000001 61 00000000 01",
            "03",
            false,
        ),
        ("02 00000000 00000000 00000001", "03 00000001 61 00", false),
        ("02 00000000 00000001", "02 00000000", false),
    ];
    for (front, back, want) in cases {
        let bytes = digits(alloc, front, back)?;
        assert_eq!(rt; is_entry(alloc, &bytes), Some(want), "{front} {back}");
    }
    Ok(())
}

#[test]
fn an_entry_has_one_spelling(rt: HostRuntime) -> Result<(), Fail> {
    let alloc = rt.alloc();
    let cases = [
        ("", ""),
        // an unknown act
        ("00", REST),
        ("0f", REST),
        // a byte too few and a byte too many
        ("02", "00000000 00000000 000000"),
        ("02", "00000000 00000000 00000000 00"),
        // a text that isn't UTF-8, and one cut short
        ("03 00000002 c328", REST),
        ("03 7fffffff 61", REST),
        // equal keys, keys that fall, kinds of keys that fall
        (
            "02 00000000 00000000 00000002",
            "01 00000001 61 00 01 00000001 61 00",
        ),
        (
            "02 00000000 00000000 00000002",
            "01 00000001 62 00 01 00000001 61 00",
        ),
        (
            "02 00000000 00000000 00000002",
            "01 00000001 61 00 00 00000001 61 00000001 61 00",
        ),
        // a longer list than there are items
        ("02 00000000 00000000 00000002", "01 00000001 61 00"),
        ("02 00000000 ffffffff", "00000000"),
    ];
    for (front, back) in cases {
        let bytes = digits(alloc, front, back)?;
        assert_eq!(rt; is_entry(alloc, &bytes), Some(false), "{front} {back}");
    }
    Ok(())
}
