ghost use Rattle.std.specs.Prelude.{◌<◌, ◌^◌, length};

use super::*;
use r3_value::{Outcome, Txt, Val};
use std::alloc::Global;
use std::test::*;

// A byte so many times behind the front.
fn filled(alloc: Global, front: &[u8], byte: u8, count: u32) -> Result<Vec<u8>, Fail> {
    let mut bytes = Vec::new(alloc);
    bytes.extend_from_slice(front)?;
    for _ in 0..count {
        bytes.push(byte)?;
    }
    Ok(bytes)
}

// An empty list inside so many others.
fn nested(alloc: Global, around: u32) -> Result<Vec<u8>, Fail> {
    let mut bytes = Vec::new(alloc);
    for _ in 0..around {
        bytes.extend_from_slice(&[4, 0, 0, 0, 1])?;
    }
    bytes.extend_from_slice(&[4, 0, 0, 0, 0])?;
    Ok(bytes)
}

fn is_value(alloc: Global, bytes: &[u8]) -> bool
    requires { length bytes.now < 2 ^ 32 }
{
    let mut reader = Reader::new(bytes);
    match reader.val(alloc) {
        Ok(_) => reader.ended(),
        Err(_) => false,
    }
}

// The entry that loads the row a = 10 of the table acct, on a history of one entry.
#[test]
fn the_fields_of_an_entry_are_written_and_read(rt: HostRuntime) -> Result<(), Fail> {
    let alloc = rt.alloc();
    let mut writer = Writer::new(alloc);
    writer.u8(2)?;
    writer.u32(1)?;
    writer.u32(0)?;
    writer.u32(1)?;
    writer.u8(0)?;
    writer.text("acct")?;
    writer.text("a")?;
    writer.u8(1)?;
    writer.u8(0)?;
    writer.val(&Val::Int(10))?;
    let bytes = writer.done();
    assert_eq!(rt;
        bytes.as_slice(),
        [
            2, 0, 0, 0, 1, 0, 0, 0, 0, 0, 0, 0, 1, 0, 0, 0, 0, 4, 97, 99, 99, 116, 0, 0, 0, 1, 97,
            1, 0, 2, 0, 0, 0, 0, 0, 0, 0, 10
        ]
        .as_slice()
    );
    let mut reader = Reader::new(&bytes);
    assert_eq!(rt; reader.u8()?, 2);
    assert_eq!(rt; reader.u32()?, 1);
    assert_eq!(rt; reader.u32()?, 0);
    assert_eq!(rt; reader.u32()?, 1);
    assert_eq!(rt; reader.u8()?, 0);
    assert_eq!(rt; reader.text(alloc)?.as_str(), "acct");
    assert_eq!(rt; reader.txt(alloc)?.as_str(), "a");
    assert_eq!(rt; reader.at(), 27);
    assert_eq!(rt; reader.u8()?, 1);
    assert_eq!(rt; reader.u8()?, 0);
    assert!(rt; reader.val(alloc)?.same(&Val::Int(10)));
    assert!(rt; reader.ended());
    Ok(())
}

#[test]
fn outcomes_are_written_and_read(rt: HostRuntime) -> Result<(), Fail> {
    let alloc = rt.alloc();
    let mut inner = Vec::new(alloc);
    inner.push(Val::Bool(true))?;
    inner.push(Val::Null)?;
    let mut items = Vec::new(alloc);
    items.push(Val::Int(-2))?;
    items.push(Val::list(inner)?)?;
    items.push(Val::text(alloc, "hi")?)?;
    let value = Outcome::Value(Val::list(items)?);
    let failure = Outcome::Failure(Txt::new(alloc, "no")?);
    let mut writer = Writer::new(alloc);
    writer.outcome(&value)?;
    writer.outcome(&failure)?;
    let bytes = writer.done();
    assert_eq!(rt;
        bytes.as_slice(),
        [
            0, 4, 0, 0, 0, 3, 2, 255, 255, 255, 255, 255, 255, 255, 254, 4, 0, 0, 0, 2, 1, 1, 0, 3,
            0, 0, 0, 2, 104, 105, 1, 0, 0, 0, 2, 110, 111
        ]
        .as_slice()
    );
    let mut reader = Reader::new(&bytes);
    assert!(rt; reader.outcome(alloc)?.same(&value));
    assert!(rt; reader.outcome(alloc)?.same(&failure));
    assert!(rt; reader.ended());
    Ok(())
}

#[test]
fn bytes_past_a_limit_are_no_value(rt: HostRuntime) -> Result<(), Fail> {
    let alloc = rt.alloc();
    // the front, the letters behind it, whether they are a value
    let cases = [
        // a text of 4,091 bytes, and one of 4,092
        ([3, 0, 0, 15, 251].as_slice(), 4091, true),
        ([3, 0, 0, 15, 252].as_slice(), 4092, false),
        // a list of one text: 4,096 bytes together, and 4,097
        ([4, 0, 0, 0, 1, 3, 0, 0, 15, 246].as_slice(), 4086, true),
        ([4, 0, 0, 0, 1, 3, 0, 0, 15, 247].as_slice(), 4087, false),
        // one letter too few, and one too many
        ([3, 0, 0, 0, 3].as_slice(), 2, false),
        ([3, 0, 0, 0, 3].as_slice(), 4, false),
        // a truth value is 0 or 1
        ([1, 1].as_slice(), 0, true),
        ([1, 2].as_slice(), 0, false),
        // no kind of value has the number 5
        ([5].as_slice(), 0, false),
        // no UTF-8
        ([3, 0, 0, 0, 1, 255].as_slice(), 0, false),
        ([3, 0, 0, 0, 2, 192, 128].as_slice(), 0, false),
    ];
    for (front, letters, want) in cases {
        let bytes = filled(alloc, front, b'a', letters)?;
        let short = bytes.len() < 10000;
        assert!(rt; short);
        assert_eq!(rt;
            is_value(alloc, &bytes),
            want,
            "{letters} letters behind {front:?}"
        );
    }
    // lists 16 deep, and 17 deep
    let deep = nested(alloc, 15)?;
    let too_deep = nested(alloc, 16)?;
    let short = deep.len() < 10000 && too_deep.len() < 10000;
    assert!(rt; short);
    assert!(rt; is_value(alloc, &deep));
    assert!(rt; !is_value(alloc, &too_deep));
    Ok(())
}

#[test]
fn a_cut_field_is_refused_at_each_length(rt: HostRuntime) -> Result<(), Fail> {
    let alloc = rt.alloc();
    // a byte before it, and the outcome [-2, "hi"]
    let bytes = [
        7, 0, 4, 0, 0, 0, 2, 2, 255, 255, 255, 255, 255, 255, 255, 254, 3, 0, 0, 0, 2, 104, 105,
    ];
    for end in 1..bytes.len() {
        let mut reader = Reader::new(&bytes[..end]);
        assert_eq!(rt; reader.u8()?, 7);
        assert!(rt;
            matches!(reader.outcome(alloc), Err(FieldFault::NoField { at: 1 })),
            "{end}"
        );
        assert_eq!(rt; reader.at(), 1, "at {end}");
    }
    let mut reader = Reader::new(&bytes);
    assert_eq!(rt; reader.u8()?, 7);
    let _whole = reader.outcome(alloc)?;
    assert!(rt; reader.ended());
    Ok(())
}

#[test]
fn a_refused_read_leaves_the_reader(rt: HostRuntime) -> Result<(), Fail> {
    let alloc = rt.alloc();
    let mut reader = Reader::new(&[7, 0, 0, 0, 9, 1]);
    assert_eq!(rt; reader.u8()?, 7);
    assert!(rt; matches!(reader.text(alloc), Err(FieldFault::NoField { at: 1 })));
    assert!(rt; matches!(reader.txt(alloc), Err(FieldFault::NoField { at: 1 })));
    assert_eq!(rt; reader.u32()?, 9);
    assert!(rt; matches!(reader.u32(), Err(FieldFault::NoField { at: 5 })));
    assert!(rt; matches!(reader.val(alloc), Err(FieldFault::NoField { at: 5 })));
    assert_eq!(rt; reader.u8()?, 1);
    assert!(rt; matches!(reader.u8(), Err(FieldFault::NoField { at: 6 })));
    Ok(())
}
