use crate::{JsonFault, ReadFault, from_json, line, read, to_json};
use r3_value::Val;
use serde_json::json;
use std::alloc::Global;
use std::test::Fail;

fn value_of(alloc: Global, text: &[u8]) -> Result<Result<Val, JsonFault>, Fail> {
    let json = read(alloc, text)?;
    Ok(from_json(alloc, &json))
}

/// Lists inside one another, so many, around what stands in the middle.
fn nested(alloc: Global, depth: usize, middle: &str) -> Result<String, Fail> {
    let mut text = "[".repeat(alloc, depth)?;
    text.push_str(middle)?;
    for _ in 0..depth {
        text.push(']')?;
    }
    Ok(text)
}

fn fault_of_nested(alloc: Global, depth: usize, middle: &str) -> Result<Option<JsonFault>, Fail> {
    let text = nested(alloc, depth, middle)?;
    Ok(value_of(alloc, text.as_bytes())?.err())
}

fn fault_of_long(alloc: Global, depth: usize, bytes: usize) -> Result<Option<JsonFault>, Fail> {
    let text = "t".repeat(alloc, bytes)?;
    let quoted = format!(in alloc; "\"{text}\"")?;
    fault_of_nested(alloc, depth, quoted.as_str())
}

fn rewritten(alloc: Global, text: &[u8]) -> Result<Vec<u8>, Fail> {
    let value = value_of(alloc, text)??;
    let json = to_json(alloc, &value)?;
    Ok(line(alloc, &json)?)
}

fn is_refused(alloc: Global, text: &[u8]) -> bool {
    matches!(read(alloc, text), Err(ReadFault::Syntax))
}

#[test]
fn a_whole_number_has_no_point_and_no_exponent(rt: HostRuntime) -> Result<(), Fail> {
    let alloc = rt.alloc();
    // a number, and its value if it is whole
    let cases = [
        ("-0", None),
        ("1.0", None),
        ("1e3", None),
        ("9223372036854775807", Some(i64::MAX)),
        ("9223372036854775808", None),
        ("-9223372036854775808", Some(i64::MIN)),
    ];
    for (text, whole) in cases {
        let want = whole.map(Val::Int).ok_or(JsonFault::NotWhole);
        assert_eq!(rt; value_of(alloc, text.as_bytes())?, want, "{text}");
    }
    Ok(())
}

#[test]
fn limits_are_exact(rt: HostRuntime) -> Result<(), Fail> {
    let alloc = rt.alloc();
    // lists around a text, bytes of the text, fault
    let cases = [
        (0, 4091, None),
        (0, 4092, Some(JsonFault::TooLarge)),
        (1, 4086, None),
        (1, 4087, Some(JsonFault::TooLarge)),
        (16, 1, None),
        (17, 1, Some(JsonFault::TooDeep)),
        (17, 4087, Some(JsonFault::TooLarge)),
    ];
    for (depth, bytes, fault) in cases {
        assert_eq!(rt;
            fault_of_long(alloc, depth, bytes)?,
            fault,
            "{depth} lists, {bytes} bytes"
        );
    }
    Ok(())
}

#[test]
fn the_first_fault_is_told(rt: HostRuntime) -> Result<(), Fail> {
    let alloc = rt.alloc();
    // lists around a text, the text, its first fault
    let cases = [
        (0, "[1, {}, 1.5]", JsonFault::Object),
        (0, "[[1.5], {}]", JsonFault::NotWhole),
        (17, "1.5", JsonFault::NotWhole),
    ];
    for (depth, text, fault) in cases {
        assert_eq!(rt; fault_of_nested(alloc, depth, text)?, Some(fault), "{text}");
    }
    Ok(())
}

#[test]
fn a_value_is_written_and_read_again(rt: HostRuntime) -> Result<(), Fail> {
    let alloc = rt.alloc();
    // as it comes, and as it is written
    let cases = [
        (" [ null , true,\t-7,[ ] ] ", "[null,true,-7,[]]\n"),
        (r#""\u00e9\ud83d\ude00\/\"\\""#, "\"é😀/\\\"\\\\\"\n"),
        (r#""\u0000\n\u001f""#, "\"\\u0000\\n\\u001f\"\n"),
    ];
    for (text, want) in cases {
        let bytes = rewritten(alloc, text.as_bytes())?;
        assert_eq!(rt; bytes.as_slice(), want.as_bytes(), "{text}");
        assert_eq!(rt;
            rewritten(alloc, &bytes)?.as_slice(),
            want.as_bytes(),
            "{text}"
        );
    }
    Ok(())
}

#[test]
fn members_stand_in_the_byte_order_of_their_keys(rt: HostRuntime) -> Result<(), Fail> {
    let alloc = rt.alloc();
    let json = json!(in alloc; {"n": 2, "id": "w"})?;
    assert_eq!(rt;
        line(alloc, &json)?.as_slice(),
        b"{\"id\":\"w\",\"n\":2}\n".as_slice()
    );
    let twice = read(alloc, b"{\"id\":\"v\",\"n\":2,\"id\":\"w\"}")?;
    assert!(rt; twice == json);
    Ok(())
}

#[test]
fn what_is_no_json_is_refused(rt: HostRuntime) -> Result<(), Fail> {
    let alloc = rt.alloc();
    for text in ["", "[1", "1 2", "01", "1e400", r#""\ud800""#] {
        assert!(rt; is_refused(alloc, text.as_bytes()), "{text}");
    }
    assert!(rt; is_refused(alloc, b"\"\xff\""));
    assert!(rt; is_refused(alloc, nested(alloc, 128, "")?.as_bytes()));
    assert!(rt; !is_refused(alloc, nested(alloc, 127, "")?.as_bytes()));
    Ok(())
}
