//! What no clause says: calls succeed with ample memory. A source and a shelf by hand.

use super::*;
use std::test::Fail;

#[test]
fn a_source_is_read_to_its_end(rt: HostRuntime) -> Result<(), Fail> {
    let alloc = rt.alloc();
    let mut source = MemSource::new(b"abcde".to_vec(alloc)?, [2].to_vec(alloc)?);
    let mut part = [0u8; 3];
    // what a read answers, and what then stands in the buffer
    let cases = [
        (Ok(3), *b"abc"),
        (Err(ReadFault), *b"abc"),
        (Ok(2), *b"dec"),
        (Ok(0), *b"dec"),
        (Ok(0), *b"dec"),
    ];
    for (want, bytes) in cases {
        let got = source.read(&mut part);
        assert_eq!(rt; got, want);
        assert_eq!(rt; part, bytes);
    }
    Ok(())
}

#[test]
fn a_text_is_given_up_to_the_limit(rt: HostRuntime) -> Result<(), Fail> {
    let alloc = rt.alloc();
    let mut texts = Vec::new(alloc);
    for (path, text) in [("a", b"12345".as_slice()), ("a", b"x"), ("none", b"")] {
        texts.push((String::from_str(alloc, path)?, text.to_vec(alloc)?))?;
    }
    let mut shelf = MemShelf::new(texts, [5].to_vec(alloc)?);
    // path, limit, text
    let cases = [
        ("a", 5, Ok(b"12345".as_slice())),
        ("a", 4, Err(ShelfFault::TooLong)),
        ("b", 9, Err(ShelfFault::Fault)),
        ("none", 0, Ok(b"")),
        ("a", 5, Err(ShelfFault::Fault)),
        ("a", 5, Ok(b"12345")),
    ];
    for (path, limit, want) in cases {
        match (shelf.text(alloc, path, limit), want) {
            (Ok(got), Ok(want)) => assert_eq!(rt; got.as_slice(), want, "{path} within {limit}"),
            (Err(got), Err(want)) => assert_eq!(rt; got, want, "{path} within {limit}"),
            _ => assert!(rt; false, "{path} within {limit}"),
        }
    }
    Ok(())
}
