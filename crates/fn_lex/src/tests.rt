use crate::fault::LexError;
use crate::lexer::tokens;
use crate::span::TokenKind;
use std::alloc::Global;
use std::test::Fail;

/// The bad place of a text, or none.
fn bad(alloc: Global, text: &[u8]) -> Result<Option<u32>, Fail> {
    if text.len() >= 4294967296 {
        return Ok(None);
    }
    match tokens(alloc, text) {
        Ok(_) => Ok(None),
        Err(LexError::Lex { at }) => Ok(Some(at)),
        Err(LexError::Memory) => Err(Fail::from(LexError::Memory)),
    }
}

#[test]
fn tokens_have_kinds_and_places(rt: HostRuntime) -> Result<(), Fail> {
    let text = b"let x1 = \"a\\n\" ++ 10; # rest\nset <= lets";
    let want = [
        (TokenKind::Word, 0, 3),
        (TokenKind::Name, 4, 6),
        (TokenKind::Sign, 7, 8),
        (TokenKind::Text, 9, 14),
        (TokenKind::Sign, 15, 17),
        (TokenKind::Number, 18, 20),
        (TokenKind::Sign, 20, 21),
        (TokenKind::Word, 29, 32),
        (TokenKind::Sign, 33, 35),
        (TokenKind::Name, 36, 40),
    ];
    let got = tokens(rt.alloc(), text)?;
    assert_eq!(rt; got.len(), want.len());
    for (token, want) in got.iter().zip(want.iter()) {
        assert_eq!(rt; (token.kind, token.from, token.to), *want);
    }
    Ok(())
}

#[test]
fn bad_places_are_exact(rt: HostRuntime) -> Result<(), Fail> {
    // a text and its bad place
    let cases = [
        ("table Acct;", Some(6)),
        ("x 007", Some(2)),
        ("9223372036854775807", None),
        ("9223372036854775808", Some(0)),
        ("12abc", None),
        ("; \"open", Some(2)),
        (" \"a\\t\"", Some(1)),
        ("# caf\u{e9}\n", Some(5)),
        ("\"caf\u{e9}\"", Some(0)),
        ("# a @ $ b\n@", Some(10)),
        ("a & b", Some(2)),
    ];
    for (text, want) in cases {
        assert_eq!(rt; bad(rt.alloc(), text.as_bytes())?, want, "of {text}");
    }
    Ok(())
}

#[test]
fn limits_are_met_at_their_edges(rt: HostRuntime) -> Result<(), Fail> {
    // the front, the byte that is repeated, how often, the end, and the bad place
    let cases = [
        ("; ", "x", 64, "", None),
        ("; ", "x", 65, "", Some(2)),
        ("\"", "a", 4091, "\"", None),
        ("\"", "a", 4092, "\"", Some(0)),
        ("\"\\n", "a", 4090, "\"", None),
        ("\"\\n", "a", 4091, "\"", Some(0)),
    ];
    for (front, byte, count, end, want) in cases {
        let middle = byte.repeat(rt.alloc(), count)?;
        let text = format!(in rt.alloc(); "{front}{middle}{end}")?;
        assert_eq!(rt;
            bad(rt.alloc(), text.as_bytes())?,
            want,
            "{count} times {byte}"
        );
    }
    Ok(())
}
