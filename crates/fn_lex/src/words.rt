//! Names and reserved words.

ghost use Rattle.std.specs.Prelude.{◌≡◌, ◌≤◌, ◌<◌, length};
ghost use Rattle.std.specs.List.{list_any};
ghost use Rattle.std.specs.Str.{bytes_eq};
ghost use Rattle.fn_lex.specs.Words.{is_reserved};
ghost use Rattle.fn_lex.specs.Pieces.{word_of, size_of};

use crate::classes::{Class, run_of};
use crate::front::Piece;
use crate::span::TokenKind;

/// The words that the language uses.
const USED: [&str; 30] = [
    "table", "queue", "outside", "helper", "txn", "flow", "let", "set", "if", "else", "while",
    "each", "in", "try", "catch", "return", "fail", "put", "delete", "get", "scan", "do", "call",
    "spawn", "await", "null", "true", "false", "len", "str",
];

/// The words that are kept for later.
const LATER: [&str; 11] = [
    "serial", "version", "post", "receive", "event", "sleep", "int", "bool", "text", "list", "any",
];

fn is_among(words: &[&str], name: &[u8]) -> bool
    ensures { result ≡ list_any (λ w. bytes_eq w.now name.now) words.now }
{
    for w in words {
        if w.as_bytes() == name {
            return true;
        }
    }
    false
}

fn is_word(name: &[u8]) -> bool
    ensures { result ≡ is_reserved name.now }
{
    is_among(&USED, name) || is_among(&LATER, name)
}

/// The name or word at the front, which begins with a lower-case letter.
pub fn word(bytes: &[u8]) -> Piece
    ensures piece { result ≡ word_of bytes.now }
    ensures within { size_of result ≤ length bytes.now }
{
    let n = run_of(Class::Name, bytes);
    let (name, _) = bytes.split_at(n);
    if is_word(name) {
        Piece::Token(TokenKind::Word, n)
    } else if n <= 64 {
        Piece::Token(TokenKind::Name, n)
    } else {
        Piece::Bad(0)
    }
}
