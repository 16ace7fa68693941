//! What stands at the front of a text.

ghost use Rattle.std.specs.Prelude.{◌≡◌, ◌≤◌, ◌<◌, ◌+◌, ◌^◌, length};
ghost use Rattle.fn_lex.specs.Bytes.{byte_or};
ghost use Rattle.fn_lex.specs.Pieces.{piece_of, front_of, comment_of, run, size_of};

use crate::classes::{Class, byte_at, run_of};
use crate::numbers::number;
use crate::quoted::text;
use crate::signs::sign;
use crate::span::TokenKind;
use crate::words::word;

/// What stands at the front, and how many bytes it has.
#[derive(Clone, Copy)]
pub enum Piece {
    /// The text is at its end.
    End,
    /// A blank or a comment.
    Gap(usize),
    /// A token.
    Token(TokenKind, usize),
    /// Nothing that is allowed; the bad place is so many bytes from here.
    Bad(usize),
}

/// What stands at the front.
pub fn front_piece(bytes: &[u8]) -> Piece
    requires { length bytes.now < 2 ^ 32 }
    ensures piece { result ≡ piece_of bytes.now }
    ensures within { size_of result ≤ length bytes.now }
{
    match bytes {
        [] => Piece::End,
        [b, rest @ ..] => behind(*b, rest, bytes),
    }
}

/// What stands at the front, by its first byte.
fn behind(b: u8, rest: &[u8], bytes: &[u8]) -> Piece
    requires short { length rest.now < 2 ^ 32 }
    requires longer { length bytes.now ≡ length rest.now + 1 }
    ensures piece { result ≡ front_of b rest.now bytes.now }
    ensures within { size_of result ≤ length bytes.now }
{
    if b == b' ' || b == b'\t' || b == b'\r' || b == b'\n' {
        Piece::Gap(1)
    } else if b == b'#' {
        comment(rest)
    } else if b'a' <= b && b <= b'z' {
        word(bytes)
    } else if b'0' <= b && b <= b'9' {
        number(bytes)
    } else if b == b'"' {
        text(rest)
    } else {
        sign(b, rest)
    }
}

/// The comment whose `#` stands before these bytes: it ends before a newline or with the text.
fn comment(rest: &[u8]) -> Piece
    requires { length rest.now < 2 ^ 32 }
    ensures piece { result ≡ comment_of rest.now }
    ensures within { size_of result ≤ length rest.now + 1 }
{
    let n = run_of(Class::Comment, rest);
    if byte_at(rest, n) < 128 {
        Piece::Gap(n + 1)
    } else {
        Piece::Bad(n + 1)
    }
}
