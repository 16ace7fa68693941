//! Signs.

ghost use Rattle.std.specs.Prelude.{◌≡◌, ◌≤◌, ◌<◌, ◌+◌, length};
ghost use Rattle.fn_lex.specs.Bytes.{byte_or};
ghost use Rattle.fn_lex.specs.Lexemes.{is_single, is_pair};
ghost use Rattle.fn_lex.specs.Pieces.{sign_of, size_of};

use crate::classes::byte_at;
use crate::front::Piece;
use crate::span::TokenKind;

fn single(b: u8) -> bool
    ensures { result ≡ is_single b }
{
    b"(){}[],;=<>+-*/%!".as_slice().contains(&b)
}

fn pair(b: u8, next: u8) -> bool
    ensures { result ≡ is_pair b next }
{
    (next == b'=' && b"=!<>".as_slice().contains(&b))
        || (next == b && b"+&|".as_slice().contains(&b))
}

/// The sign that begins with the byte `b`, before the others.
pub fn sign(b: u8, rest: &[u8]) -> Piece
    ensures piece { result ≡ sign_of b rest.now }
    ensures within { size_of result ≤ length rest.now + 1 }
{
    if pair(b, byte_at(rest, 0)) {
        Piece::Token(TokenKind::Sign, 2)
    } else if single(b) {
        Piece::Token(TokenKind::Sign, 1)
    } else {
        Piece::Bad(0)
    }
}
