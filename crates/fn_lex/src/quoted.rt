//! Texts.

ghost use Rattle.std.specs.Prelude.{◌≡◌, ◌≤◌, ◌<◌, ◌+◌, ◌^◌, length, false};
ghost use Rattle.fn_lex.specs.Bytes.{is_plain, is_escape};
ghost use Rattle.fn_lex.specs.Pieces.{text_of, closing, size_of};

use crate::front::Piece;
use crate::span::TokenKind;

/// The most bytes that a text denotes.
const MOST: usize = 4091;

fn plain(b: u8) -> bool
    ensures { result ≡ is_plain b }
{
    b' ' <= b && b <= b'~' && b != b'"' && b != b'\\'
}

fn escape(b: u8) -> bool
    ensures { result ≡ is_escape b }
{
    b == b'"' || b == b'\\' || b == b'n'
}

/// The text whose opening quote stands before these bytes.
pub fn text(rest: &[u8]) -> Piece
    requires { length rest.now < 2 ^ 32 }
    ensures piece { result ≡ closing false 0 0 rest.now }
    ensures within { size_of result ≤ length rest.now + 1 }
{
    let mut escaped = false;
    let mut denoted: usize = 0;
    let mut i: usize = 0;
    for b in rest {
        if escaped {
            if !escape(*b) {
                return Piece::Bad(0);
            }
            escaped = false;
            denoted += 1;
        } else if *b == b'"' {
            return closed(denoted, i + 2);
        } else if *b == b'\\' {
            escaped = true;
        } else if plain(*b) {
            denoted += 1;
        } else {
            return Piece::Bad(0);
        }
        i += 1;
    }
    Piece::Bad(0)
}

/// A closed text that denotes so many bytes and has so many.
fn closed(denoted: usize, size: usize) -> Piece
    ensures { result ≡ text_of denoted size }
{
    if denoted <= MOST {
        Piece::Token(TokenKind::Text, size)
    } else {
        Piece::Bad(0)
    }
}
