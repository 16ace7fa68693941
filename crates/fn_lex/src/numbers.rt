//! Numbers.

ghost use Rattle.std.specs.Prelude.{◌≡◌, ◌≤◌, ◌<◌, ◌^◌, length, nat_le};
ghost use Rattle.fn_lex.specs.Lexemes.{value_from, is_number_within};
ghost use Rattle.fn_lex.specs.Pieces.{number_of, size_of};

use crate::classes::{Class, run_of};
use crate::front::Piece;
use crate::span::TokenKind;

/// The greatest number.
const MOST: u64 = 9223372036854775807;

/// Whether the digits denote at most the greatest number.
fn fits(digits: &[u8]) -> bool
    ensures { result ≡ nat_le (value_from 0 digits.now) 9223372036854775807 }
{
    let mut n: u64 = 0;
    for d in digits {
        let digit = u64::from(d.saturating_sub(b'0'));
        if n > (MOST - digit) / 10 {
            return false;
        }
        n = n * 10 + digit;
    }
    true
}

/// Whether the digits have no leading zero and denote at most the greatest number.
fn is_number(digits: &[u8]) -> bool
    ensures { result ≡ is_number_within digits.now }
{
    if digits.len() > 1 && digits[0] == b'0' {
        false
    } else {
        fits(digits)
    }
}

/// The number at the front, which begins with a digit.
pub fn number(bytes: &[u8]) -> Piece
    ensures piece { result ≡ number_of bytes.now }
    ensures within { size_of result ≤ length bytes.now }
{
    let n = run_of(Class::Digit, bytes);
    let (digits, _) = bytes.split_at(n);
    if is_number(digits) {
        Piece::Token(TokenKind::Number, n)
    } else {
        Piece::Bad(0)
    }
}
