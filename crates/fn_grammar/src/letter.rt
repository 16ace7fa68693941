//! Tokens with their bytes, and which symbol is written as which.

ghost use Rattle.std.specs.Prelude.{◌≡◌, ◌≤◌, IsTrue, true};
ghost use Rattle.fn_lex.specs.Lexemes.{value_from, is_number_within};
ghost use Rattle.fn_grammar.specs.Letters.{fits, is_fixed, is_bound};
ghost use Rattle.fn_grammar.specs.Steps.{is_terminal};
ghost use Rattle.fn_grammar.specs.Written.{seen_as, IsToken};

use crate::lexeme::text_of;
use crate::symbol::Symbol;
use fn_lex::TokenKind;

/// A token, with its bytes.
#[derive(Clone, Copy)]
pub struct Letter<'a> {
    pub kind: TokenKind,
    pub word: &'a [u8],
}

/// The number that the digits denote.
pub fn value(digits: &[u8]) -> u64
    requires { IsTrue (is_number_within digits.now) }
    ensures value { result ≡ value_from 0 digits.now }
    ensures most { result ≤ 9223372036854775807 }
{
    let mut n: u64 = 0;
    for d in digits {
        let digit = u64::from(d.saturating_sub(b'0'));
        n = n * 10 + digit;
    }
    n
}

fn is_fixed(kind: TokenKind) -> bool
    ensures { result ≡ is_fixed kind }
{
    match kind {
        TokenKind::Word | TokenKind::Sign => true,
        _ => false,
    }
}

/// The symbol is read by a token.
pub fn is_terminal(symbol: Symbol) -> bool
    ensures { result ≡ is_terminal symbol }
{
    match symbol {
        Symbol::Part(_) | Symbol::Make(_) | Symbol::Begin | Symbol::End => false,
        _ => true,
    }
}

/// The symbol is written as this token.
pub fn fits(symbol: Symbol, letter: Letter) -> bool
    requires { IsToken letter }
    ensures { result ≡ fits symbol (seen_as letter.entry) }
{
    match symbol {
        Symbol::Fixed(l) => is_fixed(letter.kind) && letter.word == text_of(l).as_bytes(),
        Symbol::Name | Symbol::Param => match letter.kind {
            TokenKind::Name => true,
            _ => false,
        },
        Symbol::Bound => match letter.kind {
            TokenKind::Number => is_bound(letter.word),
            _ => false,
        },
        Symbol::Number => match letter.kind {
            TokenKind::Number => true,
            _ => false,
        },
        Symbol::Text => match letter.kind {
            TokenKind::Text => true,
            _ => false,
        },
        _ => false,
    }
}

/// The number is from 1 to 1,000.
fn is_bound(digits: &[u8]) -> bool
    requires { IsTrue (is_number_within digits.now) }
    ensures { result ≡ is_bound digits.now }
{
    let n = value(digits);
    1 <= n && n <= 1000
}
