//! A text's tokens.

ghost use Rattle.std.specs.Prelude.{◌≡◌, ◌<◌, ◌≤◌, ◌^◌, ℕ, List, IfOk, Err, None, Some, length, drop};
ghost use Rattle.fn_lex.specs.Lexed.{Lexed};
ghost use Rattle.fn_lex.specs.declared.span.Token.{Token as Span};

use crate::fault::LexError;
use crate::front::{Piece, front_piece};
use crate::span::Token;
use std::alloc::Global;

/// The tokens of a text of fewer than 2^32 bytes, in order, or the first place where none stands.
///
/// At each place the longest lexeme is taken. Blanks and comments stand between tokens and are dropped.
pub fn tokens(alloc: Global, text: &[u8]) -> Result<Vec<Token>, LexError>
    requires { length text.now < 2 ^ 32 }
    ensures tokens { IfOk result (λ ts. Lexed 0 text.now ts.items None) }
    ensures refused { (at : ℕ) → result ≡ Err (LexError.Lex at) → (ts : List Span) × Lexed 0 text.now ts (Some at) }
{
    let mut all = Vec::new(alloc);
    let mut left = text;
    let mut at: u32 = 0;
    loop {
        match front_piece(left) {
            Piece::End => return Ok(all),
            Piece::Bad(n) => return Err(LexError::Lex { at: at + n as u32 }),
            Piece::Gap(n) => {
                at += n as u32;
                left = tail(left, n);
            }
            Piece::Token(kind, n) => {
                let to = at + n as u32;
                all.push(Token { kind, from: at, to })?;
                at = to;
                left = tail(left, n);
            }
        }
    }
}

/// The bytes from a place on.
fn tail(bytes: &[u8], at: usize) -> &[u8]
    requires { at ≤ length bytes.now }
    ensures { result.now ≡ drop at bytes.now }
{
    let (_, rest) = bytes.split_at(at);
    rest
}
