//! Names and texts of tokens.

ghost use Rattle.std.specs.Prelude.{ℕ, List, ◌≡◌, ◌∷◌, ◌++◌, ◌≤◌, false, length, IfOk, OnOk, IsTrue, true};
ghost use Rattle.std.specs.Str.{IsAscii};
ghost use Rattle.fn_lex.specs.Lexemes.{denoted, denoted_from, escaped_byte, is_quoted};
ghost use Rattle.fn_grammar.specs.Letters.{fits, is_name};
ghost use Rattle.fn_grammar.specs.Derivation.{pushed};
ghost use Rattle.fn_grammar.specs.Written.{seen_as, IsToken};
ghost use Rattle.fn_syntax.specs.Machine.{trees_of};
ghost use Rattle.fn_syntax.specs.Texts.{closes_text};

use crate::trees::Trees;
use fn_grammar::{Letter, Symbol, value};
use fn_tree::expr::Expr;
use r3_value::{Memory, Txt};
use std::alloc::Global;

/// The text of these bytes.
fn txt(alloc: Global, bytes: &[u8]) -> Result<Txt, Memory>
    requires ascii { IsAscii bytes.now }
    requires short { length bytes.now ≤ 4091 }
    ensures { IfOk result (λ t. t ≡ bytes.now) }
{
    match str::from_utf8(bytes) {
        Ok(text) => match Txt::new(alloc, text) {
            Ok(text) => Ok(text),
            Err(_) => Err(Memory),
        },
        Err(_) => unreachable!(),
    }
}

/// A name.
fn name(alloc: Global, letter: Letter) -> Result<Txt, Memory>
    requires token { IsToken letter }
    requires kind { is_name letter.kind ≡ true }
    ensures { IfOk result (λ t. t ≡ letter.entry.word.now) }
{
    txt(alloc, letter.word)
}

/// What a byte behind a backslash denotes.
fn escaped_byte(b: u8) -> u8
    ensures { result ≡ escaped_byte b }
{
    if b == b'n' { b'\n' } else { b }
}

/// The byte closes a text.
fn closes(escaped: bool, b: u8) -> bool
    ensures { result ≡ closes_text escaped b }
{
    !escaped && b == b'"'
}

/// Takes one byte more of a text, and says whether the next one stands behind a backslash.
fn unescape(bytes: &mut Vec<u8>, escaped: bool, b: u8) -> Result<bool, Memory>
    requires { closes_text escaped b ≡ false }
    ensures { IfOk result (λ next. (w : List ℕ)
        → bytes.new.items ++ denoted_from next w ≡ bytes.old.items ++ denoted_from escaped (b ∷ w)) }
{
    if escaped {
        bytes.push(escaped_byte(b))?;
        return Ok(false);
    }
    if b == b'\\' {
        return Ok(true);
    }
    bytes.push(b)?;
    Ok(false)
}

/// What a text token denotes.
fn unquoted(alloc: Global, word: &[u8]) -> Result<Txt, Memory>
    requires quoted { IsTrue (is_quoted word.now) }
    requires short { length (denoted word.now) ≤ 4091 }
    ensures { IfOk result (λ t. t ≡ denoted word.now) }
{
    let mut bytes = Vec::new(alloc);
    let mut escaped = false;
    let (_, rest) = word.split_at(1);
    for b in rest {
        if closes(escaped, *b) {
            return txt(alloc, bytes.as_slice());
        }
        escaped = unescape(&mut bytes, escaped, *b)?;
    }
    txt(alloc, bytes.as_slice())
}

/// Lays the tree of a token on its stack, where it has one.
pub fn push_letter(
    alloc: Global,
    symbol: Symbol,
    letter: Letter,
    t: &mut Trees,
) -> Result<(), Memory>
    requires token { IsToken letter }
    requires fits { fits symbol (seen_as letter) ≡ true }
    ensures { OnOk result (trees_of t.new ≡ pushed symbol (seen_as letter.entry) (trees_of t.old)) }
{
    match symbol {
        Symbol::Name | Symbol::Param => {
            let name = name(alloc, letter)?;
            t.names.push(name)
        }
        Symbol::Bound => t.bounds.push(value(letter.word) as u32),
        Symbol::Number => t.exprs.push(Expr::Int(value(letter.word) as i64)),
        Symbol::Text => {
            let text = unquoted(alloc, letter.word)?;
            t.exprs.push(Expr::Text(text))
        }
        _ => Ok(()),
    }
}
