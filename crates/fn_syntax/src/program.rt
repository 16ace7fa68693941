//! Parsing.

ghost use Rattle.std.specs.Prelude.{◌≡◌, ◌<◌, ◌^◌, ℕ, List, IfOk, Err, None, length};
ghost use Rattle.std.specs.Prelude.{MatchResult, nat_lt, true};
ghost use Rattle.fn_lex.specs.Lexed.{Lexed};
ghost use Rattle.fn_tree.specs.Soundness.{each_passes, are_names, names_in, params_of};
ghost use Rattle.fn_tree.specs.declared.program.Item.{Item as Tree};
ghost use Rattle.fn_grammar.specs.Letters.{letters};
ghost use Rattle.fn_grammar.specs.Derivation.{IsProgram};
ghost use Rattle.fn_grammar.specs.Place.{IsPlace};
ghost use Rattle.fn_spell.specs.Limits.{IsReadAs};

use crate::fault::SyntaxError;
use crate::parser::Parser;
use fn_grammar::Letter;
use fn_lex::{Token, one_reading, spans_are_slices};
use fn_tree::program::Program;
use std::alloc::Global;

/// The program that the tokens of a text of fewer than 2^32 bytes are.
///
/// Limits: 1,000 items, 16 parameters, a queue's number from 1 to 1,000, 64 open brackets, and 1,024
/// tokens of an expression that stands in no other.
pub fn parse(alloc: Global, text: &[u8], tokens: &[Token]) -> Result<Program, SyntaxError>
    requires lexed { Lexed 0 text.now tokens.now None }
    requires short { length text.now < 2 ^ 32 }

    // The program is the one that the grammar gives, within the limits; there is no other.
    ensures tree { IfOk result (λ p. IsProgram (letters text.now tokens.now) p.items.items) }
    ensures only { IfOk result (λ p. (q : List Tree)
        → IsProgram (letters text.now tokens.now) q → q ≡ p.items.items) }

    // Every name that an item declares or binds has 1 to 64 bytes; an item has at most 16 parameters.
    ensures names { IfOk result
        (λ p. each_passes (λ i. are_names (names_in i)) p.items.items ≡ true) }
    ensures few_params { IfOk result
        (λ p. each_passes (λ i. nat_lt (length (params_of i)) 17) p.items.items ≡ true) }

    // What is refused is no program, and is refused at its place.
    ensures place { (at : ℕ)
        → result ≡ Err (SyntaxError.Syntax at) → IsPlace text.now tokens.now at }
    ensures none { (at : ℕ)
        → result ≡ Err (SyntaxError.Syntax at)
        → (q : List Tree) → IsProgram (letters text.now tokens.now) q → ⊥ }

    // Bytes that are read as these items, as a spelling within the limits is, are parsed as just these.
    ensures spelled { (q : List Tree) → IsReadAs text.now q
        → MatchResult result (λ p. p.items.items ≡ q) (λ e. e ≡ SyntaxError.Memory) }
{
    spans_are_slices();
    one_reading();
    let mut parser = Parser::new(alloc)?;
    for token in tokens {
        let word = &text[token.from as usize..token.to as usize];
        let kind = token.kind;
        if !parser.step(Some(Letter { kind, word }))? {
            return Err(SyntaxError::Syntax { at: token.from });
        }
    }
    if parser.step(None)? {
        Ok(Program {
            items: parser.into_items(),
        })
    } else {
        Err(SyntaxError::Syntax {
            at: text.len() as u32,
        })
    }
}
