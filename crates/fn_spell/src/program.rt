//! Spelling.

ghost use Rattle.std.specs.Prelude.{◌≡◌, IfOk};
ghost use Rattle.fn_spell.specs.Pieces.{spaced};
ghost use Rattle.fn_spell.specs.Spelling.{program_pieces};
ghost use Rattle.fn_spell.specs.Limits.{HasTokens, KeepsLimits, IsReadAs};

use crate::items::items;
use fn_tree::program::Program;
use r3_value::Memory;

/// The tokens of the tree, each followed by a space, with parentheses round every unary and binary
/// operation.
///
/// Parsed again it gives the tree, where each name, number and text of the tree is that of a token of
/// its kind (a name no reserved word, a number not below zero, a text of printable ASCII and newlines)
/// and the spelling keeps the limits of the grammar.
pub fn spell(program: &Program) -> Result<Vec<u8>, Memory>
    ensures spelling { IfOk result (λ bytes.
        bytes.items ≡ spaced (program_pieces program.now.items.items)) }

    // The bytes have tokens, and they are a program of the grammar with just this tree.
    ensures read { IfOk result (λ bytes.
        HasTokens program.now.items.items
        → KeepsLimits program.now.items.items
        → IsReadAs bytes.items program.now.items.items) }
{
    let bytes = items(*program.items.allocator(), program.items.as_slice())?;
    Ok(bytes)
}
