//! Function files: from a text to a program that the checker finds nothing wrong in.

ghost use Rattle.std.specs.Prelude.{◌≡◌, ◌≤◌, ◌^◌, List, Err, IfOk, length};
ghost use Rattle.fn_tree.specs.declared.program.Item.{Item};
ghost use Rattle.r3_top.specs.Functions.{IsText, IsAccepted, IsRefused};
ghost use Rattle.r3_top.specs.declared.functions.FunctionsFault.{FunctionsFault};
ghost use Rattle.fn_check.specs.FirstFault.{IsReadable};

use fn_check::{CheckError, CheckKind, check};
use fn_lex::{LexError, one_reading, tokens};
use fn_syntax::{SyntaxError, parse};
use fn_tree::checked::Checked;
use fn_tree::program::Program;
use std::alloc::Global;

/// Why a text is no function file. The first that holds is told.
#[derive(Clone, Copy, Debug, PartialEq, Eq)]
pub enum FunctionsFault {
    /// At this byte no token stands.
    Lex { at: u32 },
    /// At this byte a token stands with which no program goes on, or the text ends.
    Syntax { at: u32 },
    /// This item, counted from 1, has a fault.
    Check { item: u32, kind: CheckKind },
}

/// Why no functions are there.
#[derive(Clone, Copy, Debug, PartialEq, Eq)]
pub enum NoFunctions {
    Refused { fault: FunctionsFault },
    Memory,
}

fn program_of(alloc: Global, text: &[u8]) -> Result<Program, NoFunctions>
    requires { length text.now ≤ 2 ^ 20 }
    ensures text { IfOk result (λ p. IsText text.now p.items.items × IsReadable p.items.items) }
    ensures only { IfOk result (λ p. (items : List Item) → IsText text.now items → items ≡ p.items.items) }
    ensures refused { (fault : _) → result ≡ Err (NoFunctions.Refused fault) → IsRefused text.now fault }
    ensures none { (fault : _) → result ≡ Err (NoFunctions.Refused fault) →
        (items : List Item) → IsText text.now items → ⊥ }
{
    one_reading();
    let tokens = match tokens(alloc, text) {
        Ok(tokens) => tokens,
        Err(LexError::Lex { at }) => {
            return Err(NoFunctions::Refused {
                fault: FunctionsFault::Lex { at },
            });
        }
        Err(LexError::Memory) => return Err(NoFunctions::Memory),
    };
    match parse(alloc, text, &tokens) {
        Ok(program) => Ok(program),
        Err(SyntaxError::Syntax { at }) => Err(NoFunctions::Refused {
            fault: FunctionsFault::Syntax { at },
        }),
        Err(SyntaxError::Memory) => Err(NoFunctions::Memory),
    }
}

/// The functions of a text of at most 2^20 bytes.
pub fn functions_of(alloc: Global, text: &[u8]) -> Result<Checked, NoFunctions>
    requires { length text.now ≤ 2 ^ 20 }

    // A text that is taken has no fault, and one that is refused is no function file.
    ensures accepted { IfOk result (λ p. IsAccepted text.now p) }
    ensures faultless { IfOk result (λ _. (fault : FunctionsFault) → IsRefused text.now fault → ⊥) }
    ensures refused { (fault : _) → result ≡ Err (NoFunctions.Refused fault) → IsRefused text.now fault }
    ensures none { (fault : _) → result ≡ Err (NoFunctions.Refused fault) →
        (items : List Item) → IsAccepted text.now items → ⊥ }
{
    one_reading();
    let program = match program_of(alloc, text) {
        Ok(program) => program,
        Err(miss) => return Err(miss),
    };
    match check(alloc, program) {
        Ok(checked) => {
            // It tells that the program is sound.
            let _program = checked.program();
            Ok(checked)
        }
        Err(CheckError::Check { item, kind }) => Err(NoFunctions::Refused {
            fault: FunctionsFault::Check { item, kind },
        }),
        Err(CheckError::Memory) => Err(NoFunctions::Memory),
    }
}
