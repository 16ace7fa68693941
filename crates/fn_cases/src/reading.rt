//! From a text to a program that the checker finds nothing wrong in.

ghost use Rattle.std.specs.Prelude.{◌≡◌, ◌≤◌, ◌<◌, ◌^◌, None, IfErr, IfOk, IsErrOf, length};
ghost use Rattle.fn_lex.specs.Lexed.{Lexed};
ghost use Rattle.fn_tree.specs.Soundness.{IsSound};
ghost use Rattle.fn_check.specs.FirstFault.{IsReadable};
ghost use Rattle.fn_cases.specs.Programs.{IsText, IsAccepted, IsRefused, IsUnsound};

use fn_check::{CheckError, CheckKind, check};
use fn_lex::{LexError, Token, tokens};
use fn_syntax::{SyntaxError, parse};
use fn_tree::checked::Checked;
use fn_tree::program::Program;
use std::alloc::Global;
use thiserror::Error;

const MOST_BYTES: usize = 1 << 20;

/// Why a text is no program. The first that holds is told.
#[derive(Debug, Drop, Error)]
pub enum NoProgram {
    /// It has more than 2^20 bytes.
    #[error("the text is too long")]
    Long,
    /// At this byte no token stands.
    #[error("no token at byte {at}")]
    Lex { at: u32 },
    /// At this byte a token stands with which no program goes on, or the text ends.
    #[error("no program goes on so at byte {at}")]
    Syntax { at: u32 },
    /// This item, counted from 1, has the first fault.
    #[error("item {item}: {kind}")]
    Check { item: u32, kind: CheckKind },
    #[error("out of memory")]
    Memory,
}

// The tokens of a text.
fn lexed(alloc: Global, text: &[u8]) -> Result<Vec<Token>, NoProgram>
    requires { length text.now ≤ 2 ^ 20 }
    ensures lexed { IfOk result (λ ts. Lexed 0 text.now ts.items None) }
    ensures refused { IfErr result (IsRefused text.now) }
{
    match tokens(alloc, text) {
        Ok(tokens) => Ok(tokens),
        Err(LexError::Lex { at }) => Err(NoProgram::Lex { at }),
        Err(LexError::Memory) => Err(NoProgram::Memory),
    }
}

// The program that the tokens of a text are.
fn parsed(alloc: Global, text: &[u8], tokens: &[Token]) -> Result<Program, NoProgram>
    requires short { length text.now ≤ 2 ^ 20 }
    requires lexed { Lexed 0 text.now tokens.now None }
    ensures text { IfOk result (λ p. IsText text.now p.items.items × IsReadable p.items.items) }
    ensures refused { IfErr result (IsRefused text.now) }
{
    match parse(alloc, text, tokens) {
        Ok(program) => Ok(program),
        Err(SyntaxError::Syntax { at }) => Err(NoProgram::Syntax { at }),
        Err(SyntaxError::Memory) => Err(NoProgram::Memory),
    }
}

// The program where the checker finds nothing wrong in it.
fn checked(alloc: Global, program: Program) -> Result<Checked, NoProgram>
    requires readable { IsReadable program.items.items }
    ensures sound { IfOk result (λ c. (c ≡ program.items.items) × IsSound program.items.items) }
    ensures refused { IfErr result (IsUnsound program.items.items) }
{
    match check(alloc, program) {
        Ok(checked) => Ok(checked),
        Err(CheckError::Check { item, kind }) => Err(NoProgram::Check { item, kind }),
        Err(CheckError::Memory) => Err(NoProgram::Memory),
    }
}

/// The program of a text of at most 2^20 bytes.
pub fn program(alloc: Global, text: &[u8]) -> Result<Checked, NoProgram>
    // It is the text as the grammar reads it, and the checker finds nothing wrong in it.
    ensures accepted { IfOk result (IsAccepted text.now) }
    ensures refused { IfErr result (IsRefused text.now) }
    ensures long { 2 ^ 20 < length text.now → IsErrOf result NoProgram.Long }
{
    if text.len() > MOST_BYTES {
        return Err(NoProgram::Long);
    }
    let tokens = lexed(alloc, text)?;
    let program = parsed(alloc, text, &tokens)?;
    checked(alloc, program)
}
