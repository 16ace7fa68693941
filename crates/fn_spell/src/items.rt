//! Items.

ghost use Rattle.std.specs.Prelude.{◌≡◌, ◌∷◌, ◌++◌, [], IfOk, OnOk, pos, map, true};
ghost use Rattle.fn_tree.specs.declared.program.Item.TheVariants as tree;
ghost use Rattle.fn_spell.specs.Pieces.{spaced, a_name, a_word, a_number};
ghost use Rattle.fn_spell.specs.Spelling.{name_pieces, separated, params_pieces, item_pieces};
ghost use Rattle.fn_spell.specs.Spelling.{ended, body_pieces, program_pieces};

use crate::expressions::outer;
use crate::statements::block;
use crate::words::{comma, name, number, word};
use fn_grammar::Lexeme;
use fn_tree::expr::Expr;
use fn_tree::program::Item;
use fn_tree::stmt::Stmt;
use r3_value::{Memory, Txt};
use std::alloc::Global;

/// Names between commas, and the parenthesis that closes them.
fn names(out: &mut Vec<u8>, xs: &[Txt]) -> Result<(), Memory>
    ensures { OnOk result (out.new.items ≡ out.old.items
        ++ spaced (separated true Lexeme.CloseParen (map name_pieces xs.now))) }
{
    let mut first = true;
    for x in xs {
        comma(out, first)?;
        name(out, x)?;
        first = false;
    }
    word(out, Lexeme::CloseParen)?;
    Ok(())
}

/// Parameters in parentheses.
fn params(out: &mut Vec<u8>, xs: &[Txt]) -> Result<(), Memory>
    ensures { OnOk result (out.new.items ≡ out.old.items ++ spaced (params_pieces xs.now)) }
{
    word(out, Lexeme::OpenParen)?;
    names(out, xs)?;
    Ok(())
}

/// `table x;`.
fn table(out: &mut Vec<u8>, x: &Txt) -> Result<(), Memory>
    ensures { OnOk result (out.new.items ≡ out.old.items ++ spaced (item_pieces (tree.Table x.now))) }
{
    word(out, Lexeme::Table)?;
    name(out, x)?;
    word(out, Lexeme::Semicolon)?;
    Ok(())
}

/// `queue x n;`.
fn queue(out: &mut Vec<u8>, x: &Txt, n: u32) -> Result<(), Memory>
    ensures { OnOk result (out.new.items ≡ out.old.items ++ spaced (item_pieces (tree.Queue x.now n))) }
{
    word(out, Lexeme::Queue)?;
    name(out, x)?;
    number(out, i64::from(n))?;
    word(out, Lexeme::Semicolon)?;
    Ok(())
}

/// `outside x(..);`.
fn outside(out: &mut Vec<u8>, x: &Txt, xs: &[Txt]) -> Result<(), Memory>
    ensures { OnOk result (out.new.items ≡ out.old.items
        ++ spaced (item_pieces (tree.Outside x.now xs.now))) }
{
    word(out, Lexeme::Outside)?;
    name(out, x)?;
    params(out, xs)?;
    word(out, Lexeme::Semicolon)?;
    Ok(())
}

/// `helper x(..) = e;`.
fn helper(out: &mut Vec<u8>, x: &Txt, xs: &[Txt], e: &Expr) -> Result<(), Memory>
    ensures { OnOk result (out.new.items ≡ out.old.items
        ++ spaced (item_pieces (tree.Helper x.now xs.now e.now))) }
{
    word(out, Lexeme::Helper)?;
    name(out, x)?;
    params(out, xs)?;
    word(out, Lexeme::Assign)?;
    outer(out, e)?;
    word(out, Lexeme::Semicolon)?;
    Ok(())
}

/// `txn x(..) { .. }` and `flow x(..) { .. }`.
fn function(out: &mut Vec<u8>, l: Lexeme, x: &Txt, xs: &[Txt], body: &[Stmt]) -> Result<(), Memory>
    ensures { OnOk result (out.new.items ≡ out.old.items
        ++ spaced (a_word l ∷ a_name x.now ∷ (params_pieces xs.now ++ body_pieces body.now))) }
{
    word(out, l)?;
    name(out, x)?;
    params(out, xs)?;
    block(out, body)?;
    Ok(())
}

/// An item.
fn item(out: &mut Vec<u8>, item: &Item) -> Result<(), Memory>
    ensures { OnOk result (out.new.items ≡ out.old.items ++ spaced (item_pieces item.now)) }
{
    match item {
        Item::Table { name } => table(out, name),
        Item::Queue { name, bound } => queue(out, name, *bound),
        Item::Outside { name, params } => outside(out, name, params.as_slice()),
        Item::Helper { name, params, body } => helper(out, name, params.as_slice(), body),
        Item::Txn {
            serial: _,
            name,
            params,
            body,
        } => function(out, Lexeme::Txn, name, params.as_slice(), body.as_slice()),
        Item::Flow { name, params, body } => {
            function(out, Lexeme::Flow, name, params.as_slice(), body.as_slice())
        }
    }
}

/// The spelling of items, one behind the other.
pub fn items(alloc: Global, all: &[Item]) -> Result<Vec<u8>, Memory>
    ensures { IfOk result (λ bytes. bytes.items ≡ spaced (program_pieces all.now)) }
{
    let mut out = Vec::new(alloc);
    for i in all {
        item(&mut out, i)?;
    }
    Ok(out)
}
