//! Steps, right sides and statements.

ghost use Rattle.std.specs.Prelude.{◌≡◌, ◌∷◌, ◌++◌, [], OnOk, Some, None, map};
ghost use Rattle.fn_tree.specs.declared.stmt.Stmt as tree;
ghost use Rattle.fn_spell.specs.Pieces.{spaced, a_name, a_word};
ghost use Rattle.fn_spell.specs.Spelling.{outer_pieces, key_pieces, args_pieces, ask_pieces, rhs_pieces};
ghost use Rattle.fn_spell.specs.Spelling.{ended, stmt_pieces, body_pieces};

use crate::expressions::{outer, outers};
use crate::words::{name, word};
use fn_grammar::Lexeme;
use fn_tree::expr::Expr;
use fn_tree::stmt::{Ask, Rhs, Stmt};
use r3_value::{Memory, Txt};

/// The key of a row.
fn key(out: &mut Vec<u8>, e: &Expr) -> Result<(), Memory>
    ensures { OnOk result (out.new.items ≡ out.old.items ++ spaced (key_pieces e.now)) }
{
    word(out, Lexeme::OpenBracket)?;
    outer(out, e)?;
    word(out, Lexeme::CloseBracket)?;
    Ok(())
}

/// A step with arguments.
fn step(out: &mut Vec<u8>, l: Lexeme, f: &Txt, args: &[Expr]) -> Result<(), Memory>
    ensures { OnOk result (out.new.items ≡ out.old.items
        ++ spaced (a_word l ∷ a_name f.now ∷ args_pieces args.now)) }
{
    word(out, l)?;
    name(out, f)?;
    word(out, Lexeme::OpenParen)?;
    outers(out, args)?;
    Ok(())
}

/// A word and an expression.
fn valued(out: &mut Vec<u8>, l: Lexeme, e: &Expr) -> Result<(), Memory>
    ensures { OnOk result (out.new.items ≡ out.old.items ++ spaced (a_word l ∷ outer_pieces e.now)) }
{
    word(out, l)?;
    outer(out, e)?;
    Ok(())
}

/// A step of a workflow.
fn ask(out: &mut Vec<u8>, ask: &Ask) -> Result<(), Memory>
    ensures { OnOk result (out.new.items ≡ out.old.items ++ spaced (ask_pieces ask.now)) }
{
    match ask {
        Ask::Call { name, args } => step(out, Lexeme::Call, name, args.as_slice()),
        Ask::Spawn { name, args } => step(out, Lexeme::Spawn, name, args.as_slice()),
        Ask::Await { id } => valued(out, Lexeme::Await, id),
    }
}

/// `get t[k]`.
fn get(out: &mut Vec<u8>, table: &Txt, k: &Expr) -> Result<(), Memory>
    ensures { OnOk result (out.new.items ≡ out.old.items
        ++ spaced (a_word Lexeme.Get ∷ a_name table.now ∷ key_pieces k.now)) }
{
    word(out, Lexeme::Get)?;
    name(out, table)?;
    key(out, k)?;
    Ok(())
}

/// `scan t[lo, hi]`.
fn scan(out: &mut Vec<u8>, table: &Txt, lo: &Expr, hi: &Expr) -> Result<(), Memory>
    ensures { OnOk result (out.new.items ≡ out.old.items
        ++ spaced (rhs_pieces (Rhs.Scan table.now lo.now hi.now))) }
{
    word(out, Lexeme::Scan)?;
    name(out, table)?;
    word(out, Lexeme::OpenBracket)?;
    outer(out, lo)?;
    word(out, Lexeme::Comma)?;
    outer(out, hi)?;
    word(out, Lexeme::CloseBracket)?;
    Ok(())
}

/// What stands behind the `=` of a binding.
fn rhs(out: &mut Vec<u8>, rhs: &Rhs) -> Result<(), Memory>
    ensures { OnOk result (out.new.items ≡ out.old.items ++ spaced (rhs_pieces rhs.now)) }
{
    match rhs {
        Rhs::Plain(e) => outer(out, e),
        Rhs::Ask(a) => ask(out, a),
        Rhs::Get { table, key } => get(out, table, key),
        Rhs::Scan { table, lo, hi } => scan(out, table, lo, hi),
    }
}

/// `let x = ..;` and `set x = ..;`.
fn binding(out: &mut Vec<u8>, l: Lexeme, x: &Txt, r: &Rhs) -> Result<(), Memory>
    ensures { OnOk result (out.new.items ≡ out.old.items
        ++ spaced (a_word l ∷ a_name x.now ∷ a_word Lexeme.Assign ∷ ended (rhs_pieces r.now))) }
{
    word(out, l)?;
    name(out, x)?;
    word(out, Lexeme::Assign)?;
    rhs(out, r)?;
    word(out, Lexeme::Semicolon)?;
    Ok(())
}

/// `do ..;`.
fn done(out: &mut Vec<u8>, a: &Ask) -> Result<(), Memory>
    ensures { OnOk result (out.new.items ≡ out.old.items
        ++ spaced (a_word Lexeme.Do ∷ ended (ask_pieces a.now))) }
{
    word(out, Lexeme::Do)?;
    ask(out, a)?;
    word(out, Lexeme::Semicolon)?;
    Ok(())
}

/// `put t[k] = e;`.
fn put(out: &mut Vec<u8>, table: &Txt, k: &Expr, e: &Expr) -> Result<(), Memory>
    ensures { OnOk result (out.new.items ≡ out.old.items
        ++ spaced (a_word Lexeme.Put ∷ a_name table.now
        ∷ (key_pieces k.now ++ a_word Lexeme.Assign ∷ ended (outer_pieces e.now)))) }
{
    word(out, Lexeme::Put)?;
    name(out, table)?;
    key(out, k)?;
    word(out, Lexeme::Assign)?;
    outer(out, e)?;
    word(out, Lexeme::Semicolon)?;
    Ok(())
}

/// `delete t[k];`.
fn delete(out: &mut Vec<u8>, table: &Txt, k: &Expr) -> Result<(), Memory>
    ensures { OnOk result (out.new.items ≡ out.old.items
        ++ spaced (a_word Lexeme.Delete ∷ a_name table.now ∷ ended (key_pieces k.now))) }
{
    word(out, Lexeme::Delete)?;
    name(out, table)?;
    key(out, k)?;
    word(out, Lexeme::Semicolon)?;
    Ok(())
}

/// `return e;` and `fail e;`.
fn leave(out: &mut Vec<u8>, l: Lexeme, e: &Expr) -> Result<(), Memory>
    ensures { OnOk result (out.new.items ≡ out.old.items
        ++ spaced (a_word l ∷ ended (outer_pieces e.now))) }
{
    word(out, l)?;
    outer(out, e)?;
    word(out, Lexeme::Semicolon)?;
    Ok(())
}

/// A statement.
#[cycle(stmt)]
#[tactic(auto, using(crate::proofs::NodeLemmas::statement_nodes))]
fn stmt(out: &mut Vec<u8>, s: &Stmt) -> Result<(), Memory>
    ensures { OnOk result (out.new.items ≡ out.old.items ++ spaced (stmt_pieces s.now)) }
{
    match s {
        Stmt::Let { name, rhs } => binding(out, Lexeme::Let, name, rhs),
        Stmt::Set { name, rhs } => binding(out, Lexeme::Set, name, rhs),
        Stmt::Do { ask } => done(out, ask),
        Stmt::Put { table, key, value } => put(out, table, key, value),
        Stmt::Delete { table, key } => delete(out, table, key),
        Stmt::If { cond, yes, no } => match no {
            None => headed(out, Lexeme::If, cond, yes.as_slice()),
            Some(no) => if_else(out, cond, yes.as_slice(), no.as_slice()),
        },
        Stmt::While { cond, body } => headed(out, Lexeme::While, cond, body.as_slice()),
        Stmt::Each { name, list, body } => each(out, name, list, body.as_slice()),
        Stmt::Try {
            body,
            name,
            handler,
        } => attempt(out, body.as_slice(), name, handler.as_slice()),
        Stmt::Return { value } => leave(out, Lexeme::Return, value),
        Stmt::Fail { word } => leave(out, Lexeme::Fail, word),
    }
}

/// `if e { .. }` and `while e { .. }`.
#[cycle(stmt)]
fn headed(out: &mut Vec<u8>, l: Lexeme, e: &Expr, body: &[Stmt]) -> Result<(), Memory>
    ensures { OnOk result (out.new.items ≡ out.old.items
        ++ spaced (a_word l ∷ (outer_pieces e.now ++ body_pieces body.now))) }
{
    word(out, l)?;
    outer(out, e)?;
    block(out, body)?;
    Ok(())
}

/// `if e { .. } else { .. }`.
#[cycle(stmt)]
fn if_else(out: &mut Vec<u8>, e: &Expr, yes: &[Stmt], no: &[Stmt]) -> Result<(), Memory>
    ensures { OnOk result (out.new.items ≡ out.old.items
        ++ spaced (a_word Lexeme.If ∷ (outer_pieces e.now
        ++ (body_pieces yes.now ++ a_word Lexeme.Else ∷ body_pieces no.now)))) }
{
    word(out, Lexeme::If)?;
    outer(out, e)?;
    block(out, yes)?;
    word(out, Lexeme::Else)?;
    block(out, no)?;
    Ok(())
}

/// `each x in e { .. }`.
#[cycle(stmt)]
fn each(out: &mut Vec<u8>, x: &Txt, e: &Expr, body: &[Stmt]) -> Result<(), Memory>
    ensures { OnOk result (out.new.items ≡ out.old.items
        ++ spaced (a_word Lexeme.Each ∷ a_name x.now ∷ a_word Lexeme.In
        ∷ (outer_pieces e.now ++ body_pieces body.now))) }
{
    word(out, Lexeme::Each)?;
    name(out, x)?;
    word(out, Lexeme::In)?;
    outer(out, e)?;
    block(out, body)?;
    Ok(())
}

/// `try { .. } catch x { .. }`.
#[cycle(stmt)]
fn attempt(out: &mut Vec<u8>, body: &[Stmt], x: &Txt, handler: &[Stmt]) -> Result<(), Memory>
    ensures { OnOk result (out.new.items ≡ out.old.items
        ++ spaced (a_word Lexeme.Try ∷ (body_pieces body.now
        ++ a_word Lexeme.Catch ∷ a_name x.now ∷ body_pieces handler.now))) }
{
    word(out, Lexeme::Try)?;
    block(out, body)?;
    word(out, Lexeme::Catch)?;
    name(out, x)?;
    block(out, handler)?;
    Ok(())
}

/// Statements in braces.
#[cycle(stmt)]
pub fn block(out: &mut Vec<u8>, body: &[Stmt]) -> Result<(), Memory>
    ensures { OnOk result (out.new.items ≡ out.old.items ++ spaced (body_pieces body.now)) }
{
    word(out, Lexeme::OpenBrace)?;
    for s in body {
        stmt(out, s)?;
    }
    word(out, Lexeme::CloseBrace)?;
    Ok(())
}
