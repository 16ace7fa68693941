//! The trees of statements. Each is put behind the others of its block.

ghost use Rattle.std.specs.Prelude.{◌≡◌, ◌∷◌, ◌++◌, [], OnOk, IfOk};
ghost use Rattle.fn_grammar.specs.Trees.{statement_made};
ghost use Rattle.fn_syntax.specs.Machine.{trees_of};

use crate::pops::{add_stmt, pop_ask, pop_block, pop_expr, pop_name, pop_rhs};
use crate::trees::Trees;
use fn_grammar::Statement;
use fn_tree::stmt::Stmt;
use r3_value::Memory;
use std::alloc::Global;

/// `let`.
fn bind(alloc: Global, t: &mut Trees) -> Result<(), Memory>
    ensures { OnOk result (trees_of t.new ≡ statement_made Statement.Let (trees_of t.old)) }
{
    let name = pop_name(alloc, &mut t.names)?;
    let rhs = pop_rhs(&mut t.rights);
    add_stmt(alloc, &mut t.blocks, Stmt::Let { name, rhs })
}

/// `set`.
fn set(alloc: Global, t: &mut Trees) -> Result<(), Memory>
    ensures { OnOk result (trees_of t.new ≡ statement_made Statement.Set (trees_of t.old)) }
{
    let name = pop_name(alloc, &mut t.names)?;
    let rhs = pop_rhs(&mut t.rights);
    add_stmt(alloc, &mut t.blocks, Stmt::Set { name, rhs })
}

/// `do`.
fn step(alloc: Global, t: &mut Trees) -> Result<(), Memory>
    ensures { OnOk result (trees_of t.new ≡ statement_made Statement.Do (trees_of t.old)) }
{
    let ask = pop_ask(&mut t.asks);
    add_stmt(alloc, &mut t.blocks, Stmt::Do { ask })
}

/// `put`.
fn put(alloc: Global, t: &mut Trees) -> Result<(), Memory>
    ensures { OnOk result (trees_of t.new ≡ statement_made Statement.Put (trees_of t.old)) }
{
    let table = pop_name(alloc, &mut t.names)?;
    let value = pop_expr(&mut t.exprs);
    let key = pop_expr(&mut t.exprs);
    add_stmt(alloc, &mut t.blocks, Stmt::Put { table, key, value })
}

/// `delete`.
fn delete(alloc: Global, t: &mut Trees) -> Result<(), Memory>
    ensures { OnOk result (trees_of t.new ≡ statement_made Statement.Delete (trees_of t.old)) }
{
    let table = pop_name(alloc, &mut t.names)?;
    let key = pop_expr(&mut t.exprs);
    add_stmt(alloc, &mut t.blocks, Stmt::Delete { table, key })
}

/// `if` alone.
fn branch(alloc: Global, t: &mut Trees) -> Result<(), Memory>
    ensures { OnOk result (trees_of t.new ≡ statement_made Statement.If (trees_of t.old)) }
{
    let cond = pop_expr(&mut t.exprs);
    let yes = pop_block(alloc, &mut t.blocks);
    add_stmt(
        alloc,
        &mut t.blocks,
        Stmt::If {
            cond,
            yes,
            no: None,
        },
    )
}

/// `if` with `else`.
fn branch_or(alloc: Global, t: &mut Trees) -> Result<(), Memory>
    ensures { OnOk result (trees_of t.new ≡ statement_made Statement.IfElse (trees_of t.old)) }
{
    let cond = pop_expr(&mut t.exprs);
    let no = pop_block(alloc, &mut t.blocks);
    let yes = pop_block(alloc, &mut t.blocks);
    add_stmt(
        alloc,
        &mut t.blocks,
        Stmt::If {
            cond,
            yes,
            no: Some(no),
        },
    )
}

/// `while`.
fn repeat(alloc: Global, t: &mut Trees) -> Result<(), Memory>
    ensures { OnOk result (trees_of t.new ≡ statement_made Statement.While (trees_of t.old)) }
{
    let cond = pop_expr(&mut t.exprs);
    let body = pop_block(alloc, &mut t.blocks);
    add_stmt(alloc, &mut t.blocks, Stmt::While { cond, body })
}

/// `each`.
fn each(alloc: Global, t: &mut Trees) -> Result<(), Memory>
    ensures { OnOk result (trees_of t.new ≡ statement_made Statement.Each (trees_of t.old)) }
{
    let name = pop_name(alloc, &mut t.names)?;
    let list = pop_expr(&mut t.exprs);
    let body = pop_block(alloc, &mut t.blocks);
    add_stmt(alloc, &mut t.blocks, Stmt::Each { name, list, body })
}

/// `try`.
fn attempt(alloc: Global, t: &mut Trees) -> Result<(), Memory>
    ensures { OnOk result (trees_of t.new ≡ statement_made Statement.Try (trees_of t.old)) }
{
    let name = pop_name(alloc, &mut t.names)?;
    let handler = pop_block(alloc, &mut t.blocks);
    let body = pop_block(alloc, &mut t.blocks);
    add_stmt(
        alloc,
        &mut t.blocks,
        Stmt::Try {
            body,
            name,
            handler,
        },
    )
}

/// `return`.
fn answer(alloc: Global, t: &mut Trees) -> Result<(), Memory>
    ensures { OnOk result (trees_of t.new ≡ statement_made Statement.Return (trees_of t.old)) }
{
    let value = pop_expr(&mut t.exprs);
    add_stmt(alloc, &mut t.blocks, Stmt::Return { value })
}

/// `fail`.
fn fail(alloc: Global, t: &mut Trees) -> Result<(), Memory>
    ensures { OnOk result (trees_of t.new ≡ statement_made Statement.Fail (trees_of t.old)) }
{
    let word = pop_expr(&mut t.exprs);
    add_stmt(alloc, &mut t.blocks, Stmt::Fail { word })
}

/// The statement of this kind.
pub fn make_statement(alloc: Global, kind: Statement, t: &mut Trees) -> Result<(), Memory>
    ensures { OnOk result (trees_of t.new ≡ statement_made kind (trees_of t.old)) }
{
    match kind {
        Statement::Let => bind(alloc, t),
        Statement::Set => set(alloc, t),
        Statement::Do => step(alloc, t),
        Statement::Put => put(alloc, t),
        Statement::Delete => delete(alloc, t),
        Statement::If => branch(alloc, t),
        Statement::IfElse => branch_or(alloc, t),
        Statement::While => repeat(alloc, t),
        Statement::Each => each(alloc, t),
        Statement::Try => attempt(alloc, t),
        Statement::Return => answer(alloc, t),
        Statement::Fail => fail(alloc, t),
    }
}
