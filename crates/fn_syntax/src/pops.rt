//! What stands on top of each stack. The values for empty stacks never come up.

ghost use Rattle.std.specs.Prelude.{◌≡◌, ◌∷◌, ◌++◌, IfOk, OnOk, []};
ghost use Rattle.fn_tree.specs.declared.expr.Expr as tree;
ghost use Rattle.fn_tree.specs.declared.stmt.Ask.TheVariants as step;
ghost use Rattle.fn_tree.specs.declared.stmt.Rhs.TheVariants as right;
ghost use Rattle.fn_grammar.specs.Trees.{first, rest, onto};

use crate::stack::Stack;
use fn_tree::expr::Expr;
use fn_tree::stmt::{Ask, Rhs, Stmt};
use r3_value::{Memory, Txt};
use sqlite_items::Items;
use std::alloc::Global;

/// A name.
pub fn pop_name(alloc: Global, stack: &mut Stack<Txt>) -> Result<Txt, Memory>
    ensures top { IfOk result (λ x. x ≡ first [] stack.old) }
    ensures rest { stack.new ≡ rest stack.old }
{
    match stack.pop() {
        Some(x) => Ok(x),
        None => no_name(alloc),
    }
}

fn no_name(alloc: Global) -> Result<Txt, Memory>
    ensures { IfOk result (λ x. x ≡ []) }
{
    match Txt::new(alloc, "") {
        Ok(x) => Ok(x),
        Err(_) => Err(Memory),
    }
}

/// A list of names.
pub fn pop_list(alloc: Global, stack: &mut Stack<Items<Txt>>) -> Items<Txt>
    ensures top { result ≡ first [] stack.old }
    ensures rest { stack.new ≡ rest stack.old }
{
    match stack.pop() {
        Some(x) => x,
        None => Items::new(alloc),
    }
}

/// A queue's number.
pub fn pop_bound(stack: &mut Stack<u32>) -> u32
    ensures top { result ≡ first 0 stack.old }
    ensures rest { stack.new ≡ rest stack.old }
{
    match stack.pop() {
        Some(x) => x,
        None => 0,
    }
}

/// An expression.
pub fn pop_expr(stack: &mut Stack<Expr>) -> Expr
    ensures top { result ≡ first tree.Null stack.old }
    ensures rest { stack.new ≡ rest stack.old }
{
    match stack.pop() {
        Some(x) => x,
        None => Expr::Null,
    }
}

/// A list of expressions.
pub fn pop_group(alloc: Global, stack: &mut Stack<Items<Expr>>) -> Items<Expr>
    ensures top { result ≡ first [] stack.old }
    ensures rest { stack.new ≡ rest stack.old }
{
    match stack.pop() {
        Some(x) => x,
        None => Items::new(alloc),
    }
}

/// A step of a workflow.
pub fn pop_ask(stack: &mut Stack<Ask>) -> Ask
    ensures top { result ≡ first (step.Await tree.Null) stack.old }
    ensures rest { stack.new ≡ rest stack.old }
{
    match stack.pop() {
        Some(x) => x,
        None => Ask::Await { id: Expr::Null },
    }
}

/// A right side.
pub fn pop_rhs(stack: &mut Stack<Rhs>) -> Rhs
    ensures top { result ≡ first (right.Plain tree.Null) stack.old }
    ensures rest { stack.new ≡ rest stack.old }
{
    match stack.pop() {
        Some(x) => x,
        None => Rhs::Plain(Expr::Null),
    }
}

/// A block.
pub fn pop_block(alloc: Global, stack: &mut Stack<Items<Stmt>>) -> Items<Stmt>
    ensures top { result ≡ first [] stack.old }
    ensures rest { stack.new ≡ rest stack.old }
{
    match stack.pop() {
        Some(x) => x,
        None => Items::new(alloc),
    }
}

/// Puts a statement behind those of the block on top.
pub fn add_stmt(alloc: Global, stack: &mut Stack<Items<Stmt>>, s: Stmt) -> Result<(), Memory>
    ensures { OnOk result (stack.new ≡ onto s stack.old) }
{
    let mut body = pop_block(alloc, stack);
    body.push(s)?;
    stack.push(body)
}
