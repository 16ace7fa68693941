//! The trees of expressions, and of lists.

ghost use Rattle.std.specs.Prelude.{◌≡◌, ◌∷◌, ◌++◌, [], OnOk, IfOk};
ghost use Rattle.fn_grammar.specs.Trees.{made, node_of_two, node_of_one};
ghost use Rattle.fn_syntax.specs.Machine.{trees_of};

use crate::pops::{pop_expr, pop_group, pop_list, pop_name};
use crate::trees::Trees;
use fn_grammar::{Action, Binary, Unary};
use fn_tree::expr::Expr;
use r3_value::Memory;
use sqlite_items::Boxed;
use std::alloc::Global;

/// The node of an operation with two operands.
fn node_of_two(alloc: Global, op: Binary, a: Expr, b: Expr) -> Result<Expr, Memory>
    ensures { IfOk result (λ e. e ≡ node_of_two op a b) }
{
    let a = Boxed::new(alloc, a)?;
    let b = Boxed::new(alloc, b)?;
    Ok(match op {
        Binary::Or => Expr::Or(a, b),
        Binary::And => Expr::And(a, b),
        Binary::Eq => Expr::Eq(a, b),
        Binary::Ne => Expr::Ne(a, b),
        Binary::Lt => Expr::Lt(a, b),
        Binary::Le => Expr::Le(a, b),
        Binary::Gt => Expr::Gt(a, b),
        Binary::Ge => Expr::Ge(a, b),
        Binary::Add => Expr::Add(a, b),
        Binary::Sub => Expr::Sub(a, b),
        Binary::Join => Expr::Join(a, b),
        Binary::Mul => Expr::Mul(a, b),
        Binary::Div => Expr::Div(a, b),
        Binary::Rem => Expr::Rem(a, b),
        Binary::Index => Expr::Index(a, b),
    })
}

/// The node of an operation with one operand.
fn node_of_one(alloc: Global, op: Unary, a: Expr) -> Result<Expr, Memory>
    ensures { IfOk result (λ e. e ≡ node_of_one op a) }
{
    let a = Boxed::new(alloc, a)?;
    Ok(match op {
        Unary::Neg => Expr::Neg(a),
        Unary::Not => Expr::Not(a),
        Unary::Len => Expr::Len(a),
        Unary::Str => Expr::Str(a),
    })
}

/// An operation with two operands.
pub fn two(alloc: Global, op: Binary, t: &mut Trees) -> Result<(), Memory>
    ensures { OnOk result (trees_of t.new ≡ made (Action.Two op) (trees_of t.old)) }
{
    let b = pop_expr(&mut t.exprs);
    let a = pop_expr(&mut t.exprs);
    let node = node_of_two(alloc, op, a, b)?;
    t.exprs.push(node)
}

/// An operation with one operand.
pub fn one(alloc: Global, op: Unary, t: &mut Trees) -> Result<(), Memory>
    ensures { OnOk result (trees_of t.new ≡ made (Action.One op) (trees_of t.old)) }
{
    let a = pop_expr(&mut t.exprs);
    let node = node_of_one(alloc, op, a)?;
    t.exprs.push(node)
}

/// One more name in a list.
pub fn add_name(alloc: Global, t: &mut Trees) -> Result<(), Memory>
    ensures { OnOk result (trees_of t.new ≡ made Action.AddName (trees_of t.old)) }
{
    let x = pop_name(alloc, &mut t.names)?;
    let mut xs = pop_list(alloc, &mut t.lists);
    xs.push(x)?;
    t.lists.push(xs)
}

/// One more expression in a list.
pub fn add_expr(alloc: Global, t: &mut Trees) -> Result<(), Memory>
    ensures { OnOk result (trees_of t.new ≡ made Action.AddExpr (trees_of t.old)) }
{
    let e = pop_expr(&mut t.exprs);
    let mut es = pop_group(alloc, &mut t.groups);
    es.push(e)?;
    t.groups.push(es)
}

/// A list.
pub fn list(alloc: Global, t: &mut Trees) -> Result<(), Memory>
    ensures { OnOk result (trees_of t.new ≡ made Action.List (trees_of t.old)) }
{
    let es = pop_group(alloc, &mut t.groups);
    t.exprs.push(Expr::List(es))
}

/// A call of a helper.
pub fn apply(alloc: Global, t: &mut Trees) -> Result<(), Memory>
    ensures { OnOk result (trees_of t.new ≡ made Action.Apply (trees_of t.old)) }
{
    let name = pop_name(alloc, &mut t.names)?;
    let args = pop_group(alloc, &mut t.groups);
    t.exprs.push(Expr::Helper { name, args })
}

/// A variable.
pub fn variable(alloc: Global, t: &mut Trees) -> Result<(), Memory>
    ensures { OnOk result (trees_of t.new ≡ made Action.Variable (trees_of t.old)) }
{
    let name = pop_name(alloc, &mut t.names)?;
    t.exprs.push(Expr::Name(name))
}
