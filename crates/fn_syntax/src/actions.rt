//! What the actions of the grammar do.

ghost use Rattle.std.specs.Prelude.{◌≡◌, ◌∷◌, ◌++◌, [], OnOk, IfOk};
ghost use Rattle.fn_grammar.specs.Trees.{made};
ghost use Rattle.fn_syntax.specs.Machine.{trees_of};

use crate::bindings::make_binding;
use crate::expressions::{add_expr, add_name, apply, list, one, two, variable};
use crate::items::make_item;
use crate::statements::make_statement;
use crate::trees::Trees;
use fn_grammar::Action;
use fn_tree::expr::Expr;
use r3_value::Memory;
use sqlite_items::Items;
use std::alloc::Global;

/// Makes the tree of a part.
pub fn make(alloc: Global, action: Action, t: &mut Trees) -> Result<(), Memory>
    ensures { OnOk result (trees_of t.new ≡ made action (trees_of t.old)) }
{
    match action {
        Action::Item(kind) => make_item(alloc, kind, t),
        Action::Stmt(kind) => make_statement(alloc, kind, t),
        Action::Bind(kind) => make_binding(alloc, kind, t),
        Action::Two(op) => two(alloc, op, t),
        Action::One(op) => one(alloc, op, t),
        Action::NoNames => t.lists.push(Items::new(alloc)),
        Action::AddName => add_name(alloc, t),
        Action::NoExprs => t.groups.push(Items::new(alloc)),
        Action::AddExpr => add_expr(alloc, t),
        Action::Empty => t.blocks.push(Items::new(alloc)),
        Action::Null => t.exprs.push(Expr::Null),
        Action::True => t.exprs.push(Expr::True),
        Action::False => t.exprs.push(Expr::False),
        Action::List => list(alloc, t),
        Action::Apply => apply(alloc, t),
        Action::Variable => variable(alloc, t),
    }
}
