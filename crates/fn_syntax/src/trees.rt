//! The trees of the parts that were read.

ghost use Rattle.std.specs.Prelude.{◌≡◌};
ghost use Rattle.fn_grammar.specs.Trees.{no_trees};
ghost use Rattle.fn_syntax.specs.Machine.{trees_of};

use crate::stack::Stack;
use fn_tree::expr::Expr;
use fn_tree::program::Item;
use fn_tree::stmt::{Ask, Rhs, Stmt};
use r3_value::Txt;
use sqlite_items::Items;
use std::alloc::Global;

/// The trees of the parts that were read, a stack of each kind, and the items.
#[derive(Drop)]
pub struct Trees {
    pub names: Stack<Txt>,
    /// Lists of names.
    pub lists: Stack<Items<Txt>>,
    /// How many workflows of a queue run at a time.
    pub bounds: Stack<u32>,
    pub exprs: Stack<Expr>,
    /// Lists of expressions.
    pub groups: Stack<Items<Expr>>,
    pub asks: Stack<Ask>,
    /// Right sides of bindings.
    pub rights: Stack<Rhs>,
    pub blocks: Stack<Items<Stmt>>,
    pub items: Vec<Item>,
}

/// No trees.
pub fn no_trees(alloc: Global) -> Trees
    ensures { trees_of result ≡ no_trees }
{
    Trees {
        names: Stack::new(alloc),
        lists: Stack::new(alloc),
        bounds: Stack::new(alloc),
        exprs: Stack::new(alloc),
        groups: Stack::new(alloc),
        asks: Stack::new(alloc),
        rights: Stack::new(alloc),
        blocks: Stack::new(alloc),
        items: Vec::new(alloc),
    }
}
