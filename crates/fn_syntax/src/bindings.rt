//! The trees of right sides, and of steps of workflows.

ghost use Rattle.std.specs.Prelude.{◌≡◌, ◌∷◌, ◌++◌, [], OnOk, IfOk};
ghost use Rattle.fn_grammar.specs.Trees.{binding_made};
ghost use Rattle.fn_syntax.specs.Machine.{trees_of};

use crate::pops::{pop_ask, pop_expr, pop_group, pop_name};
use crate::trees::Trees;
use fn_grammar::Binding;
use fn_tree::stmt::{Ask, Rhs};
use r3_value::Memory;
use std::alloc::Global;

/// `call`.
fn call(alloc: Global, t: &mut Trees) -> Result<(), Memory>
    ensures { OnOk result (trees_of t.new ≡ binding_made Binding.Call (trees_of t.old)) }
{
    let name = pop_name(alloc, &mut t.names)?;
    let args = pop_group(alloc, &mut t.groups);
    t.asks.push(Ask::Call { name, args })
}

/// `spawn`.
fn spawn(alloc: Global, t: &mut Trees) -> Result<(), Memory>
    ensures { OnOk result (trees_of t.new ≡ binding_made Binding.Spawn (trees_of t.old)) }
{
    let name = pop_name(alloc, &mut t.names)?;
    let args = pop_group(alloc, &mut t.groups);
    t.asks.push(Ask::Spawn { name, args })
}

/// `await`.
fn wait(alloc: Global, t: &mut Trees) -> Result<(), Memory>
    ensures { OnOk result (trees_of t.new ≡ binding_made Binding.Await (trees_of t.old)) }
{
    let id = pop_expr(&mut t.exprs);
    t.asks.push(Ask::Await { id })
}

/// A step, for its answer.
fn asked(alloc: Global, t: &mut Trees) -> Result<(), Memory>
    ensures { OnOk result (trees_of t.new ≡ binding_made Binding.Asked (trees_of t.old)) }
{
    let ask = pop_ask(&mut t.asks);
    t.rights.push(Rhs::Ask(ask))
}

/// `get`.
fn get(alloc: Global, t: &mut Trees) -> Result<(), Memory>
    ensures { OnOk result (trees_of t.new ≡ binding_made Binding.Get (trees_of t.old)) }
{
    let table = pop_name(alloc, &mut t.names)?;
    let key = pop_expr(&mut t.exprs);
    t.rights.push(Rhs::Get { table, key })
}

/// `scan`.
fn scan(alloc: Global, t: &mut Trees) -> Result<(), Memory>
    ensures { OnOk result (trees_of t.new ≡ binding_made Binding.Scan (trees_of t.old)) }
{
    let table = pop_name(alloc, &mut t.names)?;
    let hi = pop_expr(&mut t.exprs);
    let lo = pop_expr(&mut t.exprs);
    t.rights.push(Rhs::Scan { table, lo, hi })
}

/// An expression.
fn plain(alloc: Global, t: &mut Trees) -> Result<(), Memory>
    ensures { OnOk result (trees_of t.new ≡ binding_made Binding.Plain (trees_of t.old)) }
{
    let value = pop_expr(&mut t.exprs);
    t.rights.push(Rhs::Plain(value))
}

/// The right side or step of this kind.
pub fn make_binding(alloc: Global, kind: Binding, t: &mut Trees) -> Result<(), Memory>
    ensures { OnOk result (trees_of t.new ≡ binding_made kind (trees_of t.old)) }
{
    match kind {
        Binding::Call => call(alloc, t),
        Binding::Spawn => spawn(alloc, t),
        Binding::Await => wait(alloc, t),
        Binding::Asked => asked(alloc, t),
        Binding::Get => get(alloc, t),
        Binding::Scan => scan(alloc, t),
        Binding::Plain => plain(alloc, t),
    }
}
