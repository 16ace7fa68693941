//! The trees of items. Each is put behind the others.

ghost use Rattle.std.specs.Prelude.{◌≡◌, ◌∷◌, ◌++◌, [], OnOk, IfOk};
ghost use Rattle.fn_grammar.specs.Trees.{item_made};
ghost use Rattle.fn_syntax.specs.Machine.{trees_of};

use crate::pops::{pop_block, pop_bound, pop_expr, pop_list, pop_name};
use crate::trees::Trees;
use fn_grammar::Declaration;
use fn_tree::program::Item;
use r3_value::Memory;
use std::alloc::Global;

/// A table.
fn table(alloc: Global, t: &mut Trees) -> Result<(), Memory>
    ensures { OnOk result (trees_of t.new ≡ item_made Declaration.Table (trees_of t.old)) }
{
    let name = pop_name(alloc, &mut t.names)?;
    t.items.push(Item::Table { name })?;
    Ok(())
}

/// A queue.
fn queue(alloc: Global, t: &mut Trees) -> Result<(), Memory>
    ensures { OnOk result (trees_of t.new ≡ item_made Declaration.Queue (trees_of t.old)) }
{
    let name = pop_name(alloc, &mut t.names)?;
    let bound = pop_bound(&mut t.bounds);
    t.items.push(Item::Queue { name, bound })?;
    Ok(())
}

/// An external service.
fn outside(alloc: Global, t: &mut Trees) -> Result<(), Memory>
    ensures { OnOk result (trees_of t.new ≡ item_made Declaration.Outside (trees_of t.old)) }
{
    let name = pop_name(alloc, &mut t.names)?;
    let params = pop_list(alloc, &mut t.lists);
    t.items.push(Item::Outside { name, params })?;
    Ok(())
}

/// A helper.
fn helper(alloc: Global, t: &mut Trees) -> Result<(), Memory>
    ensures { OnOk result (trees_of t.new ≡ item_made Declaration.Helper (trees_of t.old)) }
{
    let name = pop_name(alloc, &mut t.names)?;
    let params = pop_list(alloc, &mut t.lists);
    let body = pop_expr(&mut t.exprs);
    t.items.push(Item::Helper { name, params, body })?;
    Ok(())
}

/// A transaction.
fn txn(alloc: Global, t: &mut Trees) -> Result<(), Memory>
    ensures { OnOk result (trees_of t.new ≡ item_made Declaration.Txn (trees_of t.old)) }
{
    let name = pop_name(alloc, &mut t.names)?;
    let params = pop_list(alloc, &mut t.lists);
    let body = pop_block(alloc, &mut t.blocks);
    t.items.push(Item::Txn {
        serial: false,
        name,
        params,
        body,
    })?;
    Ok(())
}

/// A workflow.
fn flow(alloc: Global, t: &mut Trees) -> Result<(), Memory>
    ensures { OnOk result (trees_of t.new ≡ item_made Declaration.Flow (trees_of t.old)) }
{
    let name = pop_name(alloc, &mut t.names)?;
    let params = pop_list(alloc, &mut t.lists);
    let body = pop_block(alloc, &mut t.blocks);
    t.items.push(Item::Flow { name, params, body })?;
    Ok(())
}

/// The item of this kind.
pub fn make_item(alloc: Global, kind: Declaration, t: &mut Trees) -> Result<(), Memory>
    ensures { OnOk result (trees_of t.new ≡ item_made kind (trees_of t.old)) }
{
    match kind {
        Declaration::Table => table(alloc, t),
        Declaration::Queue => queue(alloc, t),
        Declaration::Outside => outside(alloc, t),
        Declaration::Helper => helper(alloc, t),
        Declaration::Txn => txn(alloc, t),
        Declaration::Flow => flow(alloc, t),
    }
}
