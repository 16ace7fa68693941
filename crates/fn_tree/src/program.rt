//! Programs and their items.

ghost use Rattle.std.specs.Prelude.{◌≡◌, IfOk};

use crate::expr::Expr;
use crate::stmt::{Stmt, copy_block};
use r3_value::{Memory, Txt};
use sqlite_items::Items;
use std::alloc::Global;

/// An item of a program.
#[derive(Drop)]
pub enum Item {
    Table {
        name: Txt,
    },
    /// A queue, of which at most `bound` workflows run at a time.
    Queue {
        name: Txt,
        bound: u32,
    },
    /// An external service.
    Outside {
        name: Txt,
        params: Items<Txt>,
    },
    /// A named expression with parameters.
    Helper {
        name: Txt,
        params: Items<Txt>,
        body: Expr,
    },
    /// A transaction. No text has one marked `serial` yet.
    Txn {
        serial: bool,
        name: Txt,
        params: Items<Txt>,
        body: Items<Stmt>,
    },
    /// A workflow.
    Flow {
        name: Txt,
        params: Items<Txt>,
        body: Items<Stmt>,
    },
}

/// A program: its items, in their order.
#[derive(Drop)]
pub struct Program {
    pub items: Vec<Item>,
}

impl Item {
    /// A copy, or want of memory.
    pub fn copy(&self, alloc: Global) -> Result<Item, Memory>
        ensures { IfOk result (λ i. i ≡ self.now) }
    {
        match self {
            Item::Table { name } => Ok(Item::Table { name: name.copy()? }),
            Item::Queue { name, bound } => Ok(Item::Queue {
                name: name.copy()?,
                bound: *bound,
            }),
            Item::Outside { name, params } => {
                let params = copy_names(alloc, params.as_slice())?;
                let name = name.copy()?;
                Ok(Item::Outside { name, params })
            }
            Item::Helper { name, params, body } => {
                let params = copy_names(alloc, params.as_slice())?;
                let body = body.copy(alloc)?;
                let name = name.copy()?;
                Ok(Item::Helper { name, params, body })
            }
            Item::Txn {
                serial,
                name,
                params,
                body,
            } => copy_txn(alloc, *serial, name, params.as_slice(), body.as_slice()),
            Item::Flow { name, params, body } => {
                let params = copy_names(alloc, params.as_slice())?;
                let body = copy_block(alloc, body.as_slice())?;
                let name = name.copy()?;
                Ok(Item::Flow { name, params, body })
            }
        }
    }
}

fn copy_txn(
    alloc: Global,
    serial: bool,
    name: &Txt,
    params: &[Txt],
    body: &[Stmt],
) -> Result<Item, Memory>
    ensures { IfOk result (λ i. i ≡ Item.Txn serial name.now params.now body.now) }
{
    let params = copy_names(alloc, params)?;
    let body = copy_block(alloc, body)?;
    let name = name.copy()?;
    Ok(Item::Txn {
        serial,
        name,
        params,
        body,
    })
}

/// A copy of each name.
fn copy_names(alloc: Global, names: &[Txt]) -> Result<Items<Txt>, Memory>
    ensures { IfOk result (λ copies. copies ≡ names.now) }
{
    let mut copies = Items::new(alloc);
    for name in names {
        copies.push(name.copy()?)?;
    }
    Ok(copies)
}

/// A copy of each item.
pub fn copy_items(alloc: Global, items: &[Item]) -> Result<Vec<Item>, Memory>
    ensures { IfOk result (λ copies. copies.items ≡ items.now) }
{
    let mut copies = Vec::new(alloc);
    for item in items {
        copies.push(item.copy(alloc)?)?;
    }
    Ok(copies)
}
