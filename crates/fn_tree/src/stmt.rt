//! Statements.

ghost use Rattle.std.specs.Prelude.{◌≡◌, IfOk};

use crate::expr::{Expr, copy_all};
use r3_value::{Memory, Txt};
use sqlite_items::Items;
use std::alloc::Global;

/// What a workflow asks of the outside: a step that is recorded.
#[derive(Drop)]
pub enum Ask {
    /// Call a transaction or an outside service.
    Call { name: Txt, args: Items<Expr> },
    /// Start a child workflow, whose ID is the answer.
    Spawn { name: Txt, args: Items<Expr> },
    /// Wait for the outcome of a workflow.
    Await { id: Expr },
}

/// What stands to the right of `=`.
#[derive(Drop)]
pub enum Rhs {
    Plain(Expr),
    Ask(Ask),
    /// The row at a key, or Null.
    Get { table: Txt, key: Expr },
    /// The rows from `lo` and below `hi`, as a list of pairs.
    Scan { table: Txt, lo: Expr, hi: Expr },
}

/// A statement. Blocks are lists of statements, in order.
#[derive(Drop)]
pub enum Stmt {
    /// Binds a new name, up to the end of its block.
    Let {
        name: Txt,
        rhs: Rhs,
    },
    /// Gives a name that is bound another value.
    Set {
        name: Txt,
        rhs: Rhs,
    },
    /// Asks, and drops the answer.
    Do {
        ask: Ask,
    },
    Put {
        table: Txt,
        key: Expr,
        value: Expr,
    },
    Delete {
        table: Txt,
        key: Expr,
    },
    If {
        cond: Expr,
        yes: Items<Stmt>,
        no: Option<Items<Stmt>>,
    },
    While {
        cond: Expr,
        body: Items<Stmt>,
    },
    /// Runs the body for each item of the list, bound to the name.
    Each {
        name: Txt,
        list: Expr,
        body: Items<Stmt>,
    },
    /// Runs the body. A failure in it, but for `budget` and `steps`, runs the handler, with its word
    /// bound to the name.
    Try {
        body: Items<Stmt>,
        name: Txt,
        handler: Items<Stmt>,
    },
    Return {
        value: Expr,
    },
    Fail {
        word: Expr,
    },
}

impl Ask {
    /// A copy, or want of memory.
    pub fn copy(&self, alloc: Global) -> Result<Ask, Memory>
        ensures { IfOk result (λ a. a ≡ self.now) }
    {
        match self {
            Ask::Call { name, args } => Ok(Ask::Call {
                name: name.copy()?,
                args: copy_all(alloc, args.as_slice())?,
            }),
            Ask::Spawn { name, args } => Ok(Ask::Spawn {
                name: name.copy()?,
                args: copy_all(alloc, args.as_slice())?,
            }),
            Ask::Await { id } => Ok(Ask::Await {
                id: id.copy(alloc)?,
            }),
        }
    }
}

impl Rhs {
    /// A copy, or want of memory.
    pub fn copy(&self, alloc: Global) -> Result<Rhs, Memory>
        ensures { IfOk result (λ r. r ≡ self.now) }
    {
        match self {
            Rhs::Plain(e) => Ok(Rhs::Plain(e.copy(alloc)?)),
            Rhs::Ask(a) => Ok(Rhs::Ask(a.copy(alloc)?)),
            Rhs::Get { table, key } => Ok(Rhs::Get {
                table: table.copy()?,
                key: key.copy(alloc)?,
            }),
            Rhs::Scan { table, lo, hi } => Ok(Rhs::Scan {
                table: table.copy()?,
                lo: lo.copy(alloc)?,
                hi: hi.copy(alloc)?,
            }),
        }
    }
}

impl Stmt {
    /// A copy, or want of memory.
    #[cycle(copy_stmt)]
    pub fn copy(&self, alloc: Global) -> Result<Stmt, Memory>
        ensures { IfOk result (λ s. s ≡ self.now) }
    {
        match self {
            Stmt::Let { name, rhs } => copy_let(alloc, name, rhs),
            Stmt::Set { name, rhs } => copy_set(alloc, name, rhs),
            Stmt::Do { ask } => Ok(Stmt::Do {
                ask: ask.copy(alloc)?,
            }),
            Stmt::Put { table, key, value } => copy_put(alloc, table, key, value),
            Stmt::Delete { table, key } => copy_delete(alloc, table, key),
            Stmt::If { cond, yes, no } => {
                let yes = copy_block(alloc, yes.as_slice())?;
                match no {
                    None => copy_if(alloc, cond, yes, None),
                    Some(no) => {
                        let no = copy_block(alloc, no.as_slice())?;
                        copy_if(alloc, cond, yes, Some(no))
                    }
                }
            }
            Stmt::While { cond, body } => {
                let body = copy_block(alloc, body.as_slice())?;
                copy_while(alloc, cond, body)
            }
            Stmt::Each { name, list, body } => {
                let body = copy_block(alloc, body.as_slice())?;
                copy_each(alloc, name, list, body)
            }
            Stmt::Try {
                body,
                name,
                handler,
            } => {
                let body = copy_block(alloc, body.as_slice())?;
                let handler = copy_block(alloc, handler.as_slice())?;
                copy_try(alloc, body, name, handler)
            }
            Stmt::Return { value } => Ok(Stmt::Return {
                value: value.copy(alloc)?,
            }),
            Stmt::Fail { word } => Ok(Stmt::Fail {
                word: word.copy(alloc)?,
            }),
        }
    }
}

fn copy_let(alloc: Global, name: &Txt, rhs: &Rhs) -> Result<Stmt, Memory>
    ensures { IfOk result (λ s. s ≡ Stmt.Let name.now rhs.now) }
{
    let name = name.copy()?;
    let rhs = rhs.copy(alloc)?;
    Ok(Stmt::Let { name, rhs })
}

fn copy_set(alloc: Global, name: &Txt, rhs: &Rhs) -> Result<Stmt, Memory>
    ensures { IfOk result (λ s. s ≡ Stmt.Set name.now rhs.now) }
{
    let name = name.copy()?;
    let rhs = rhs.copy(alloc)?;
    Ok(Stmt::Set { name, rhs })
}

fn copy_put(alloc: Global, table: &Txt, key: &Expr, value: &Expr) -> Result<Stmt, Memory>
    ensures { IfOk result (λ s. s ≡ Stmt.Put table.now key.now value.now) }
{
    let table = table.copy()?;
    let key = key.copy(alloc)?;
    let value = value.copy(alloc)?;
    Ok(Stmt::Put { table, key, value })
}

fn copy_delete(alloc: Global, table: &Txt, key: &Expr) -> Result<Stmt, Memory>
    ensures { IfOk result (λ s. s ≡ Stmt.Delete table.now key.now) }
{
    let table = table.copy()?;
    let key = key.copy(alloc)?;
    Ok(Stmt::Delete { table, key })
}

fn copy_if(
    alloc: Global,
    cond: &Expr,
    yes: Items<Stmt>,
    no: Option<Items<Stmt>>,
) -> Result<Stmt, Memory>
    ensures { IfOk result (λ s. s ≡ Stmt.If cond.now yes no) }
{
    let cond = cond.copy(alloc)?;
    Ok(Stmt::If { cond, yes, no })
}

fn copy_while(alloc: Global, cond: &Expr, body: Items<Stmt>) -> Result<Stmt, Memory>
    ensures { IfOk result (λ s. s ≡ Stmt.While cond.now body) }
{
    let cond = cond.copy(alloc)?;
    Ok(Stmt::While { cond, body })
}

fn copy_each(alloc: Global, name: &Txt, list: &Expr, body: Items<Stmt>) -> Result<Stmt, Memory>
    ensures { IfOk result (λ s. s ≡ Stmt.Each name.now list.now body) }
{
    let name = name.copy()?;
    let list = list.copy(alloc)?;
    Ok(Stmt::Each { name, list, body })
}

fn copy_try(
    alloc: Global,
    body: Items<Stmt>,
    name: &Txt,
    handler: Items<Stmt>,
) -> Result<Stmt, Memory>
    ensures { IfOk result (λ s. s ≡ Stmt.Try body name.now handler) }
{
    let name = name.copy()?;
    Ok(Stmt::Try {
        body,
        name,
        handler,
    })
}

/// A copy of each statement.
#[cycle(copy_stmt)]
pub fn copy_block(alloc: Global, body: &[Stmt]) -> Result<Items<Stmt>, Memory>
    ensures { IfOk result (λ copies. copies ≡ body.now) }
{
    let mut copies = Items::new(alloc);
    for s in body {
        copies.push(s.copy(alloc)?)?;
    }
    Ok(copies)
}
