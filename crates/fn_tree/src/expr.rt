//! Expressions.

ghost use Rattle.std.specs.Prelude.{◌≡◌, IfOk};

use r3_value::{Memory, Txt};
use sqlite_items::{Boxed, Items};
use std::alloc::Global;

/// An expression. Parentheses leave no node. Operands stand in the order of the text.
#[derive(Drop)]
pub enum Expr {
    /// A number. The text has none below zero: there it is `Neg` of one.
    Int(i64),
    Text(Txt),
    Null,
    True,
    False,
    /// A variable.
    Name(Txt),
    /// A call of a helper.
    Helper { name: Txt, args: Items<Expr> },
    /// `len(a)`, `str(a)`.
    Len(Boxed<Expr>),
    Str(Boxed<Expr>),
    List(Items<Expr>),
    /// `a[b]`.
    Index(Boxed<Expr>, Boxed<Expr>),
    /// `-a`, `!a`.
    Neg(Boxed<Expr>),
    Not(Boxed<Expr>),
    /// `a || b`, `a && b`.
    Or(Boxed<Expr>, Boxed<Expr>),
    And(Boxed<Expr>, Boxed<Expr>),
    /// `==`, `!=`, `<`, `<=`, `>`, `>=`.
    Eq(Boxed<Expr>, Boxed<Expr>),
    Ne(Boxed<Expr>, Boxed<Expr>),
    Lt(Boxed<Expr>, Boxed<Expr>),
    Le(Boxed<Expr>, Boxed<Expr>),
    Gt(Boxed<Expr>, Boxed<Expr>),
    Ge(Boxed<Expr>, Boxed<Expr>),
    /// `+`, `-`, `++`, `*`, `/`, `%`.
    Add(Boxed<Expr>, Boxed<Expr>),
    Sub(Boxed<Expr>, Boxed<Expr>),
    Join(Boxed<Expr>, Boxed<Expr>),
    Mul(Boxed<Expr>, Boxed<Expr>),
    Div(Boxed<Expr>, Boxed<Expr>),
    Rem(Boxed<Expr>, Boxed<Expr>),
}

impl Expr {
    /// A copy, or want of memory.
    #[cycle(copy_expr)]
    pub fn copy(&self, alloc: Global) -> Result<Expr, Memory>
        ensures { IfOk result (λ e. e ≡ self.now) }
    {
        match self {
            Expr::Int(z) => Ok(Expr::Int(*z)),
            Expr::Text(t) => Ok(Expr::Text(t.copy()?)),
            Expr::Null => Ok(Expr::Null),
            Expr::True => Ok(Expr::True),
            Expr::False => Ok(Expr::False),
            Expr::Name(x) => Ok(Expr::Name(x.copy()?)),
            Expr::Helper { name, args } => Ok(Expr::Helper {
                name: name.copy()?,
                args: copy_all(alloc, args.as_slice())?,
            }),
            Expr::List(es) => Ok(Expr::List(copy_all(alloc, es.as_slice())?)),
            Expr::Len(a) => Ok(Expr::Len(boxed(alloc, a.get())?)),
            Expr::Str(a) => Ok(Expr::Str(boxed(alloc, a.get())?)),
            Expr::Neg(a) => Ok(Expr::Neg(boxed(alloc, a.get())?)),
            Expr::Not(a) => Ok(Expr::Not(boxed(alloc, a.get())?)),
            Expr::Index(a, b) => Ok(Expr::Index(boxed(alloc, a.get())?, boxed(alloc, b.get())?)),
            Expr::Or(a, b) => Ok(Expr::Or(boxed(alloc, a.get())?, boxed(alloc, b.get())?)),
            Expr::And(a, b) => Ok(Expr::And(boxed(alloc, a.get())?, boxed(alloc, b.get())?)),
            Expr::Eq(a, b) => Ok(Expr::Eq(boxed(alloc, a.get())?, boxed(alloc, b.get())?)),
            Expr::Ne(a, b) => Ok(Expr::Ne(boxed(alloc, a.get())?, boxed(alloc, b.get())?)),
            Expr::Lt(a, b) => Ok(Expr::Lt(boxed(alloc, a.get())?, boxed(alloc, b.get())?)),
            Expr::Le(a, b) => Ok(Expr::Le(boxed(alloc, a.get())?, boxed(alloc, b.get())?)),
            Expr::Gt(a, b) => Ok(Expr::Gt(boxed(alloc, a.get())?, boxed(alloc, b.get())?)),
            Expr::Ge(a, b) => Ok(Expr::Ge(boxed(alloc, a.get())?, boxed(alloc, b.get())?)),
            Expr::Add(a, b) => Ok(Expr::Add(boxed(alloc, a.get())?, boxed(alloc, b.get())?)),
            Expr::Sub(a, b) => Ok(Expr::Sub(boxed(alloc, a.get())?, boxed(alloc, b.get())?)),
            Expr::Join(a, b) => Ok(Expr::Join(boxed(alloc, a.get())?, boxed(alloc, b.get())?)),
            Expr::Mul(a, b) => Ok(Expr::Mul(boxed(alloc, a.get())?, boxed(alloc, b.get())?)),
            Expr::Div(a, b) => Ok(Expr::Div(boxed(alloc, a.get())?, boxed(alloc, b.get())?)),
            Expr::Rem(a, b) => Ok(Expr::Rem(boxed(alloc, a.get())?, boxed(alloc, b.get())?)),
        }
    }
}

#[cycle(copy_expr)]
fn boxed(alloc: Global, e: &Expr) -> Result<Boxed<Expr>, Memory>
    ensures { IfOk result (λ b. b ≡ e.now) }
{
    let copy = e.copy(alloc)?;
    let boxed = Boxed::new(alloc, copy)?;
    Ok(boxed)
}

/// A copy of each expression.
#[cycle(copy_expr)]
pub fn copy_all(alloc: Global, es: &[Expr]) -> Result<Items<Expr>, Memory>
    ensures { IfOk result (λ copies. copies ≡ es.now) }
{
    let mut copies = Items::new(alloc);
    for e in es {
        copies.push(e.copy(alloc)?)?;
    }
    Ok(copies)
}
