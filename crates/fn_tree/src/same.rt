//! Whether two trees are equal.

ghost use Rattle.std.specs.Prelude.{◌≡◌, ◌↔◌, IsTrue};

use crate::checked::Checked;
use crate::expr::Expr;
use crate::program::{Item, Program};
use crate::stmt::{Ask, Rhs, Stmt};
use r3_value::Txt;

impl Expr {
    /// Whether the trees are equal.
    #[cycle(same_expr)]
    pub fn same(&self, other: &Expr) -> bool
        ensures { IsTrue result ↔ (self.now ≡ other.now) }
    {
        match self {
            Expr::Int(a) => match other {
                Expr::Int(b) => *a == *b,
                _ => false,
            },
            Expr::Text(a) => match other {
                Expr::Text(b) => a.as_str() == b.as_str(),
                _ => false,
            },
            Expr::Null => matches!(other, Expr::Null),
            Expr::True => matches!(other, Expr::True),
            Expr::False => matches!(other, Expr::False),
            Expr::Name(a) => match other {
                Expr::Name(b) => a.as_str() == b.as_str(),
                _ => false,
            },
            Expr::Helper { name: a, args: p } => match other {
                Expr::Helper { name: b, args: q } => {
                    a.as_str() == b.as_str() && same_all(p.as_slice(), q.as_slice())
                }
                _ => false,
            },
            Expr::List(a) => match other {
                Expr::List(b) => same_all(a.as_slice(), b.as_slice()),
                _ => false,
            },
            Expr::Len(a) => match other {
                Expr::Len(b) => a.get().same(b.get()),
                _ => false,
            },
            Expr::Str(a) => match other {
                Expr::Str(b) => a.get().same(b.get()),
                _ => false,
            },
            Expr::Neg(a) => match other {
                Expr::Neg(b) => a.get().same(b.get()),
                _ => false,
            },
            Expr::Not(a) => match other {
                Expr::Not(b) => a.get().same(b.get()),
                _ => false,
            },
            Expr::Index(a, b) => match other {
                Expr::Index(c, d) => a.get().same(c.get()) && b.get().same(d.get()),
                _ => false,
            },
            Expr::Or(a, b) => match other {
                Expr::Or(c, d) => a.get().same(c.get()) && b.get().same(d.get()),
                _ => false,
            },
            Expr::And(a, b) => match other {
                Expr::And(c, d) => a.get().same(c.get()) && b.get().same(d.get()),
                _ => false,
            },
            Expr::Eq(a, b) => match other {
                Expr::Eq(c, d) => a.get().same(c.get()) && b.get().same(d.get()),
                _ => false,
            },
            Expr::Ne(a, b) => match other {
                Expr::Ne(c, d) => a.get().same(c.get()) && b.get().same(d.get()),
                _ => false,
            },
            Expr::Lt(a, b) => match other {
                Expr::Lt(c, d) => a.get().same(c.get()) && b.get().same(d.get()),
                _ => false,
            },
            Expr::Le(a, b) => match other {
                Expr::Le(c, d) => a.get().same(c.get()) && b.get().same(d.get()),
                _ => false,
            },
            Expr::Gt(a, b) => match other {
                Expr::Gt(c, d) => a.get().same(c.get()) && b.get().same(d.get()),
                _ => false,
            },
            Expr::Ge(a, b) => match other {
                Expr::Ge(c, d) => a.get().same(c.get()) && b.get().same(d.get()),
                _ => false,
            },
            Expr::Add(a, b) => match other {
                Expr::Add(c, d) => a.get().same(c.get()) && b.get().same(d.get()),
                _ => false,
            },
            Expr::Sub(a, b) => match other {
                Expr::Sub(c, d) => a.get().same(c.get()) && b.get().same(d.get()),
                _ => false,
            },
            Expr::Join(a, b) => match other {
                Expr::Join(c, d) => a.get().same(c.get()) && b.get().same(d.get()),
                _ => false,
            },
            Expr::Mul(a, b) => match other {
                Expr::Mul(c, d) => a.get().same(c.get()) && b.get().same(d.get()),
                _ => false,
            },
            Expr::Div(a, b) => match other {
                Expr::Div(c, d) => a.get().same(c.get()) && b.get().same(d.get()),
                _ => false,
            },
            Expr::Rem(a, b) => match other {
                Expr::Rem(c, d) => a.get().same(c.get()) && b.get().same(d.get()),
                _ => false,
            },
        }
    }
}

/// Whether the expressions of both lists are equal, one by one.
#[cycle(same_expr)]
pub fn same_all(a: &[Expr], b: &[Expr]) -> bool
    ensures { IsTrue result ↔ (a.now ≡ b.now) }
{
    if a.len() != b.len() {
        return false;
    }
    for i in 0..a.len() {
        if !a[i].same(&b[i]) {
            return false;
        }
    }
    true
}

impl Ask {
    /// Whether the trees are equal.
    pub fn same(&self, other: &Ask) -> bool
        ensures { IsTrue result ↔ (self.now ≡ other.now) }
    {
        match self {
            Ask::Call { name: a, args: p } => match other {
                Ask::Call { name: b, args: q } => {
                    a.as_str() == b.as_str() && same_all(p.as_slice(), q.as_slice())
                }
                _ => false,
            },
            Ask::Spawn { name: a, args: p } => match other {
                Ask::Spawn { name: b, args: q } => {
                    a.as_str() == b.as_str() && same_all(p.as_slice(), q.as_slice())
                }
                _ => false,
            },
            Ask::Await { id: a } => match other {
                Ask::Await { id: b } => a.same(b),
                _ => false,
            },
        }
    }
}

impl Rhs {
    /// Whether the trees are equal.
    pub fn same(&self, other: &Rhs) -> bool
        ensures { IsTrue result ↔ (self.now ≡ other.now) }
    {
        match self {
            Rhs::Plain(a) => match other {
                Rhs::Plain(b) => a.same(b),
                _ => false,
            },
            Rhs::Ask(a) => match other {
                Rhs::Ask(b) => a.same(b),
                _ => false,
            },
            Rhs::Get { table: a, key: k } => match other {
                Rhs::Get { table: b, key: l } => a.as_str() == b.as_str() && k.same(l),
                _ => false,
            },
            Rhs::Scan {
                table: a,
                lo: from,
                hi: to,
            } => match other {
                Rhs::Scan {
                    table: b,
                    lo: start,
                    hi: end,
                } => a.as_str() == b.as_str() && from.same(start) && to.same(end),
                _ => false,
            },
        }
    }
}

impl Stmt {
    /// Whether the trees are equal.
    #[cycle(same_stmt)]
    pub fn same(&self, other: &Stmt) -> bool
        ensures { IsTrue result ↔ (self.now ≡ other.now) }
    {
        match self {
            Stmt::Let { name: a, rhs: r } => match other {
                Stmt::Let { name: b, rhs: s } => a.as_str() == b.as_str() && r.same(s),
                _ => false,
            },
            Stmt::Set { name: a, rhs: r } => match other {
                Stmt::Set { name: b, rhs: s } => a.as_str() == b.as_str() && r.same(s),
                _ => false,
            },
            Stmt::Do { ask: a } => match other {
                Stmt::Do { ask: b } => a.same(b),
                _ => false,
            },
            Stmt::Put {
                table: a,
                key: k,
                value: v,
            } => match other {
                Stmt::Put {
                    table: b,
                    key: l,
                    value: w,
                } => a.as_str() == b.as_str() && k.same(l) && v.same(w),
                _ => false,
            },
            Stmt::Delete { table: a, key: k } => match other {
                Stmt::Delete { table: b, key: l } => a.as_str() == b.as_str() && k.same(l),
                _ => false,
            },
            Stmt::If {
                cond: a,
                yes: y,
                no: n,
            } => match other {
                Stmt::If {
                    cond: b,
                    yes: z,
                    no: m,
                } => match n {
                    None => match m {
                        None => a.same(b) && same_block(y.as_slice(), z.as_slice()),
                        Some(_) => false,
                    },
                    Some(n) => match m {
                        None => false,
                        Some(m) => {
                            a.same(b)
                                && same_block(y.as_slice(), z.as_slice())
                                && same_block(n.as_slice(), m.as_slice())
                        }
                    },
                },
                _ => false,
            },
            Stmt::While { cond: a, body: p } => match other {
                Stmt::While { cond: b, body: q } => {
                    a.same(b) && same_block(p.as_slice(), q.as_slice())
                }
                _ => false,
            },
            Stmt::Each {
                name: a,
                list: l,
                body: p,
            } => match other {
                Stmt::Each {
                    name: b,
                    list: m,
                    body: q,
                } => {
                    a.as_str() == b.as_str() && l.same(m) && same_block(p.as_slice(), q.as_slice())
                }
                _ => false,
            },
            Stmt::Try {
                body: p,
                name: a,
                handler: h,
            } => match other {
                Stmt::Try {
                    body: q,
                    name: b,
                    handler: k,
                } => {
                    a.as_str() == b.as_str()
                        && same_block(p.as_slice(), q.as_slice())
                        && same_block(h.as_slice(), k.as_slice())
                }
                _ => false,
            },
            Stmt::Return { value: a } => match other {
                Stmt::Return { value: b } => a.same(b),
                _ => false,
            },
            Stmt::Fail { word: a } => match other {
                Stmt::Fail { word: b } => a.same(b),
                _ => false,
            },
        }
    }
}

/// Whether the statements of both blocks are equal, one by one.
#[cycle(same_stmt)]
pub fn same_block(a: &[Stmt], b: &[Stmt]) -> bool
    ensures { IsTrue result ↔ (a.now ≡ b.now) }
{
    if a.len() != b.len() {
        return false;
    }
    for i in 0..a.len() {
        if !a[i].same(&b[i]) {
            return false;
        }
    }
    true
}

fn same_name(a: &Txt, b: &Txt) -> bool
    ensures { IsTrue result ↔ (a.now ≡ b.now) }
{
    a.as_str() == b.as_str()
}

fn same_names(a: &[Txt], b: &[Txt]) -> bool
    ensures { IsTrue result ↔ (a.now ≡ b.now) }
{
    if a.len() != b.len() {
        return false;
    }
    for i in 0..a.len() {
        if !same_name(&a[i], &b[i]) {
            return false;
        }
    }
    true
}

impl Item {
    /// Whether the items are equal.
    pub fn same(&self, other: &Item) -> bool
        ensures { IsTrue result ↔ (self.now ≡ other.now) }
    {
        match self {
            Item::Table { name: a } => match other {
                Item::Table { name: b } => a.as_str() == b.as_str(),
                _ => false,
            },
            Item::Queue { name: a, bound: m } => match other {
                Item::Queue { name: b, bound: n } => a.as_str() == b.as_str() && *m == *n,
                _ => false,
            },
            Item::Outside { name: a, params: p } => match other {
                Item::Outside { name: b, params: q } => {
                    a.as_str() == b.as_str() && same_names(p.as_slice(), q.as_slice())
                }
                _ => false,
            },
            Item::Helper {
                name: a,
                params: p,
                body: e,
            } => match other {
                Item::Helper {
                    name: b,
                    params: q,
                    body: f,
                } => {
                    a.as_str() == b.as_str() && same_names(p.as_slice(), q.as_slice()) && e.same(f)
                }
                _ => false,
            },
            Item::Txn {
                serial: s,
                name: a,
                params: p,
                body: e,
            } => match other {
                Item::Txn {
                    serial: t,
                    name: b,
                    params: q,
                    body: f,
                } => {
                    *s == *t
                        && a.as_str() == b.as_str()
                        && same_names(p.as_slice(), q.as_slice())
                        && same_block(e.as_slice(), f.as_slice())
                }
                _ => false,
            },
            Item::Flow {
                name: a,
                params: p,
                body: e,
            } => match other {
                Item::Flow {
                    name: b,
                    params: q,
                    body: f,
                } => {
                    a.as_str() == b.as_str()
                        && same_names(p.as_slice(), q.as_slice())
                        && same_block(e.as_slice(), f.as_slice())
                }
                _ => false,
            },
        }
    }
}

/// Whether the items of both lists are equal, one by one.
pub fn same_items(a: &[Item], b: &[Item]) -> bool
    ensures { IsTrue result ↔ (a.now ≡ b.now) }
{
    if a.len() != b.len() {
        return false;
    }
    for i in 0..a.len() {
        if !a[i].same(&b[i]) {
            return false;
        }
    }
    true
}

impl Program {
    /// Whether the items are equal, in their order.
    pub fn same(&self, other: &Program) -> bool
        ensures { IsTrue result ↔ (self.now.items.items ≡ other.now.items.items) }
    {
        same_items(self.items.as_slice(), other.items.as_slice())
    }
}

impl Checked {
    /// Whether the programs are equal.
    pub fn same(&self, other: &Checked) -> bool
        ensures { IsTrue result ↔ (self.now ≡ other.now) }
    {
        self.program().same(other.program())
    }
}
