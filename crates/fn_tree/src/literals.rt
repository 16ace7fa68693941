//! Walks over a tree that show what the types of its texts and numbers promise: a value can hold each.

ghost use Rattle.std.specs.Prelude.{◌≡◌, ◌≤◌, ◌&&◌, true, length};
ghost use Rattle.fn_tree.specs.Arithmetic.{fits_i64};
ghost use Rattle.fn_tree.specs.Literals as meaning;

use crate::expr::Expr;
use crate::program::Item;
use crate::stmt::{Ask, Rhs, Stmt};
use r3_value::Txt;
use sqlite_items::Boxed;

/// Walks over the items. The names of items and the literals of a tree are such as a value can hold.
pub fn walk(items: &[Item])
    ensures { meaning.HoldsValues items.now }
{
    for item in items {
        item_holds(item);
    }
}

fn item_holds(item: &Item)
    ensures { meaning.item_fits item.now ≡ true }
{
    match item {
        Item::Table { name } => text(name),
        Item::Queue { name, .. } => text(name),
        Item::Outside { name, .. } => text(name),
        Item::Helper { name, body, .. } => {
            text(name);
            expression(body);
        }
        Item::Txn { name, body, .. } => {
            text(name);
            block(body.as_slice());
        }
        Item::Flow { name, body, .. } => {
            text(name);
            block(body.as_slice());
        }
    }
}

fn number(z: i64)
    ensures { fits_i64 z ≡ true }
{
    let _z = z;
}

fn text(t: &Txt)
    ensures { meaning.is_text t.now ≡ true }
{
    bytes(t.as_str());
}

fn bytes(s: &str)
    requires short { length s.now ≤ 4091 }
    ensures { meaning.is_text s.now ≡ true }
{
    let _s = s;
}

#[cycle(literals)]
#[tactic(auto, using(crate::proofs::LiteralLemmas::fits_at_lists))]
fn expression(e: &Expr)
    ensures { meaning.expr_fits e.now ≡ true }
{
    match e {
        Expr::Int(z) => number(*z),
        Expr::Text(t) => text(t),
        Expr::Null => {}
        Expr::True => {}
        Expr::False => {}
        Expr::Name(_) => {}
        Expr::Helper { args, .. } => expressions(args.as_slice()),
        Expr::List(es) => expressions(es.as_slice()),
        Expr::Len(a) => expression(a.get()),
        Expr::Str(a) => expression(a.get()),
        Expr::Neg(a) => expression(a.get()),
        Expr::Not(a) => expression(a.get()),
        Expr::Index(a, b) => both(a, b),
        Expr::Or(a, b) => both(a, b),
        Expr::And(a, b) => both(a, b),
        Expr::Eq(a, b) => both(a, b),
        Expr::Ne(a, b) => both(a, b),
        Expr::Lt(a, b) => both(a, b),
        Expr::Le(a, b) => both(a, b),
        Expr::Gt(a, b) => both(a, b),
        Expr::Ge(a, b) => both(a, b),
        Expr::Add(a, b) => both(a, b),
        Expr::Sub(a, b) => both(a, b),
        Expr::Join(a, b) => both(a, b),
        Expr::Mul(a, b) => both(a, b),
        Expr::Div(a, b) => both(a, b),
        Expr::Rem(a, b) => both(a, b),
    }
}

// Two operands.
#[cycle(literals)]
fn both(a: &Boxed<Expr>, b: &Boxed<Expr>)
    ensures { (meaning.expr_fits a.now && meaning.expr_fits b.now) ≡ true }
{
    expression(a.get());
    expression(b.get());
}

#[cycle(literals)]
fn expressions(es: &[Expr])
    ensures { meaning.exprs_fit es.now ≡ true }
{
    for e in es {
        expression(e);
    }
}

fn pair(a: &Expr, b: &Expr)
    ensures { (meaning.expr_fits a.now && meaning.expr_fits b.now) ≡ true }
{
    expression(a);
    expression(b);
}

fn ask(a: &Ask)
    ensures { meaning.ask_fits a.now ≡ true }
{
    match a {
        Ask::Call { args, .. } => expressions(args.as_slice()),
        Ask::Spawn { args, .. } => expressions(args.as_slice()),
        Ask::Await { id } => expression(id),
    }
}

fn right(r: &Rhs)
    ensures { meaning.rhs_fits r.now ≡ true }
{
    match r {
        Rhs::Plain(e) => expression(e),
        Rhs::Ask(a) => ask(a),
        Rhs::Get { key, .. } => expression(key),
        Rhs::Scan { lo, hi, .. } => pair(lo, hi),
    }
}

#[cycle(statements)]
#[tactic(auto, using(crate::proofs::LiteralLemmas::fits_at_each))]
fn statement(s: &Stmt)
    ensures { meaning.stmt_fits s.now ≡ true }
{
    match s {
        Stmt::Let { rhs, .. } => right(rhs),
        Stmt::Set { rhs, .. } => right(rhs),
        Stmt::Do { ask: a } => ask(a),
        Stmt::Put { key, value, .. } => pair(key, value),
        Stmt::Delete { key, .. } => expression(key),
        Stmt::If { cond, yes, no } => {
            expression(cond);
            block(yes.as_slice());
            match no {
                None => {}
                Some(no) => block(no.as_slice()),
            }
        }
        Stmt::While { cond, body } => {
            expression(cond);
            block(body.as_slice());
        }
        Stmt::Each { list, body, .. } => {
            expression(list);
            block(body.as_slice());
        }
        Stmt::Try { body, handler, .. } => {
            block(body.as_slice());
            block(handler.as_slice());
        }
        Stmt::Return { value } => expression(value),
        Stmt::Fail { word } => expression(word),
    }
}

#[cycle(statements)]
fn block(body: &[Stmt])
    ensures { meaning.body_fits body.now ≡ true }
{
    for s in body {
        statement(s);
    }
}
