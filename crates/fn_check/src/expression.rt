//! The first fault of an expression, by recursion over its tree.

ghost use Rattle.std.specs.Prelude.{◌≡◌, map, take};
ghost use Rattle.fn_check.specs.ExpressionCheck as meaning;

use crate::declarations::Declarations;
use crate::fault::CheckKind;
use crate::uses::helper_use;
use crate::variables::Variables;
use fn_tree::expr::Expr;
use sqlite_items::Boxed;

/// The first fault of an expression, which may call the helpers among the first `callable` items.
#[cycle(expression)]
#[tactic(auto, using(crate::proofs::ExpressionLemmas::list_checks))]
pub fn expression(
    items: &Declarations<'_>,
    callable: usize,
    e: &Expr,
    scope: &Variables,
) -> Result<(), CheckKind>
    ensures { result ≡ meaning.expr_check (take callable items.now) items.now e.now scope.now }
{
    match e {
        Expr::Int(_) => Ok(()),
        Expr::Text(_) => Ok(()),
        Expr::Null => Ok(()),
        Expr::True => Ok(()),
        Expr::False => Ok(()),
        Expr::Name(name) => {
            if scope.contains(name) {
                Ok(())
            } else {
                Err(CheckKind::Unbound)
            }
        }
        Expr::Helper { name, args } => {
            let early = items.is_before(name, callable);
            helper_use(items.item(name), early, args.len())?;
            expressions(items, callable, args.as_slice(), scope)
        }
        Expr::List(es) => expressions(items, callable, es.as_slice(), scope),
        Expr::Len(a) => expression(items, callable, a.get(), scope),
        Expr::Str(a) => expression(items, callable, a.get(), scope),
        Expr::Neg(a) => expression(items, callable, a.get(), scope),
        Expr::Not(a) => expression(items, callable, a.get(), scope),
        Expr::Index(a, b) => both(items, callable, a, b, scope),
        Expr::Or(a, b) => both(items, callable, a, b, scope),
        Expr::And(a, b) => both(items, callable, a, b, scope),
        Expr::Eq(a, b) => both(items, callable, a, b, scope),
        Expr::Ne(a, b) => both(items, callable, a, b, scope),
        Expr::Lt(a, b) => both(items, callable, a, b, scope),
        Expr::Le(a, b) => both(items, callable, a, b, scope),
        Expr::Gt(a, b) => both(items, callable, a, b, scope),
        Expr::Ge(a, b) => both(items, callable, a, b, scope),
        Expr::Add(a, b) => both(items, callable, a, b, scope),
        Expr::Sub(a, b) => both(items, callable, a, b, scope),
        Expr::Join(a, b) => both(items, callable, a, b, scope),
        Expr::Mul(a, b) => both(items, callable, a, b, scope),
        Expr::Div(a, b) => both(items, callable, a, b, scope),
        Expr::Rem(a, b) => both(items, callable, a, b, scope),
    }
}

// Two operands, from left to right.
#[cycle(expression)]
fn both(
    items: &Declarations<'_>,
    callable: usize,
    a: &Boxed<Expr>,
    b: &Boxed<Expr>,
    scope: &Variables,
) -> Result<(), CheckKind>
    ensures { result ≡ meaning.both_check (meaning.expr_check (take callable items.now) items.now a.now) (meaning.expr_check (take callable items.now) items.now b.now) scope.now }
{
    expression(items, callable, a.get(), scope)?;
    expression(items, callable, b.get(), scope)
}

/// The first fault of several expressions.
#[cycle(expression)]
pub fn expressions(
    items: &Declarations<'_>,
    callable: usize,
    es: &[Expr],
    scope: &Variables,
) -> Result<(), CheckKind>
    ensures { result ≡ meaning.each_check (map (meaning.expr_check (take callable items.now) items.now) es.now) scope.now }
{
    for e in es {
        expression(items, callable, e, scope)?;
    }
    Ok(())
}
