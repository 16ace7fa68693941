//! Expressions.

ghost use Rattle.std.specs.Prelude.{◌≡◌, ◌∷◌, ◌++◌, [], OnOk, map, true};
ghost use Rattle.fn_spell.specs.Pieces.{spaced, a_name, a_word};
ghost use Rattle.fn_spell.specs.Spelling.{expr_pieces, outer_pieces, separated, brackets};
ghost use Rattle.fn_spell.specs.Spelling.{one_of, two_of, applied, indexed};

use crate::texts::text;
use crate::words::{comma, name, number, word};
use fn_grammar::Lexeme;
use fn_tree::expr::Expr;
use r3_value::{Memory, Txt};

/// An expression.
#[cycle(expr)]
#[tactic(auto, using(crate::proofs::NodeLemmas::list_nodes))]
fn expr(out: &mut Vec<u8>, e: &Expr) -> Result<(), Memory>
    ensures { OnOk result (out.new.items ≡ out.old.items ++ spaced (expr_pieces e.now)) }
{
    match e {
        Expr::Int(z) => number(out, *z),
        Expr::Text(t) => text(out, t),
        Expr::Null => word(out, Lexeme::Null),
        Expr::True => word(out, Lexeme::True),
        Expr::False => word(out, Lexeme::False),
        Expr::Name(x) => name(out, x),
        Expr::Helper { name: f, args } => helper(out, f, args.as_slice()),
        Expr::List(es) => list(out, es.as_slice()),
        Expr::Len(a) => apply(out, Lexeme::Len, a.get()),
        Expr::Str(a) => apply(out, Lexeme::Str, a.get()),
        Expr::Index(a, b) => index(out, a.get(), b.get()),
        Expr::Neg(a) => one(out, Lexeme::Minus, a.get()),
        Expr::Not(a) => one(out, Lexeme::Not, a.get()),
        Expr::Or(a, b) => two(out, Lexeme::Or, a.get(), b.get()),
        Expr::And(a, b) => two(out, Lexeme::And, a.get(), b.get()),
        Expr::Eq(a, b) => two(out, Lexeme::Eq, a.get(), b.get()),
        Expr::Ne(a, b) => two(out, Lexeme::Ne, a.get(), b.get()),
        Expr::Lt(a, b) => two(out, Lexeme::Lt, a.get(), b.get()),
        Expr::Le(a, b) => two(out, Lexeme::Le, a.get(), b.get()),
        Expr::Gt(a, b) => two(out, Lexeme::Gt, a.get(), b.get()),
        Expr::Ge(a, b) => two(out, Lexeme::Ge, a.get(), b.get()),
        Expr::Add(a, b) => two(out, Lexeme::Plus, a.get(), b.get()),
        Expr::Sub(a, b) => two(out, Lexeme::Minus, a.get(), b.get()),
        Expr::Join(a, b) => two(out, Lexeme::Join, a.get(), b.get()),
        Expr::Mul(a, b) => two(out, Lexeme::Times, a.get(), b.get()),
        Expr::Div(a, b) => two(out, Lexeme::Over, a.get(), b.get()),
        Expr::Rem(a, b) => two(out, Lexeme::Percent, a.get(), b.get()),
    }
}

/// `(op a)`.
#[cycle(expr)]
fn one(out: &mut Vec<u8>, op: Lexeme, a: &Expr) -> Result<(), Memory>
    ensures { OnOk result (out.new.items ≡ out.old.items ++ spaced (one_of op (expr_pieces a.now))) }
{
    word(out, Lexeme::OpenParen)?;
    word(out, op)?;
    expr(out, a)?;
    word(out, Lexeme::CloseParen)?;
    Ok(())
}

/// `(a op b)`.
#[cycle(expr)]
fn two(out: &mut Vec<u8>, op: Lexeme, a: &Expr, b: &Expr) -> Result<(), Memory>
    ensures { OnOk result
        (out.new.items ≡ out.old.items ++ spaced (two_of op (expr_pieces a.now) (expr_pieces b.now))) }
{
    word(out, Lexeme::OpenParen)?;
    expr(out, a)?;
    word(out, op)?;
    expr(out, b)?;
    word(out, Lexeme::CloseParen)?;
    Ok(())
}

/// `len(a)`, `str(a)`.
#[cycle(expr)]
fn apply(out: &mut Vec<u8>, f: Lexeme, a: &Expr) -> Result<(), Memory>
    ensures { OnOk result (out.new.items ≡ out.old.items ++ spaced (applied f (expr_pieces a.now))) }
{
    word(out, f)?;
    word(out, Lexeme::OpenParen)?;
    expr(out, a)?;
    word(out, Lexeme::CloseParen)?;
    Ok(())
}

/// `a[b]`.
#[cycle(expr)]
fn index(out: &mut Vec<u8>, a: &Expr, b: &Expr) -> Result<(), Memory>
    ensures { OnOk result
        (out.new.items ≡ out.old.items ++ spaced (indexed (expr_pieces a.now) (expr_pieces b.now))) }
{
    expr(out, a)?;
    word(out, Lexeme::OpenBracket)?;
    expr(out, b)?;
    word(out, Lexeme::CloseBracket)?;
    Ok(())
}

/// `f(a, ..)`.
#[cycle(expr)]
fn helper(out: &mut Vec<u8>, f: &Txt, args: &[Expr]) -> Result<(), Memory>
    ensures { OnOk result (out.new.items ≡ out.old.items
        ++ spaced (a_name f.now ∷ a_word Lexeme.OpenParen
        ∷ separated true Lexeme.CloseParen (map expr_pieces args.now))) }
{
    name(out, f)?;
    word(out, Lexeme::OpenParen)?;
    exprs(out, Lexeme::CloseParen, args)?;
    Ok(())
}

/// `[a, ..]`.
#[cycle(expr)]
fn list(out: &mut Vec<u8>, es: &[Expr]) -> Result<(), Memory>
    ensures { OnOk result (out.new.items ≡ out.old.items
        ++ spaced (a_word Lexeme.OpenBracket
        ∷ separated true Lexeme.CloseBracket (map expr_pieces es.now))) }
{
    word(out, Lexeme::OpenBracket)?;
    exprs(out, Lexeme::CloseBracket, es)?;
    Ok(())
}

/// Expressions between commas, and the bracket that closes them.
#[cycle(expr)]
fn exprs(out: &mut Vec<u8>, close: Lexeme, es: &[Expr]) -> Result<(), Memory>
    ensures { OnOk result (out.new.items ≡ out.old.items
        ++ spaced (separated true close (map expr_pieces es.now))) }
{
    let mut first = true;
    for e in es {
        comma(out, first)?;
        expr(out, e)?;
        first = false;
    }
    word(out, close)?;
    Ok(())
}

/// An expression that stands in no other.
pub fn outer(out: &mut Vec<u8>, e: &Expr) -> Result<(), Memory>
    ensures { OnOk result (out.new.items ≡ out.old.items ++ spaced (outer_pieces e.now)) }
{
    expr(out, e)?;
    Ok(())
}

/// Such expressions between commas, and the parenthesis that closes them.
pub fn outers(out: &mut Vec<u8>, es: &[Expr]) -> Result<(), Memory>
    ensures { OnOk result (out.new.items ≡ out.old.items
        ++ spaced (separated true Lexeme.CloseParen (map outer_pieces es.now))) }
{
    let mut first = true;
    for e in es {
        comma(out, first)?;
        outer(out, e)?;
        first = false;
    }
    word(out, Lexeme::CloseParen)?;
    Ok(())
}
