//! The value of an expression, by recursion over its tree.

ghost use Rattle.std.specs.Prelude.{◌≡◌, ℕ, true, codes, [], map, length, IfOk, ◌<◌};
ghost use Rattle.fn_tree.specs.Expression as meaning;
ghost use Rattle.fn_tree.specs.Expression.{evaluated, calls_of, values_onto, ends};
ghost use Rattle.fn_tree.specs.Values as values_of;
ghost use Rattle.fn_eval.specs.Operation.{outcome_of, outcome_of_both, and_of, or_of};
ghost use Rattle.fn_eval.specs.Ends.{EndsAs, EndsBy, Evaluates};
ghost use Rattle.fn_tree.specs.Evaluation.{names_of};
ghost use Rattle.fn_tree.specs.Soundness.{expr_is_sound};

use crate::bindings::{Env, bind, look_up};
use crate::halt::{Fail, Halt};
use crate::helpers::find;
use crate::operand::{bool_of, type_failure};
use crate::operation::{Binary, Unary};
use crate::sequences::list_or_size;
use fn_meaning::laws::sound_is_never_stuck;
use fn_tree::checked::Checked;
use fn_tree::expr::Expr;
use fn_tree::program::Item;
use r3_steps::Steps;
use r3_value::{Outcome, Txt, Val};
use sqlite_items::Boxed;
use std::alloc::Global;
use std::sync::ledger::Ledger;

/// The value of an expression, and the units left. Each node that is evaluated takes one step, when
/// its evaluation begins.
///
/// The variables of the expression are bound, and each helper call in it names a helper of the
/// program with as many parameters. `Fail::Word` is the meaning's failure, with the units left.
pub fn eval<L: Ledger>(
    alloc: Global,
    program: &Checked,
    expr: &Expr,
    env: &Env,
    units: u32,
    steps: &mut Steps<L>,
) -> Result<(Val, u32), Fail>
    requires sound { expr_is_sound program.now expr.now (names_of env.now.names.items) ≡ true }
    ensures meaning { Evaluates result (evaluated (calls_of program.now) expr.now env.now.names.items units steps.old) steps.new }
{
    sound_is_never_stuck();
    match evaluate(
        alloc,
        program.program().items.as_slice(),
        expr,
        env.names.as_slice(),
        units,
        steps,
    ) {
        Ok(r) => Ok(r),
        Err(Halt::Word { word, units }) => Err(Fail::Word { word, units }),
        Err(Halt::Memory) => Err(Fail::Memory),
        Err(Halt::Stuck) => unreachable!(),
    }
}

/// The same over any items, of which the helpers may be called. It is stuck where the meaning is.
#[cycle(eval)]
pub fn evaluate<L: Ledger>(
    alloc: Global,
    items: &[Item],
    e: &Expr,
    env: &[(Txt, Val)],
    units: u32,
    steps: &mut Steps<L>,
) -> Result<(Val, u32), Halt>
    ensures { EndsAs result (evaluated (calls_of items.now) e.now env.now units steps.old) steps.new }
{
    steps.tick();
    match e {
        Expr::Int(z) => Ok((Val::Int(*z), units)),
        Expr::Text(t) => Ok((Val::Text(t.copy()?), units)),
        Expr::Null => Ok((Val::Null, units)),
        Expr::True => Ok((Val::Bool(true), units)),
        Expr::False => Ok((Val::Bool(false), units)),
        Expr::Name(name) => match look_up(env, name) {
            Some(v) => Ok((v.copy()?, units)),
            None => Err(Halt::Stuck),
        },
        Expr::Helper { name, args } => {
            let (vs, units) = values(alloc, items, args.as_slice(), env, units, steps)?;
            call(alloc, items, name, vs, units, steps)
        }
        Expr::List(es) => {
            let (vs, units) = values(alloc, items, es.as_slice(), env, units, steps)?;
            end(list_or_size(alloc, vs)?, units)
        }
        Expr::And(a, b) => conjunction(alloc, items, a, b, env, units, steps),
        Expr::Or(a, b) => disjunction(alloc, items, a, b, env, units, steps),
        Expr::Neg(a) => one(alloc, items, Unary::Neg, a, env, units, steps),
        Expr::Not(a) => one(alloc, items, Unary::Not, a, env, units, steps),
        Expr::Len(a) => one(alloc, items, Unary::Len, a, env, units, steps),
        Expr::Str(a) => one(alloc, items, Unary::Str, a, env, units, steps),
        Expr::Index(a, b) => two(alloc, items, Binary::Index, a, b, env, units, steps),
        Expr::Eq(a, b) => two(alloc, items, Binary::Eq, a, b, env, units, steps),
        Expr::Ne(a, b) => two(alloc, items, Binary::Ne, a, b, env, units, steps),
        Expr::Lt(a, b) => two(alloc, items, Binary::Lt, a, b, env, units, steps),
        Expr::Le(a, b) => two(alloc, items, Binary::Le, a, b, env, units, steps),
        Expr::Gt(a, b) => two(alloc, items, Binary::Gt, a, b, env, units, steps),
        Expr::Ge(a, b) => two(alloc, items, Binary::Ge, a, b, env, units, steps),
        Expr::Add(a, b) => two(alloc, items, Binary::Add, a, b, env, units, steps),
        Expr::Sub(a, b) => two(alloc, items, Binary::Sub, a, b, env, units, steps),
        Expr::Join(a, b) => two(alloc, items, Binary::Join, a, b, env, units, steps),
        Expr::Mul(a, b) => two(alloc, items, Binary::Mul, a, b, env, units, steps),
        Expr::Div(a, b) => two(alloc, items, Binary::Div, a, b, env, units, steps),
        Expr::Rem(a, b) => two(alloc, items, Binary::Rem, a, b, env, units, steps),
    }
}

// `a && b`. The right side isn't evaluated where the left one is false.
#[cycle(eval)]
fn conjunction<L: Ledger>(
    alloc: Global,
    items: &[Item],
    a: &Boxed<Expr>,
    b: &Boxed<Expr>,
    env: &[(Txt, Val)],
    units: u32,
    steps: &mut Steps<L>,
) -> Result<(Val, u32), Halt>
    ensures { EndsAs result (and_of (evaluated (calls_of items.now) a.now) (evaluated (calls_of items.now) b.now) env.now units steps.old) steps.new }
{
    let (side, units) = evaluate(alloc, items, a.get(), env, units, steps)?;
    match truth_in(side) {
        None => end(type_failure(alloc)?, units),
        Some(false) => Ok((Val::Bool(false), units)),
        Some(true) => one(alloc, items, Unary::Truth, b, env, units, steps),
    }
}

// `a || b`. The right side isn't evaluated where the left one is true.
#[cycle(eval)]
fn disjunction<L: Ledger>(
    alloc: Global,
    items: &[Item],
    a: &Boxed<Expr>,
    b: &Boxed<Expr>,
    env: &[(Txt, Val)],
    units: u32,
    steps: &mut Steps<L>,
) -> Result<(Val, u32), Halt>
    ensures { EndsAs result (or_of (evaluated (calls_of items.now) a.now) (evaluated (calls_of items.now) b.now) env.now units steps.old) steps.new }
{
    let (side, units) = evaluate(alloc, items, a.get(), env, units, steps)?;
    match truth_in(side) {
        None => end(type_failure(alloc)?, units),
        Some(true) => Ok((Val::Bool(true), units)),
        Some(false) => one(alloc, items, Unary::Truth, b, env, units, steps),
    }
}

// Two values, from left to right.
#[cycle(eval)]
fn both<L: Ledger>(
    alloc: Global,
    items: &[Item],
    a: &Boxed<Expr>,
    b: &Boxed<Expr>,
    env: &[(Txt, Val)],
    units: u32,
    steps: &mut Steps<L>,
) -> Result<((Val, Val), u32), Halt>
    ensures { EndsAs result (meaning.both (evaluated (calls_of items.now) a.now) (evaluated (calls_of items.now) b.now) env.now units steps.old) steps.new }
{
    let (x, units) = evaluate(alloc, items, a.get(), env, units, steps)?;
    let (y, units) = evaluate(alloc, items, b.get(), env, units, steps)?;
    Ok(((x, y), units))
}

// An operator on one value.
#[cycle(eval)]
fn one<L: Ledger>(
    alloc: Global,
    items: &[Item],
    op: Unary,
    a: &Boxed<Expr>,
    env: &[(Txt, Val)],
    units: u32,
    steps: &mut Steps<L>,
) -> Result<(Val, u32), Halt>
    ensures { EndsAs result (meaning.unary (outcome_of op) (evaluated (calls_of items.now) a.now) env.now units steps.old) steps.new }
{
    let (v, units) = evaluate(alloc, items, a.get(), env, units, steps)?;
    end(op.apply(alloc, v)?, units)
}

// An operator on two values.
#[cycle(eval)]
fn two<L: Ledger>(
    alloc: Global,
    items: &[Item],
    op: Binary,
    a: &Boxed<Expr>,
    b: &Boxed<Expr>,
    env: &[(Txt, Val)],
    units: u32,
    steps: &mut Steps<L>,
) -> Result<(Val, u32), Halt>
    ensures { EndsAs result (meaning.binary (outcome_of_both op) (evaluated (calls_of items.now) a.now) (evaluated (calls_of items.now) b.now) env.now units steps.old) steps.new }
{
    let ((x, y), units) = both(alloc, items, a, b, env, units, steps)?;
    end(op.apply(alloc, x, y)?, units)
}

/// The values of several expressions, from left to right, and the units left.
#[cycle(eval)]
pub fn values<L: Ledger>(
    alloc: Global,
    items: &[Item],
    es: &[Expr],
    env: &[(Txt, Val)],
    units: u32,
    steps: &mut Steps<L>,
) -> Result<(Vec<Val>, u32), Halt>
    ensures { EndsBy result (λ vs. vs.items) (values_onto [] (map (evaluated (calls_of items.now)) es.now) env.now units steps.old) steps.new }
{
    let mut done = Vec::new(alloc);
    let mut left = units;
    for e in es {
        let (v, rest) = evaluate(alloc, items, e, env, left, steps)?;
        done.push(v)?;
        left = rest;
    }
    Ok((done, left))
}

// What a helper's body gives, after one unit.
#[cycle(eval)]
fn call<L: Ledger>(
    alloc: Global,
    items: &[Item],
    name: &Txt,
    args: Vec<Val>,
    units: u32,
    steps: &mut Steps<L>,
) -> Result<(Val, u32), Halt>
    ensures { EndsAs result (meaning.with_unit units steps.old (calls_of items.now name.now args.items)) steps.new }
{
    if units == 0 {
        return spent(alloc);
    }
    match find(items, name, args.len()) {
        Some((earlier, params, body)) => {
            let env = bind(alloc, params, args)?;
            evaluate(alloc, earlier, body, env.names.as_slice(), units - 1, steps)
        }
        None => Err(Halt::Stuck),
    }
}

fn truth_in(v: Val) -> Option<bool>
    ensures { result ≡ values_of.bool_of v }
{
    bool_of(&v)
}

// No unit is left.
fn spent(alloc: Global) -> Result<(Val, u32), Halt>
    ensures { (n : ℕ) → EndsAs result (meaning.Fails (codes "budget") 0 n) n }
{
    match Txt::new(alloc, "budget") {
        Ok(word) => Err(Halt::Word { word, units: 0 }),
        Err(_) => Err(Halt::Memory),
    }
}

fn end(o: Outcome, units: u32) -> Result<(Val, u32), Halt>
    ensures { (n : ℕ) → EndsAs result (ends o units n) n }
{
    match o {
        Outcome::Value(v) => Ok((v, units)),
        Outcome::Failure(word) => Err(Halt::Word { word, units }),
    }
}
