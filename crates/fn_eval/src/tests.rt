ghost use Rattle.std.specs.Prelude.{◌≡◌, ◌<◌, [], true, IfOk};
ghost use Rattle.fn_tree.specs.Soundness.{expr_is_sound};

use crate::operation::{Binary, Unary};
use crate::{Env, Fail, Halt, eval, evaluate};
use fn_tree::checked::Checked;
use fn_tree::expr::Expr;
use fn_tree::program::{Item, Program};
use r3_steps::Steps;
use r3_value::{Outcome, Txt, Val};
use sqlite_items::{Boxed, Items};
use std::alloc::Global;
use std::marker::Brand;
use std::process::Abort;
use std::sync::ledger::{Blank, Ledger};
use std::test::Fail as Failed;

// A number, a bool and a text as they are written, of a list how many items it has.
fn shown(alloc: Global, value: &Val) -> Result<String, Failed> {
    match value {
        Val::Null => Ok(String::from_str(alloc, "null")?),
        Val::Bool(b) => Ok(format!(in alloc; "{b}")?),
        Val::Int(n) => Ok(format!(in alloc; "{n}")?),
        Val::Text(text) => Ok(String::from_str(alloc, text.as_str())?),
        Val::List(values) => Ok(format!(in alloc; "{} items", values.items().len())?),
    }
}

fn is(alloc: Global, outcome: &Outcome, want: &str) -> Result<bool, Failed> {
    match outcome {
        Outcome::Value(value) => Ok(shown(alloc, value)?.as_str() == want),
        Outcome::Failure(word) => Ok(word.as_str() == want),
    }
}

#[test]
fn operators_on_numbers(rt: HostRuntime) -> Result<(), Failed> {
    let alloc = rt.alloc();
    let least = i64::MIN;
    let most = i64::MAX;
    let cases = [
        (Binary::Add, most, 1, "overflow"),
        (Binary::Add, most, least, "-1"),
        (Binary::Add, least, -1, "overflow"),
        (Binary::Sub, least, 1, "overflow"),
        (Binary::Sub, 0, least, "overflow"),
        (Binary::Sub, -1, least, "9223372036854775807"),
        (Binary::Mul, 3037000500, 3037000500, "overflow"),
        (Binary::Mul, least, -1, "overflow"),
        (Binary::Mul, -3, 4, "-12"),
        (Binary::Div, -7, 2, "-3"),
        (Binary::Div, 7, -2, "-3"),
        (Binary::Div, 7, 0, "zero"),
        (Binary::Div, least, -1, "overflow"),
        (Binary::Rem, -7, 2, "-1"),
        (Binary::Rem, 7, -2, "1"),
        (Binary::Rem, least, 0, "zero"),
        (Binary::Rem, least, -1, "overflow"),
        (Binary::Lt, least, most, "true"),
        (Binary::Le, 3, 3, "true"),
        (Binary::Gt, 3, 3, "false"),
        (Binary::Ge, -1, 0, "false"),
        (Binary::Eq, 3, 3, "true"),
        (Binary::Ne, 3, 3, "false"),
        (Binary::Join, 1, 2, "type"),
        (Binary::Index, 1, 0, "type"),
    ];
    for i in 0..25 {
        let (op, a, b, want) = cases[i];
        let outcome = op.apply(alloc, Val::Int(a), Val::Int(b))?;
        assert!(rt; is(alloc, &outcome, want)?, "row {i}");
    }
    Ok(())
}

#[test]
fn operators_on_texts(rt: HostRuntime) -> Result<(), Failed> {
    let alloc = rt.alloc();
    let cases = [
        (Binary::Lt, "ab", "b", "true"),
        (Binary::Lt, "a", "a\u{0}", "true"),
        (Binary::Lt, "\u{e9}", "z", "false"),
        (Binary::Le, "", "", "true"),
        (Binary::Gt, "b", "", "true"),
        (Binary::Ge, "a", "b", "false"),
        (Binary::Eq, "a", "A", "false"),
        (Binary::Join, "ab", "c", "abc"),
        (Binary::Add, "a", "b", "type"),
    ];
    for i in 0..9 {
        let (op, a, b, want) = cases[i];
        let outcome = op.apply(alloc, Val::text(alloc, a)?, Val::text(alloc, b)?)?;
        assert!(rt; is(alloc, &outcome, want)?, "row {i}");
    }
    // A text has at most 4,091 bytes.
    for (count, want) in [(2045, "4091"), (2046, "size")] {
        let long = Val::text(alloc, "s".repeat(alloc, 2046)?.as_str())?;
        let more = Val::text(alloc, "t".repeat(alloc, count)?.as_str())?;
        let both = match Binary::Join.apply(alloc, long, more)? {
            Outcome::Value(value) => Unary::Len.apply(alloc, value)?,
            fault => fault,
        };
        assert!(rt; is(alloc, &both, want)?, "{count} more bytes");
    }
    Ok(())
}

#[test]
fn operators_on_one_value(rt: HostRuntime) -> Result<(), Failed> {
    let alloc = rt.alloc();
    let numbers = [
        (Unary::Neg, i64::MIN, "overflow"),
        (Unary::Neg, i64::MAX, "-9223372036854775807"),
        (Unary::Str, i64::MIN, "-9223372036854775808"),
        (Unary::Not, 1, "type"),
        (Unary::Len, 1, "type"),
    ];
    for (op, n, want) in numbers {
        let outcome = op.apply(alloc, Val::Int(n))?;
        assert!(rt; is(alloc, &outcome, want)?, "{n} to {want}");
    }
    let texts = [
        (Unary::Len, "caf\u{e9}", "5"),
        (Unary::Str, "a", "a"),
        (Unary::Neg, "a", "type"),
        (Unary::Not, "a", "type"),
    ];
    for (op, text, want) in texts {
        let outcome = op.apply(alloc, Val::text(alloc, text)?)?;
        assert!(rt; is(alloc, &outcome, want)?, "{text} to {want}");
    }
    let outcome = Unary::Not.apply(alloc, Val::Bool(true))?;
    assert!(rt; is(alloc, &outcome, "false")?);
    Ok(())
}

fn item_at(alloc: Global, at: i64) -> Result<Outcome, Failed> {
    let list = Val::list(vec![in alloc; Val::Int(7), Val::Int(8)]?)?;
    Ok(Binary::Index.apply(alloc, list, Val::Int(at))?)
}

#[test]
fn items_are_counted_from_0(rt: HostRuntime) -> Result<(), Failed> {
    let alloc = rt.alloc();
    for (at, want) in [(-1, "index"), (0, "7"), (1, "8"), (2, "index")] {
        let outcome = item_at(alloc, at)?;
        assert!(rt; is(alloc, &outcome, want)?, "item {at}");
    }
    Ok(())
}

// 1 / 0
fn fault(alloc: Global) -> Result<Expr, Failed>
    ensures { IfOk result (λ e. expr_is_sound [] e [] ≡ true) }
{
    let one = Boxed::new(alloc, Expr::Int(1))?;
    let zero = Boxed::new(alloc, Expr::Int(0))?;
    Ok(Expr::Div(one, zero))
}

// A value with the units left, or the word of a failure.
fn ends(
    alloc: Global,
    end: &Result<(Val, u32), Halt>,
    want: &str,
    left: u32,
) -> Result<bool, Failed> {
    match end {
        Ok((value, units)) => Ok(shown(alloc, value)?.as_str() == want && *units == left),
        Err(Halt::Word { word, units }) => Ok(word.as_str() == want && *units == left),
        Err(_) => Ok(false),
    }
}

fn first_side(word: &str) -> Expr {
    match word {
        "true" => Expr::True,
        "false" => Expr::False,
        _ => Expr::Null,
    }
}

// The word and 1 / 0 on the two sides of `&&`, or of `||`.
fn two_sides(alloc: Global, word: &str, and: bool) -> Result<Expr, Failed> {
    let second = fault(alloc)?;
    let a = Boxed::new(alloc, first_side(word))?;
    let b = Boxed::new(alloc, second)?;
    if and {
        return Ok(Expr::And(a, b));
    }
    Ok(Expr::Or(a, b))
}

fn compare_sides<L: Ledger>(
    rt: &impl Abort,
    alloc: Global,
    steps: &mut Steps<L>,
) -> Result<(), Failed> {
    // the first side, whether it is of `&&`, and the end
    for (word, and, want) in [
        ("true", true, "zero"),
        ("false", true, "false"),
        ("null", true, "type"),
        ("true", false, "true"),
        ("false", false, "zero"),
        ("null", false, "type"),
    ] {
        let sides = two_sides(alloc, word, and)?;
        let end = evaluate(alloc, &[], &sides, &[], 5, steps);
        assert!(rt; ends(alloc, &end, want, 5)?, "{word}, then {want}");
    }
    Ok(())
}

// double(x) = x + x
fn double(alloc: Global) -> Result<Item, Failed> {
    let mut params = Items::new(alloc);
    params.push(Txt::new(alloc, "x")?)?;
    let x = Boxed::new(alloc, Expr::Name(Txt::new(alloc, "x")?))?;
    let y = Boxed::new(alloc, Expr::Name(Txt::new(alloc, "x")?))?;
    Ok(Item::Helper {
        name: Txt::new(alloc, "double")?,
        params,
        body: Expr::Add(x, y),
    })
}

fn double_of(alloc: Global, arg: Expr) -> Result<Expr, Failed> {
    let name = Txt::new(alloc, "double")?;
    let mut args = Items::new(alloc);
    args.push(arg)?;
    Ok(Expr::Helper { name, args })
}

fn end_of_double<L: Ledger>(
    alloc: Global,
    arg: Expr,
    units: u32,
    steps: &mut Steps<L>,
) -> Result<Result<(Val, u32), Halt>, Failed> {
    let call = double_of(alloc, arg)?;
    let mut items = Vec::new(alloc);
    items.push(double(alloc)?)?;
    Ok(evaluate(alloc, &items, &call, &[], units, steps))
}

fn compare_calls<L: Ledger>(
    rt: &impl Abort,
    alloc: Global,
    steps: &mut Steps<L>,
) -> Result<(), Failed> {
    // the units before, the end and the units left
    for (units, want, left) in [(2, "6", 1), (1, "6", 0), (0, "budget", 0)] {
        let end = end_of_double(alloc, Expr::Int(3), units, steps)?;
        assert!(rt; ends(alloc, &end, want, left)?, "with {units} units");
    }
    // The argument is evaluated before the unit is taken.
    let end = end_of_double(alloc, fault(alloc)?, 0, steps)?;
    assert!(rt; ends(alloc, &end, "zero", 0)?);
    Ok(())
}

// The same of a program that the checker has accepted.
fn ends_so(
    alloc: Global,
    end: &Result<(Val, u32), Fail>,
    want: &str,
    left: u32,
) -> Result<bool, Failed> {
    match end {
        Ok((value, units)) => Ok(shown(alloc, value)?.as_str() == want && *units == left),
        Err(Fail::Word { word, units }) => Ok(word.as_str() == want && *units == left),
        Err(Fail::Memory) => Ok(false),
    }
}

// A number and a failure in a program without items.
fn compare_sound<L: Ledger>(
    rt: &impl Abort,
    alloc: Global,
    steps: &mut Steps<L>,
) -> Result<(), Failed> {
    let program = Checked::new(Program {
        items: Vec::new(alloc),
    });
    let env = Env {
        names: Vec::new(alloc),
    };
    let end = eval(alloc, &program, &Expr::Int(7), &env, 4, steps);
    assert!(rt; ends_so(alloc, &end, "7", 4)?);
    let fault = fault(alloc)?;
    let end = eval(alloc, &program, &fault, &env, 4, steps);
    assert!(rt; ends_so(alloc, &end, "zero", 4)?);
    Ok(())
}

fn compare<L: Ledger>(rt: &impl Abort, alloc: Global, blank: Blank) -> Result<(), Failed>
    requires name { blank.name ≡ L.name }
    requires parts { blank.parts ≡ L.parts }
    requires some { 0 < blank.parts }
{
    let mut steps = Steps::<L>::new(blank);
    compare_sides(rt, alloc, &mut steps)?;
    compare_calls(rt, alloc, &mut steps)?;
    compare_sound(rt, alloc, &mut steps)?;
    Ok(())
}

#[test]
fn expressions_end_as_they_mean(rt: HostRuntime) -> Result<(), Failed> {
    compare::<Brand>(&rt, rt.alloc(), Blank::new(1))
}
