//! Trees that differ in one place each.

use crate::expr::Expr;
use crate::program::{Item, Program};
use crate::stmt::{Rhs, Stmt};
use r3_value::Txt;
use sqlite_items::{Boxed, Items};
use std::alloc::Global;
use std::test::Fail;

fn number(alloc: Global, n: i64) -> Result<Boxed<Expr>, Fail> {
    Ok(Boxed::new(alloc, Expr::Int(n))?)
}

fn difference(alloc: Global, a: i64, b: i64) -> Result<Expr, Fail> {
    let a = number(alloc, a)?;
    let b = number(alloc, b)?;
    Ok(Expr::Sub(a, b))
}

fn call(alloc: Global, name: &str, n: i64) -> Result<Expr, Fail> {
    let name = Txt::new(alloc, name)?;
    let mut args = Items::new(alloc);
    args.push(Expr::Int(n))?;
    Ok(Expr::Helper { name, args })
}

// Whether the trees are equal, and each to its copy.
fn same_expr(alloc: Global, a: &Expr, b: &Expr) -> Result<bool, Fail> {
    let copy = a.copy(alloc)?;
    Ok(copy.same(a) && copy.same(b))
}

#[test]
fn expressions_differ_by_names_and_operands(rt: HostRuntime) -> Result<(), Fail> {
    let alloc = rt.alloc();
    // a call's name and argument, whether it is `f(1)`
    let cases = [("f", 1, true), ("g", 1, false), ("f", 2, false)];
    let one = call(alloc, "f", 1)?;
    for (name, n, want) in cases {
        let other = call(alloc, name, n)?;
        assert!(rt; same_expr(alloc, &one, &other)? == want, "{name} of {n}");
    }
    // the operands, whether they make `1 - 2`
    let one = difference(alloc, 1, 2)?;
    for (a, b, want) in [(1, 2, true), (2, 1, false), (1, 1, false)] {
        let other = difference(alloc, a, b)?;
        assert!(rt; same_expr(alloc, &one, &other)? == want, "{a} less {b}");
    }
    Ok(())
}

fn block(alloc: Global, n: i64) -> Result<Items<Stmt>, Fail> {
    let mut body = Items::new(alloc);
    body.push(Stmt::Return {
        value: Expr::Int(n),
    })?;
    Ok(body)
}

// An `if` with these numbers to be returned, the second one 0 where it has no `else`.
fn choice(alloc: Global, yes: i64, no: i64) -> Result<Stmt, Fail> {
    let yes = block(alloc, yes)?;
    let cond = Expr::True;
    if no == 0 {
        return Ok(Stmt::If {
            cond,
            yes,
            no: None,
        });
    }
    let no = Some(block(alloc, no)?);
    Ok(Stmt::If { cond, yes, no })
}

fn same_stmt(alloc: Global, a: &Stmt, b: &Stmt) -> Result<bool, Fail> {
    let copy = a.copy(alloc)?;
    Ok(copy.same(a) && copy.same(b))
}

#[test]
fn statements_differ_by_their_blocks(rt: HostRuntime) -> Result<(), Fail> {
    let alloc = rt.alloc();
    let one = choice(alloc, 1, 2)?;
    for (yes, no, want) in [(1, 2, true), (2, 2, false), (1, 3, false), (1, 0, false)] {
        let other = choice(alloc, yes, no)?;
        assert!(rt; same_stmt(alloc, &one, &other)? == want, "{yes} or {no}");
    }
    let name = Txt::new(alloc, "x")?;
    let bound = Stmt::Let {
        name,
        rhs: Rhs::Plain(Expr::Null),
    };
    assert!(rt; same_stmt(alloc, &bound, &bound)? && !bound.same(&one));
    Ok(())
}

fn program(alloc: Global, serial: bool, name: &str, param: &str, n: i64) -> Result<Program, Fail> {
    let name = Txt::new(alloc, name)?;
    let mut params = Items::new(alloc);
    params.push(Txt::new(alloc, param)?)?;
    let body = block(alloc, n)?;
    let mut items = Vec::new(alloc);
    items.push(Item::Txn {
        serial,
        name,
        params,
        body,
    })?;
    Ok(Program { items })
}

#[test]
fn programs_differ_by_each_part_of_an_item(rt: HostRuntime) -> Result<(), Fail> {
    let alloc = rt.alloc();
    let one = program(alloc, false, "t", "p", 1)?;
    let cases = [
        (false, "t", "p", 1, true),
        (true, "t", "p", 1, false),
        (false, "u", "p", 1, false),
        (false, "t", "q", 1, false),
        (false, "t", "p", 2, false),
    ];
    for (serial, name, param, n, want) in cases {
        let other = program(alloc, serial, name, param, n)?;
        assert!(rt; one.same(&other) == want, "{serial} {name} {param} {n}");
    }
    Ok(())
}
