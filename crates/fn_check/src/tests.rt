//! Programs that are refused, each with its first fault.

use crate::{CheckError, CheckKind, check, is_readable};
use fn_tree::expr::Expr;
use fn_tree::program::{Item, Program};
use fn_tree::stmt::{Ask, Stmt};
use r3_value::Txt;
use sqlite_items::Items;
use std::alloc::Global;
use std::test::Fail;

fn text(alloc: Global, s: &str) -> Result<Txt, Fail> {
    Ok(Txt::new(alloc, s)?)
}

/// The variables between blanks.
fn variables(alloc: Global, list: &str) -> Result<Items<Expr>, Fail> {
    let mut all = Items::new(alloc);
    for s in list.split(' ') {
        all.push(Expr::Name(text(alloc, s)?))?;
    }
    Ok(all)
}

/// The list of one parameter.
fn only(alloc: Global, s: &str) -> Result<Items<Txt>, Fail> {
    let mut all = Items::new(alloc);
    all.push(text(alloc, s)?)?;
    Ok(all)
}

/// `flow NAME(m) { do call CALLED(ARGS); }`
fn flow(alloc: Global, name: &str, called: &str, args: &str) -> Result<Item, Fail> {
    let args = variables(alloc, args)?;
    let called = text(alloc, called)?;
    let ask = Ask::Call { name: called, args };
    let mut body = Items::new(alloc);
    body.push(Stmt::Do { ask })?;
    let params = only(alloc, "m")?;
    let name = text(alloc, name)?;
    Ok(Item::Flow { name, params, body })
}

/// `helper NAME(x) = CALLED(ARGS);`
fn helper(alloc: Global, name: &str, called: &str, args: &str) -> Result<Item, Fail> {
    let args = variables(alloc, args)?;
    let called = text(alloc, called)?;
    let body = Expr::Helper { name: called, args };
    let params = only(alloc, "x")?;
    let name = text(alloc, name)?;
    Ok(Item::Helper { name, params, body })
}

/// `table acct; outside notify(who);`
fn declared(alloc: Global) -> Result<Vec<Item>, Fail> {
    let mut items = Vec::new(alloc);
    let name = text(alloc, "acct")?;
    items.push(Item::Table { name })?;
    let params = only(alloc, "who")?;
    let name = text(alloc, "notify")?;
    items.push(Item::Outside { name, params })?;
    Ok(items)
}

/// The number of the faulty item, which is the third, and its fault; 0 where none is faulty.
fn fault(alloc: Global, item: Item) -> Result<(u32, CheckKind), Fail> {
    let mut items = declared(alloc)?;
    items.push(item)?;
    let program = Program { items };
    if !is_readable(&program) {
        return Err(Fail::new("a name is too long"));
    }
    match check(alloc, program) {
        Ok(_) => Ok((0, CheckKind::Unbound)),
        Err(CheckError::Check { item, kind }) => Ok((item, kind)),
        Err(CheckError::Memory) => Err(Fail::new("out of memory")),
    }
}

#[test]
fn flows_are_refused_at_their_first_fault(rt: HostRuntime) -> Result<(), Fail> {
    let alloc = rt.alloc();
    // the flow's name, what it calls, the arguments, and the fault
    let cases = [
        ("acct", "notify", "m", CheckKind::DuplicateName),
        ("f", "nobody", "m", CheckKind::UnknownName),
        ("f", "m", "m", CheckKind::UnknownName),
        ("f", "acct", "m", CheckKind::Kind),
        ("f", "f", "m", CheckKind::Kind),
        ("f", "notify", "m m", CheckKind::Arity),
        ("f", "notify", "x m", CheckKind::Arity),
        ("f", "notify", "x", CheckKind::Unbound),
    ];
    for (name, called, args, want) in cases {
        let (at, kind) = fault(alloc, flow(alloc, name, called, args)?)?;
        assert!(rt;
            at == 3 && kind == want,
            "flow {name} calls {called}({args})"
        );
    }
    let (at, _) = fault(alloc, flow(alloc, "f", "notify", "m")?)?;
    assert_eq!(rt; at, 0);
    Ok(())
}

#[test]
fn helpers_are_refused_at_their_first_fault(rt: HostRuntime) -> Result<(), Fail> {
    let alloc = rt.alloc();
    // what helper h(x) calls, the arguments, and the fault
    let cases = [
        ("h", "x", CheckKind::CallOrder),
        ("h", "x x", CheckKind::CallOrder),
        ("notify", "x", CheckKind::Kind),
        ("nobody", "x", CheckKind::UnknownName),
    ];
    for (called, args, want) in cases {
        let (at, kind) = fault(alloc, helper(alloc, "h", called, args)?)?;
        assert!(rt; at == 3 && kind == want, "helper h(x) = {called}({args})");
    }
    Ok(())
}
