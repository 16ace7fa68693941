//! Statements, blocks, loops and handlers, by recursion over the tree.

ghost use Rattle.std.specs.Prelude.{◌≡◌, ℕ, ◌+◌, map};
ghost use Rattle.fn_tree.specs.Ends.{Ends, Goes, and_then, is_caught as caught_word};
ghost use Rattle.fn_tree.specs.Expression.{calls_of};
ghost use Rattle.fn_tree.specs.Control as control;
ghost use Rattle.fn_tree.specs.Statement.{acted, body_of, condition as condition_of, list_value as list_of};
ghost use Rattle.fn_walk.specs.Runs.{RunsAs, place_at};

use crate::acts::Acts;
use crate::broken::Break;
use crate::parts::{condition, delete, do_, fail, let_, list_value, put, return_, set, word};
use crate::place::Place;
use fn_tree::expr::Expr;
use fn_tree::program::Item;
use fn_tree::stmt::Stmt;
use r3_steps::Steps;
use r3_value::{Txt, Val};
use std::alloc::Global;
use std::sync::ledger::Ledger;

/// `try` catches neither `budget` nor `steps`.
fn is_caught(word: &Txt) -> bool
    ensures { result ≡ caught_word word.now }
{
    word.as_str() != "budget" && word.as_str() != "steps"
}

// At the end of a block its bindings end.
fn close<S, E: Acts<S>>(
    _on: &E,
    n: usize,
    r: Result<(), Break>,
    place: &mut Place<S>,
) -> Result<(), Break>
    ensures { (d : Ends E.Question S (Unit {0})) (cost : ℕ) → RunsAs E.question r d (place_at place.old.names.items place.old.state place.old.units cost) → RunsAs E.question result (control.closed n d) (place_at place.new.names.items place.new.state place.new.units cost) }
{
    match r {
        Ok(()) => {
            place.names.truncate(n);
            Ok(())
        }
        Err(Break::Failed(word)) => {
            place.names.truncate(n);
            Err(Break::Failed(word))
        }
        Err(Break::Returned(v)) => Err(Break::Returned(v)),
        Err(Break::Asks(q)) => Err(Break::Asks(q)),
        Err(Break::Memory) => Err(Break::Memory),
        Err(Break::Stuck) => Err(Break::Stuck),
    }
}

// What a statement does.
#[cycle(walk)]
fn act<S, E: Acts<S>, L: Ledger>(
    alloc: Global,
    on: &E,
    items: &[Item],
    s: &Stmt,
    place: &mut Place<S>,
    steps: &mut Steps<L>,
) -> Result<(), Break>
    ensures { RunsAs E.question result (acted (E.effects on.now) (calls_of items.now) s.now (place_at place.old.names.items place.old.state place.old.units steps.old)) (place_at place.new.names.items place.new.state place.new.units steps.new) }
{
    match s {
        Stmt::Let { name, rhs } => let_(alloc, on, items, name, rhs, place, steps),
        Stmt::Set { name, rhs } => set(alloc, on, items, name, rhs, place, steps),
        Stmt::Do { ask } => do_(alloc, on, items, ask, place, steps),
        Stmt::Put { table, key, value } => put(alloc, on, items, table, key, value, place, steps),
        Stmt::Delete { table, key } => delete(alloc, on, items, table, key, place, steps),
        Stmt::If { cond, yes, no } => match no {
            None => branch(alloc, on, items, cond, yes.as_slice(), place, steps),
            Some(no) => branches(
                alloc,
                on,
                items,
                cond,
                yes.as_slice(),
                no.as_slice(),
                place,
                steps,
            ),
        },
        Stmt::While { cond, body } => repeat(alloc, on, items, cond, body.as_slice(), place, steps),
        Stmt::Each { name, list, body } => each(
            alloc,
            on,
            items,
            name,
            list,
            body.as_slice(),
            place,
            steps,
        ),
        Stmt::Try {
            body,
            name,
            handler,
        } => attempt(
            alloc,
            on,
            items,
            body.as_slice(),
            name,
            handler.as_slice(),
            place,
            steps,
        ),
        Stmt::Return { value } => return_(alloc, on, items, value, place, steps),
        Stmt::Fail { word } => fail(alloc, on, items, word, place, steps),
    }
}

/// What statements do, one after another. Each expression node that is evaluated takes one step.
///
/// The result is the end that the meaning gives, at the place that it leaves: Ok where the body goes
/// on, and why it doesn't else.
#[cycle(walk)]
pub fn walk<S, E: Acts<S>, L: Ledger>(
    alloc: Global,
    on: &E,
    items: &[Item],
    body: &[Stmt],
    place: &mut Place<S>,
    steps: &mut Steps<L>,
) -> Result<(), Break>
    ensures { RunsAs E.question result (body_of (E.effects on.now) (calls_of items.now) body.now (place_at place.old.names.items place.old.state place.old.units steps.old)) (place_at place.new.names.items place.new.state place.new.units steps.new) }
{
    for s in body {
        act(alloc, on, items, s, place, steps)?;
    }
    Ok(())
}

// A block, whose bindings end with it.
#[cycle(walk)]
fn block<S, E: Acts<S>, L: Ledger>(
    alloc: Global,
    on: &E,
    items: &[Item],
    body: &[Stmt],
    place: &mut Place<S>,
    steps: &mut Steps<L>,
) -> Result<(), Break>
    ensures { RunsAs E.question result (control.block (map (acted (E.effects on.now) (calls_of items.now)) body.now) (place_at place.old.names.items place.old.state place.old.units steps.old)) (place_at place.new.names.items place.new.state place.new.units steps.new) }
{
    let n = place.names.len();
    let r = walk(alloc, on, items, body, place, steps);
    close(on, n, r, place)
}

// A block in which a name is bound first.
#[cycle(walk)]
fn block_with<S, E: Acts<S>, L: Ledger>(
    alloc: Global,
    on: &E,
    items: &[Item],
    name: &Txt,
    v: Val,
    body: &[Stmt],
    place: &mut Place<S>,
    steps: &mut Steps<L>,
) -> Result<(), Break>
    ensures { RunsAs E.question result (control.block_with name.now v (map (acted (E.effects on.now) (calls_of items.now)) body.now) (place_at place.old.names.items place.old.state place.old.units steps.old)) (place_at place.new.names.items place.new.state place.new.units steps.new) }
{
    let n = place.names.len();
    place.names.push((name.copy()?, v))?;
    let r = walk(alloc, on, items, body, place, steps);
    close(on, n, r, place)
}

// `if` without `else`.
#[cycle(walk)]
fn branch<S, E: Acts<S>, L: Ledger>(
    alloc: Global,
    on: &E,
    items: &[Item],
    cond: &Expr,
    yes: &[Stmt],
    place: &mut Place<S>,
    steps: &mut Steps<L>,
) -> Result<(), Break>
    ensures { RunsAs E.question result (and_then (condition_of (E.effects on.now) (calls_of items.now) cond.now (place_at place.old.names.items place.old.state place.old.units steps.old)) (λ b. control.chosen b (control.block (map (acted (E.effects on.now) (calls_of items.now)) yes.now)) (Goes tt))) (place_at place.new.names.items place.new.state place.new.units steps.new) }
{
    if condition(alloc, on, items, cond, place, steps)? {
        block(alloc, on, items, yes, place, steps)
    } else {
        Ok(())
    }
}

// `if` with `else`.
#[cycle(walk)]
fn branches<S, E: Acts<S>, L: Ledger>(
    alloc: Global,
    on: &E,
    items: &[Item],
    cond: &Expr,
    yes: &[Stmt],
    no: &[Stmt],
    place: &mut Place<S>,
    steps: &mut Steps<L>,
) -> Result<(), Break>
    ensures { RunsAs E.question result (and_then (condition_of (E.effects on.now) (calls_of items.now) cond.now (place_at place.old.names.items place.old.state place.old.units steps.old)) (λ b. control.chosen b (control.block (map (acted (E.effects on.now) (calls_of items.now)) yes.now)) (control.block (map (acted (E.effects on.now) (calls_of items.now)) no.now)))) (place_at place.new.names.items place.new.state place.new.units steps.new) }
{
    if condition(alloc, on, items, cond, place, steps)? {
        block(alloc, on, items, yes, place, steps)
    } else {
        block(alloc, on, items, no, place, steps)
    }
}

// `while`. Each turn takes a unit, so that one more turn than there are units is no bound.
#[cycle(walk)]
fn repeat<S, E: Acts<S>, L: Ledger>(
    alloc: Global,
    on: &E,
    items: &[Item],
    cond: &Expr,
    body: &[Stmt],
    place: &mut Place<S>,
    steps: &mut Steps<L>,
) -> Result<(), Break>
    ensures { RunsAs E.question result (control.turns (place.old.units + 1) (condition_of (E.effects on.now) (calls_of items.now) cond.now) (control.block (map (acted (E.effects on.now) (calls_of items.now)) body.now)) (place_at place.old.names.items place.old.state place.old.units steps.old)) (place_at place.new.names.items place.new.state place.new.units steps.new) }
{
    let mut left = place.units as u64 + 1;
    while left > 0 {
        left -= 1;
        if !condition(alloc, on, items, cond, place, steps)? {
            return Ok(());
        }
        if place.units == 0 {
            return Err(Break::Failed(word(alloc, "budget")?));
        }
        place.units -= 1;
        block(alloc, on, items, body, place, steps)?;
    }
    Err(Break::Failed(word(alloc, "budget")?))
}

// `each`. Each item takes a unit.
#[cycle(walk)]
fn each<S, E: Acts<S>, L: Ledger>(
    alloc: Global,
    on: &E,
    items: &[Item],
    name: &Txt,
    list: &Expr,
    body: &[Stmt],
    place: &mut Place<S>,
    steps: &mut Steps<L>,
) -> Result<(), Break>
    ensures { RunsAs E.question result (and_then (list_of (E.effects on.now) (calls_of items.now) list.now (place_at place.old.names.items place.old.state place.old.units steps.old)) (λ vs. control.for_each vs name.now (map (acted (E.effects on.now) (calls_of items.now)) body.now))) (place_at place.new.names.items place.new.state place.new.units steps.new) }
{
    let vs = list_value(alloc, on, items, list, place, steps)?;
    for v in vs.as_slice() {
        if place.units == 0 {
            return Err(Break::Failed(word(alloc, "budget")?));
        }
        place.units -= 1;
        block_with(alloc, on, items, name, v.copy()?, body, place, steps)?;
    }
    Ok(())
}

// `try`: a failure runs the handler, with its word bound to the name.
#[cycle(walk)]
fn attempt<S, E: Acts<S>, L: Ledger>(
    alloc: Global,
    on: &E,
    items: &[Item],
    body: &[Stmt],
    name: &Txt,
    handler: &[Stmt],
    place: &mut Place<S>,
    steps: &mut Steps<L>,
) -> Result<(), Break>
    ensures { RunsAs E.question result (control.caught name.now (map (acted (E.effects on.now) (calls_of items.now)) handler.now) (control.block (map (acted (E.effects on.now) (calls_of items.now)) body.now) (place_at place.old.names.items place.old.state place.old.units steps.old))) (place_at place.new.names.items place.new.state place.new.units steps.new) }
{
    match block(alloc, on, items, body, place, steps) {
        Err(Break::Failed(word)) => {
            if is_caught(&word) {
                block_with(
                    alloc,
                    on,
                    items,
                    name,
                    Val::Text(word),
                    handler,
                    place,
                    steps,
                )
            } else {
                Err(Break::Failed(word))
            }
        }
        Err(Break::Returned(v)) => Err(Break::Returned(v)),
        Err(Break::Asks(q)) => Err(Break::Asks(q)),
        Err(Break::Memory) => Err(Break::Memory),
        Err(Break::Stuck) => Err(Break::Stuck),
        Ok(()) => Ok(()),
    }
}
