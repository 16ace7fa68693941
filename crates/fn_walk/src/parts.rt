//! The parts of statements that hold no other statement.

ghost use Rattle.std.specs.Prelude.{◌≡◌, ℕ, List, [], map, length, IfOk};
ghost use Rattle.fn_tree.specs.Ends.{Ends, and_then, assigned, bind as bound_at, Goes, Returns, Failed};
ghost use Rattle.fn_tree.specs.Expression.{evaluated, calls_of};
ghost use Rattle.fn_tree.specs.Evaluation.{values_onto};
ghost use Rattle.fn_tree.specs.Statement as meaning;
ghost use Rattle.fn_tree.specs.Values as values_of;
ghost use Rattle.fn_walk.specs.Runs.{RunsAs, place_at};

use crate::acts::Acts;
use crate::broken::Break;
use crate::names::assign;
use crate::place::Place;
use fn_eval::{Halt, evaluate, list_or_size, values};
use fn_tree::expr::Expr;
use fn_tree::program::Item;
use fn_tree::stmt::{Ask, Rhs};
use r3_steps::Steps;
use r3_value::{Memory, Outcome, Txt, Val};
use sqlite_items::Items;
use std::alloc::Global;
use std::sync::ledger::Ledger;

/// The word of a failure.
pub fn word(alloc: Global, text: &str) -> Result<Txt, Memory>
    ensures { IfOk result (λ t. t ≡ text.now) }
{
    match Txt::new(alloc, text) {
        Ok(word) => Ok(word),
        Err(_) => Err(Memory),
    }
}

/// The value of an expression.
pub fn value<S, E: Acts<S>, L: Ledger>(
    alloc: Global,
    on: &E,
    items: &[Item],
    e: &Expr,
    place: &mut Place<S>,
    steps: &mut Steps<L>,
) -> Result<Val, Break>
    ensures { RunsAs E.question result (meaning.value (E.effects on.now) (calls_of items.now) e.now (place_at place.old.names.items place.old.state place.old.units steps.old)) (place_at place.new.names.items place.new.state place.new.units steps.new) }
{
    match evaluate(alloc, items, e, place.names.as_slice(), place.units, steps) {
        Ok((v, units)) => {
            place.units = units;
            Ok(v)
        }
        Err(Halt::Word { word, units }) => {
            place.units = units;
            Err(Break::Failed(word))
        }
        Err(Halt::Memory) => Err(Break::Memory),
        Err(Halt::Stuck) => Err(Break::Stuck),
    }
}

fn truth_in(v: Val) -> Option<bool>
    ensures { result ≡ values_of.bool_of v }
{
    match v {
        Val::Bool(b) => Some(b),
        _ => None,
    }
}

fn text_in(v: Val) -> Option<Txt>
    ensures { result ≡ values_of.text_of v }
{
    match v {
        Val::Text(t) => Some(t),
        _ => None,
    }
}

fn list_in(v: Val) -> Option<Items<Val>>
    ensures { result ≡ values_of.items_of v }
{
    match v {
        Val::List(vs) => Some(Items::from_vec(vs.into_vec())),
        _ => None,
    }
}

/// The bool that an expression gives.
pub fn condition<S, E: Acts<S>, L: Ledger>(
    alloc: Global,
    on: &E,
    items: &[Item],
    e: &Expr,
    place: &mut Place<S>,
    steps: &mut Steps<L>,
) -> Result<bool, Break>
    ensures { RunsAs E.question result (meaning.condition (E.effects on.now) (calls_of items.now) e.now (place_at place.old.names.items place.old.state place.old.units steps.old)) (place_at place.new.names.items place.new.state place.new.units steps.new) }
{
    let v = value(alloc, on, items, e, place, steps)?;
    match truth_in(v) {
        Some(x) => Ok(x),
        None => Err(Break::Failed(word(alloc, "type")?)),
    }
}

/// The list that an expression gives.
pub fn list_value<S, E: Acts<S>, L: Ledger>(
    alloc: Global,
    on: &E,
    items: &[Item],
    e: &Expr,
    place: &mut Place<S>,
    steps: &mut Steps<L>,
) -> Result<Items<Val>, Break>
    ensures { RunsAs E.question result (meaning.list_value (E.effects on.now) (calls_of items.now) e.now (place_at place.old.names.items place.old.state place.old.units steps.old)) (place_at place.new.names.items place.new.state place.new.units steps.new) }
{
    let v = value(alloc, on, items, e, place, steps)?;
    match list_in(v) {
        Some(x) => Ok(x),
        None => Err(Break::Failed(word(alloc, "type")?)),
    }
}

/// The text that an expression gives.
pub fn text_value<S, E: Acts<S>, L: Ledger>(
    alloc: Global,
    on: &E,
    items: &[Item],
    e: &Expr,
    place: &mut Place<S>,
    steps: &mut Steps<L>,
) -> Result<Txt, Break>
    ensures { RunsAs E.question result (meaning.text_value (E.effects on.now) (calls_of items.now) e.now (place_at place.old.names.items place.old.state place.old.units steps.old)) (place_at place.new.names.items place.new.state place.new.units steps.new) }
{
    let v = value(alloc, on, items, e, place, steps)?;
    match text_in(v) {
        Some(x) => Ok(x),
        None => Err(Break::Failed(word(alloc, "type")?)),
    }
}

// The arguments of an ask, as one list value.
fn arguments<S, E: Acts<S>, L: Ledger>(
    alloc: Global,
    on: &E,
    items: &[Item],
    es: &[Expr],
    place: &mut Place<S>,
    steps: &mut Steps<L>,
) -> Result<Val, Break>
    ensures { RunsAs E.question result (meaning.arguments (E.effects on.now) (calls_of items.now) es.now (place_at place.old.names.items place.old.state place.old.units steps.old)) (place_at place.new.names.items place.new.state place.new.units steps.new) }
{
    match values(alloc, items, es, place.names.as_slice(), place.units, steps) {
        Ok((vs, units)) => {
            place.units = units;
            match list_or_size(alloc, vs)? {
                Outcome::Value(v) => Ok(v),
                Outcome::Failure(word) => Err(Break::Failed(word)),
            }
        }
        Err(Halt::Word { word, units }) => {
            place.units = units;
            Err(Break::Failed(word))
        }
        Err(Halt::Memory) => Err(Break::Memory),
        Err(Halt::Stuck) => Err(Break::Stuck),
    }
}

// A call of a transaction or of an outside service.
fn call<S, E: Acts<S>, L: Ledger>(
    alloc: Global,
    on: &E,
    items: &[Item],
    name: &Txt,
    args: &[Expr],
    place: &mut Place<S>,
    steps: &mut Steps<L>,
) -> Result<Val, Break>
    ensures { RunsAs E.question result (and_then (meaning.arguments (E.effects on.now) (calls_of items.now) args.now (place_at place.old.names.items place.old.state place.old.units steps.old)) ((E.effects on.now).call name.now (length args.now))) (place_at place.new.names.items place.new.state place.new.units steps.new) }
{
    let v = arguments(alloc, on, items, args, place, steps)?;
    on.call(alloc, &mut place.state, name, args.len(), v)
}

// The start of a child.
fn spawn<S, E: Acts<S>, L: Ledger>(
    alloc: Global,
    on: &E,
    items: &[Item],
    name: &Txt,
    args: &[Expr],
    place: &mut Place<S>,
    steps: &mut Steps<L>,
) -> Result<Val, Break>
    ensures { RunsAs E.question result (and_then (meaning.arguments (E.effects on.now) (calls_of items.now) args.now (place_at place.old.names.items place.old.state place.old.units steps.old)) ((E.effects on.now).spawn name.now (length args.now))) (place_at place.new.names.items place.new.state place.new.units steps.new) }
{
    let v = arguments(alloc, on, items, args, place, steps)?;
    on.spawn(alloc, &mut place.state, name, args.len(), v)
}

// A wait for a workflow.
fn wait<S, E: Acts<S>, L: Ledger>(
    alloc: Global,
    on: &E,
    items: &[Item],
    id: &Expr,
    place: &mut Place<S>,
    steps: &mut Steps<L>,
) -> Result<Val, Break>
    ensures { RunsAs E.question result (and_then (meaning.text_value (E.effects on.now) (calls_of items.now) id.now (place_at place.old.names.items place.old.state place.old.units steps.old)) (E.effects on.now).await) (place_at place.new.names.items place.new.state place.new.units steps.new) }
{
    let id = text_value(alloc, on, items, id, place, steps)?;
    on.wait(alloc, &mut place.state, id)
}

/// What an ask is answered.
fn asked<S, E: Acts<S>, L: Ledger>(
    alloc: Global,
    on: &E,
    items: &[Item],
    ask: &Ask,
    place: &mut Place<S>,
    steps: &mut Steps<L>,
) -> Result<Val, Break>
    ensures { RunsAs E.question result (meaning.asked (E.effects on.now) (calls_of items.now) ask.now (place_at place.old.names.items place.old.state place.old.units steps.old)) (place_at place.new.names.items place.new.state place.new.units steps.new) }
{
    match ask {
        Ask::Call { name, args } => call(alloc, on, items, name, args.as_slice(), place, steps),
        Ask::Spawn { name, args } => spawn(alloc, on, items, name, args.as_slice(), place, steps),
        Ask::Await { id } => wait(alloc, on, items, id, place, steps),
    }
}

// The row at a key.
fn get<S, E: Acts<S>, L: Ledger>(
    alloc: Global,
    on: &E,
    items: &[Item],
    table: &Txt,
    key: &Expr,
    place: &mut Place<S>,
    steps: &mut Steps<L>,
) -> Result<Val, Break>
    ensures { RunsAs E.question result (and_then (meaning.value (E.effects on.now) (calls_of items.now) key.now (place_at place.old.names.items place.old.state place.old.units steps.old)) ((E.effects on.now).get table.now)) (place_at place.new.names.items place.new.state place.new.units steps.new) }
{
    let key = value(alloc, on, items, key, place, steps)?;
    on.get(alloc, &mut place.state, table, key)
}

// The rows of a range.
fn scan<S, E: Acts<S>, L: Ledger>(
    alloc: Global,
    on: &E,
    items: &[Item],
    table: &Txt,
    lo: &Expr,
    hi: &Expr,
    place: &mut Place<S>,
    steps: &mut Steps<L>,
) -> Result<Val, Break>
    ensures { RunsAs E.question result (and_then (meaning.value (E.effects on.now) (calls_of items.now) lo.now (place_at place.old.names.items place.old.state place.old.units steps.old)) (λ l at. and_then (meaning.value (E.effects on.now) (calls_of items.now) hi.now at) ((E.effects on.now).scan table.now l))) (place_at place.new.names.items place.new.state place.new.units steps.new) }
{
    let lo = value(alloc, on, items, lo, place, steps)?;
    let hi = value(alloc, on, items, hi, place, steps)?;
    on.scan(alloc, &mut place.state, table, lo, hi)
}

// What stands to the right of `=`.
fn given<S, E: Acts<S>, L: Ledger>(
    alloc: Global,
    on: &E,
    items: &[Item],
    rhs: &Rhs,
    place: &mut Place<S>,
    steps: &mut Steps<L>,
) -> Result<Val, Break>
    ensures { RunsAs E.question result (meaning.given (E.effects on.now) (calls_of items.now) rhs.now (place_at place.old.names.items place.old.state place.old.units steps.old)) (place_at place.new.names.items place.new.state place.new.units steps.new) }
{
    match rhs {
        Rhs::Plain(e) => value(alloc, on, items, e, place, steps),
        Rhs::Ask(ask) => asked(alloc, on, items, ask, place, steps),
        Rhs::Get { table, key } => get(alloc, on, items, table, key, place, steps),
        Rhs::Scan { table, lo, hi } => scan(alloc, on, items, table, lo, hi, place, steps),
    }
}

/// Binds a new name.
pub fn let_<S, E: Acts<S>, L: Ledger>(
    alloc: Global,
    on: &E,
    items: &[Item],
    name: &Txt,
    rhs: &Rhs,
    place: &mut Place<S>,
    steps: &mut Steps<L>,
) -> Result<(), Break>
    ensures { RunsAs E.question result (and_then (meaning.given (E.effects on.now) (calls_of items.now) rhs.now (place_at place.old.names.items place.old.state place.old.units steps.old)) (λ v at. Goes tt (bound_at name.now v at))) (place_at place.new.names.items place.new.state place.new.units steps.new) }
{
    let v = given(alloc, on, items, rhs, place, steps)?;
    place.names.push((name.copy()?, v))?;
    Ok(())
}

/// Gives a bound name another value.
pub fn set<S, E: Acts<S>, L: Ledger>(
    alloc: Global,
    on: &E,
    items: &[Item],
    name: &Txt,
    rhs: &Rhs,
    place: &mut Place<S>,
    steps: &mut Steps<L>,
) -> Result<(), Break>
    ensures { RunsAs E.question result (and_then (meaning.given (E.effects on.now) (calls_of items.now) rhs.now (place_at place.old.names.items place.old.state place.old.units steps.old)) (λ v at. Goes tt (record at { env = assigned at.env name.now v }))) (place_at place.new.names.items place.new.state place.new.units steps.new) }
{
    let v = given(alloc, on, items, rhs, place, steps)?;
    assign(&mut place.names, name, v);
    Ok(())
}

/// Asks, and drops the answer.
pub fn do_<S, E: Acts<S>, L: Ledger>(
    alloc: Global,
    on: &E,
    items: &[Item],
    ask: &Ask,
    place: &mut Place<S>,
    steps: &mut Steps<L>,
) -> Result<(), Break>
    ensures { RunsAs E.question result (and_then (meaning.asked (E.effects on.now) (calls_of items.now) ask.now (place_at place.old.names.items place.old.state place.old.units steps.old)) (λ v. Goes tt)) (place_at place.new.names.items place.new.state place.new.units steps.new) }
{
    let _ = asked(alloc, on, items, ask, place, steps)?;
    Ok(())
}

/// Puts a row.
pub fn put<S, E: Acts<S>, L: Ledger>(
    alloc: Global,
    on: &E,
    items: &[Item],
    table: &Txt,
    key: &Expr,
    e: &Expr,
    place: &mut Place<S>,
    steps: &mut Steps<L>,
) -> Result<(), Break>
    ensures { RunsAs E.question result (and_then (meaning.value (E.effects on.now) (calls_of items.now) key.now (place_at place.old.names.items place.old.state place.old.units steps.old)) (λ k at. and_then (meaning.value (E.effects on.now) (calls_of items.now) e.now at) ((E.effects on.now).put table.now k))) (place_at place.new.names.items place.new.state place.new.units steps.new) }
{
    let key = value(alloc, on, items, key, place, steps)?;
    let v = value(alloc, on, items, e, place, steps)?;
    on.put(alloc, &mut place.state, table, key, v)
}

/// Deletes a row.
pub fn delete<S, E: Acts<S>, L: Ledger>(
    alloc: Global,
    on: &E,
    items: &[Item],
    table: &Txt,
    key: &Expr,
    place: &mut Place<S>,
    steps: &mut Steps<L>,
) -> Result<(), Break>
    ensures { RunsAs E.question result (and_then (meaning.value (E.effects on.now) (calls_of items.now) key.now (place_at place.old.names.items place.old.state place.old.units steps.old)) ((E.effects on.now).delete table.now)) (place_at place.new.names.items place.new.state place.new.units steps.new) }
{
    let key = value(alloc, on, items, key, place, steps)?;
    on.delete(alloc, &mut place.state, table, key)
}

/// Ends the body with a value.
pub fn return_<S, E: Acts<S>, L: Ledger>(
    alloc: Global,
    on: &E,
    items: &[Item],
    e: &Expr,
    place: &mut Place<S>,
    steps: &mut Steps<L>,
) -> Result<(), Break>
    ensures { RunsAs E.question result (and_then (meaning.value (E.effects on.now) (calls_of items.now) e.now (place_at place.old.names.items place.old.state place.old.units steps.old)) Returns) (place_at place.new.names.items place.new.state place.new.units steps.new) }
{
    let v = value(alloc, on, items, e, place, steps)?;
    Err(Break::Returned(v))
}

/// Fails with a word.
pub fn fail<S, E: Acts<S>, L: Ledger>(
    alloc: Global,
    on: &E,
    items: &[Item],
    e: &Expr,
    place: &mut Place<S>,
    steps: &mut Steps<L>,
) -> Result<(), Break>
    ensures { RunsAs E.question result (and_then (meaning.text_value (E.effects on.now) (calls_of items.now) e.now (place_at place.old.names.items place.old.state place.old.units steps.old)) Failed) (place_at place.new.names.items place.new.state place.new.units steps.new) }
{
    let word = text_value(alloc, on, items, e, place, steps)?;
    Err(Break::Failed(word))
}
