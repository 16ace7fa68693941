//! Operators on texts and lists.

ghost use Rattle.std.specs.Prelude.{◌≡◌, IfOk, ◌++◌};
ghost use Rattle.fn_tree.specs.Sequences as meaning;

use crate::operand::{failure, int_of, type_failure};
use r3_value::{Memory, Outcome, Txt, Val, ValFault};
use std::alloc::Global;

#[tactic(auto, unfolding(fn_tree::specs::Sequences::list_or_size))]
pub fn list_or_size(alloc: Global, items: Vec<Val>) -> Result<Outcome, Memory>
    ensures { IfOk result (λ o. o ≡ meaning.list_or_size items.items) }
{
    match Val::list(items) {
        Ok(v) => Ok(Outcome::Value(v)),
        Err(_) => failure(alloc, "size"),
    }
}

#[tactic(auto, unfolding(fn_tree::specs::Sequences::text_or_size))]
fn text_or_size(alloc: Global, text: &str) -> Result<Outcome, Memory>
    ensures { IfOk result (λ o. o ≡ meaning.text_or_size text.now) }
{
    match Txt::new(alloc, text) {
        Ok(text) => Ok(Outcome::Value(Val::Text(text))),
        Err(ValFault::Memory) => Err(Memory),
        Err(_) => failure(alloc, "size"),
    }
}

#[tactic(auto, unfolding(fn_tree::specs::Sequences::joined))]
pub fn joined(alloc: Global, a: Val, b: Val) -> Result<Outcome, Memory>
    ensures { IfOk result (λ o. o ≡ meaning.joined a b) }
{
    match a {
        Val::Text(s) => match b {
            Val::Text(t) => joined_texts(alloc, &s, &t),
            _ => type_failure(alloc),
        },
        Val::List(vs) => match b {
            Val::List(ws) => joined_lists(alloc, vs.into_vec(), ws.into_vec()),
            _ => type_failure(alloc),
        },
        _ => type_failure(alloc),
    }
}

fn joined_texts(alloc: Global, s: &Txt, t: &Txt) -> Result<Outcome, Memory>
    ensures { IfOk result (λ o. o ≡ meaning.text_or_size (s.now ++ t.now)) }
{
    let mut text = String::from_str(alloc, s.as_str())?;
    text.push_str(t.as_str())?;
    text_or_size(alloc, text.as_str())
}

fn joined_lists(alloc: Global, vs: Vec<Val>, ws: Vec<Val>) -> Result<Outcome, Memory>
    ensures { IfOk result (λ o. o ≡ meaning.list_or_size (vs.items ++ ws.items)) }
{
    let mut all = vs;
    let mut more = ws;
    all.append(&mut more)?;
    list_or_size(alloc, all)
}

#[tactic(auto, unfolding(fn_tree::specs::Sequences::length_of))]
pub fn length_of(alloc: Global, a: Val) -> Result<Outcome, Memory>
    ensures { IfOk result (λ o. o ≡ meaning.length_of a) }
{
    match &a {
        Val::Text(t) => Ok(Outcome::Value(Val::Int(t.as_str().len() as i64))),
        Val::List(items) => Ok(Outcome::Value(Val::Int(items.items().len() as i64))),
        _ => type_failure(alloc),
    }
}

#[tactic(auto, unfolding(fn_tree::specs::Sequences::shown))]
pub fn shown(alloc: Global, a: Val) -> Result<Outcome, Memory>
    ensures { IfOk result (λ o. o ≡ meaning.shown a) }
{
    match a {
        Val::Int(z) => {
            let text = format!(in alloc; "{z}")?;
            match Txt::new(alloc, text.as_str()) {
                Ok(text) => Ok(Outcome::Value(Val::Text(text))),
                Err(_) => Err(Memory),
            }
        }
        Val::Text(t) => Ok(Outcome::Value(Val::Text(t))),
        _ => type_failure(alloc),
    }
}

#[tactic(auto, unfolding(fn_tree::specs::Sequences::indexed))]
pub fn indexed(alloc: Global, a: Val, i: Val) -> Result<Outcome, Memory>
    ensures { IfOk result (λ o. o ≡ meaning.indexed a i) }
{
    match &a {
        Val::List(items) => match int_of(&i) {
            Some(i) => item_at(alloc, items.items(), i),
            None => type_failure(alloc),
        },
        _ => type_failure(alloc),
    }
}

fn item_at(alloc: Global, items: &[Val], i: i64) -> Result<Outcome, Memory>
    ensures { IfOk result (λ o. o ≡ meaning.item_at items.now i) }
{
    if i < 0 {
        return failure(alloc, "index");
    }
    match items.get(i as usize) {
        Some(v) => Ok(Outcome::Value(v.copy()?)),
        None => failure(alloc, "index"),
    }
}
