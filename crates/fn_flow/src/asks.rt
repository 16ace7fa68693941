//! The asks of a workflow, answered from a list.

ghost use Rattle.std.specs.Prelude.{◌≡◌, ℕ, List, Some};
ghost use Rattle.fn_tree.specs.Evaluation.{Binding};
ghost use Rattle.fn_tree.specs.declared.flow.Request.{Request as Asked};
ghost use Rattle.fn_walk.specs.Runs.{RunsAs, place_at};
ghost use Rattle.fn_flow.specs.Listed.{ask_listed, on_list};

use crate::find::{called, spawned};
use fn_tree::flow::{Answer, AskKind, Request};
use fn_tree::program::Item;
use fn_walk::{Acts, Break, word};
use r3_value::{Outcome, Txt, Val};
use std::alloc::Global;

/// A workflow may have this many asks.
const MOST_ASKS: u32 = 1000;

/// The asks of a program's workflows on a list of answers. The state is the number of the next ask.
#[derive(Drop)]
pub struct Listed<'a> {
    pub items: &'a [Item],
    pub answers: &'a [Answer],
}

// An ask, whose answer is that of its number where this has its name.
fn ask(
    alloc: Global,
    answers: &[Answer],
    next: &mut u32,
    kind: AskKind,
    name: Txt,
    args: Val,
) -> Result<Val, Break>
    ensures { (env : List Binding) (units cost : ℕ) → RunsAs Some result (ask_listed answers.now kind name args (place_at env next.old units cost)) (place_at env next.new units cost) }
{
    let n = *next;
    if n >= MOST_ASKS {
        return Err(Break::Failed(word(alloc, "steps")?));
    }
    match answers.get(n as usize) {
        None => Err(Break::Asks(Request {
            n,
            kind,
            name,
            args,
        })),
        Some(answer) => {
            if answer.name.as_str() == name.as_str() {
                *next = n + 1;
                match answer.outcome.copy()? {
                    Outcome::Value(v) => Ok(v),
                    Outcome::Failure(word) => Err(Break::Failed(word)),
                }
            } else {
                Err(Break::Asks(Request {
                    n,
                    kind,
                    name,
                    args,
                }))
            }
        }
    }
}

impl<'a> Acts<u32> for Listed<'a> {
    ghost Question = { Asked };

    ghost effects = { λ s. on_list s.answers.now s.items.now };

    ghost question = { λ q. Some q };

    fn get(&self, _alloc: Global, _state: &mut u32, _table: &Txt, _key: Val) -> Result<Val, Break> {
        Err(Break::Stuck)
    }

    fn scan(
        &self,
        _alloc: Global,
        _state: &mut u32,
        _table: &Txt,
        _lo: Val,
        _hi: Val,
    ) -> Result<Val, Break> {
        Err(Break::Stuck)
    }

    fn put(
        &self,
        _alloc: Global,
        _state: &mut u32,
        _table: &Txt,
        _key: Val,
        _value: Val,
    ) -> Result<(), Break> {
        Err(Break::Stuck)
    }

    fn delete(
        &self,
        _alloc: Global,
        _state: &mut u32,
        _table: &Txt,
        _key: Val,
    ) -> Result<(), Break> {
        Err(Break::Stuck)
    }

    fn call(
        &self,
        alloc: Global,
        state: &mut u32,
        name: &Txt,
        count: usize,
        args: Val,
    ) -> Result<Val, Break> {
        match called(self.items, name, count) {
            Some(kind) => ask(alloc, self.answers, state, kind, name.copy()?, args),
            None => Err(Break::Stuck),
        }
    }

    fn spawn(
        &self,
        alloc: Global,
        state: &mut u32,
        name: &Txt,
        count: usize,
        args: Val,
    ) -> Result<Val, Break> {
        match spawned(self.items, name, count) {
            Some(kind) => ask(alloc, self.answers, state, kind, name.copy()?, args),
            None => Err(Break::Stuck),
        }
    }

    fn wait(&self, alloc: Global, state: &mut u32, id: Txt) -> Result<Val, Break> {
        let name = word(alloc, "await")?;
        ask(
            alloc,
            self.answers,
            state,
            AskKind::Await,
            name,
            Val::Text(id),
        )
    }
}
