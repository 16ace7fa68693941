//! What `get`, `scan`, `put`, `delete` and the asks do.

ghost use Rattle.std.specs.Prelude.{◌≡◌, ℕ, List, Option};
ghost use Rattle.fn_tree.specs.Ends.{Effects};
ghost use Rattle.fn_tree.specs.Evaluation.{Binding};
ghost use Rattle.fn_tree.specs.declared.flow.Request.{Request as Asked};
ghost use Rattle.fn_walk.specs.Runs.{RunsAs, place_at};

use crate::broken::Break;
use r3_value::{Txt, Val};
use std::alloc::Global;

/// What a kind of body can do, on a state that it changes. None of it sees the bindings, the units or
/// the steps. Keys, bounds and arguments are values that may be of a wrong kind.
pub trait Acts<S> {
    /// What is asked.
    ghost Question: { Type 0 };

    /// What each of these does.
    ghost effects: { Self → Effects Question S };

    /// What a request asks, if it is one of this kind of body.
    ghost question: { Asked → Option Question };

    /// The row at a key, or Null.
    fn get(&self, alloc: Global, state: &mut S, table: &Txt, key: Val) -> Result<Val, Break>
        ensures { (env : List Binding) (units cost : ℕ) → RunsAs question result ((effects self.now).get table.now key (place_at env state.old units cost)) (place_at env state.new units cost) };

    /// The rows from `lo` and below `hi`, as a list of pairs.
    fn scan(
        &self,
        alloc: Global,
        state: &mut S,
        table: &Txt,
        lo: Val,
        hi: Val,
    ) -> Result<Val, Break>
        ensures { (env : List Binding) (units cost : ℕ) → RunsAs question result ((effects self.now).scan table.now lo hi (place_at env state.old units cost)) (place_at env state.new units cost) };

    fn put(
        &self,
        alloc: Global,
        state: &mut S,
        table: &Txt,
        key: Val,
        value: Val,
    ) -> Result<(), Break>
        ensures { (env : List Binding) (units cost : ℕ) → RunsAs question result ((effects self.now).put table.now key value (place_at env state.old units cost)) (place_at env state.new units cost) };

    fn delete(&self, alloc: Global, state: &mut S, table: &Txt, key: Val) -> Result<(), Break>
        ensures { (env : List Binding) (units cost : ℕ) → RunsAs question result ((effects self.now).delete table.now key (place_at env state.old units cost)) (place_at env state.new units cost) };

    /// Calls a function with so many arguments, which are one list value.
    fn call(
        &self,
        alloc: Global,
        state: &mut S,
        name: &Txt,
        count: usize,
        args: Val,
    ) -> Result<Val, Break>
        ensures { (env : List Binding) (units cost : ℕ) → RunsAs question result ((effects self.now).call name.now count args (place_at env state.old units cost)) (place_at env state.new units cost) };

    /// Starts a child.
    fn spawn(
        &self,
        alloc: Global,
        state: &mut S,
        name: &Txt,
        count: usize,
        args: Val,
    ) -> Result<Val, Break>
        ensures { (env : List Binding) (units cost : ℕ) → RunsAs question result ((effects self.now).spawn name.now count args (place_at env state.old units cost)) (place_at env state.new units cost) };

    /// Waits for a workflow's outcome.
    fn wait(&self, alloc: Global, state: &mut S, id: Txt) -> Result<Val, Break>
        ensures { (env : List Binding) (units cost : ℕ) → RunsAs question result ((effects self.now).await id (place_at env state.old units cost)) (place_at env state.new units cost) };
}
