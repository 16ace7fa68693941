//! A stack.

ghost use Rattle.std.specs.Prelude.{◌≡◌, ◌∷◌, OnOk, [], MatchOption};
ghost use Rattle.std.specs.Option.{option_copied};
ghost use Rattle.fn_grammar.specs.Trees.{head};

use r3_value::Memory;
use std::alloc::Global;
use std::marker::Model;

/// A stack, which contracts see as the list of what lies on it, the last first.
#[derive(Drop)]
pub struct Stack<T> {
    items: Vec<T>,
}

impl<T> Model for Stack<T> {
    ghost use Rattle.std.specs.Prelude.{List, reverse};
    ghost use Rattle.std.specs.Coded.{coded_list};

    ghost Value = { List T };

    ghost coded = { coded_list T.code };

    ghost view = { λ s. reverse s.items.items };
}

impl<T> Stack<T> {
    pub fn new(alloc: Global) -> Stack<T>
        ensures { result ≡ [] }
    {
        Stack {
            items: Vec::new(alloc),
        }
    }

    /// What lies on top.
    pub fn top(&self) -> Option<&T>
        ensures { option_copied result ≡ head self.now }
    {
        self.items.last()
    }

    /// Takes what lies on top.
    pub fn pop(&mut self) -> Option<T>
        ensures { MatchOption result
            ((self.old ≡ []) × (self.new ≡ [])) (λ x. self.old ≡ x ∷ self.new) }
    {
        self.items.pop()
    }
}

impl<T: Drop> Stack<T> {
    /// Lays one more on top.
    pub fn push(&mut self, item: T) -> Result<(), Memory>
        ensures { OnOk result (self.new ≡ item ∷ self.old) }
    {
        self.items.push(item)?;
        Ok(())
    }
}
