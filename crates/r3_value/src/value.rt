//! Values within their limits.

ghost use Rattle.std.specs.Prelude.{◌≡◌, ◌≤◌, ◌<◌, ◌+◌, length, IfOk, IfErr, IsErrOf, ◌⊎◌, IsTrue, ◌↔◌};

use crate::fault::{Memory, ValFault};
use crate::text::Txt;
use std::alloc::Global;
use std::marker::Model;

const MAX_WEIGHT: u32 = 4096;

const MAX_DEPTH: u32 = 16;

/// A value. Its weight is at most 4,096 bytes, and its lists nest at most 16 deep.
#[cycle(val)]
#[derive(Debug, Drop)]
pub enum Val {
    Null,
    Bool(bool),
    Int(i64),
    /// Made by `Val::text`, or from a `Txt` that was made before.
    Text(Txt),
    /// Made by `Val::list`.
    List(Vals),
}

/// The values of a list. Only `Val::list` and `copy` make it, so the list keeps the limits of a value.
#[cycle(val)]
#[derive(Debug, Drop)]
pub struct Vals {
    items: Vec<Val>,
    weight: u32,
    depth: u32,
}

impl Model for Vals {
    ghost use Rattle.r3_value.specs.Value.{Items};
    ghost use Rattle.r3_value.specs.Code.{items_code};

    ghost Value = { Items };

    ghost coded = { items_code };

    ghost use Rattle.r3_value.specs.Value.{depths};
    ghost use Rattle.r3_value.specs.View.{items_of, IsKept};

    ghost view = { λ a. items_of a.items.items };

    ghost invariant = { λ a. IsKept a.items.items a.weight a.depth };

    ghost size = { depths };

    ghost use Rattle.r3_value.specs.Falls.{depth_le};

    ghost size_decreases = { λ a h. depth_le a.items.items };
}

impl Vals {
    ghost use Rattle.r3_value.specs.Value.{list, IsValue};
    ghost use Rattle.r3_value.specs.View.{items_of, vals_of};

    /// The values, in order.
    pub fn items(&self) -> &[Val]
        ensures items { items_of result.now ≡ self.now }
        ensures values { vals_of self.now ≡ result.now }
        ensures value { IsValue (list self.now) }
        ensures few { length result.now ≤ 4091 }
    {
        self.items.as_slice()
    }

    /// The values, which are taken out.
    pub fn into_vec(self) -> Vec<Val>
        ensures { result.items ≡ vals_of self }
    {
        let Vals { items, .. } = self;
        items
    }
}

impl Val {
    ghost use Rattle.r3_value.specs.Value.{weight, depth, list, IsValue};
    ghost use Rattle.r3_value.specs.View.{value_of};
    ghost use Rattle.r3_value.specs.Made.{made_list};

    /// A text as a value. Of more than 4,091 bytes the fault is TooLarge with the weight: 5 and the
    /// bytes of the text.
    pub fn text(alloc: Global, text: &str) -> Result<Val, ValFault>
        ensures made { IfOk result (λ v. (v ≡ Val.Text text.now) × (length text.now ≤ 4091)) }
        ensures fault { IfErr result (λ e. (e ≡ ValFault.Memory)
            ⊎ ((e ≡ ValFault.TooLarge (5 + length text.now)) × (4096 < 5 + length text.now))) }

        // A text that is too long is refused as such, whether there is memory or not.
        ensures refused { 4096 < 5 + length text.now → IsErrOf result (ValFault.TooLarge (5 + length text.now)) }
    {
        match Txt::new(alloc, text) {
            Ok(text) => Ok(Val::Text(text)),
            Err(fault) => Err(fault),
        }
    }

    /// A list of these values. It takes no memory and never answers Memory. TooLarge carries the
    /// weight of the list where that exceeds 4,096. Else TooDeep comes where its depth exceeds 16.
    pub fn list(items: Vec<Val>) -> Result<Val, ValFault>
        ensures { result ≡ made_list items.items }
    {
        let mut weight: u128 = 5;
        let mut depth = 0;
        for item in &items {
            weight += u128::from(item.weight());
            let below = item.depth();
            if below > depth {
                depth = below;
            }
        }
        if weight > u128::from(MAX_WEIGHT) {
            return Err(ValFault::TooLarge(weight));
        }
        depth += 1;
        if depth > MAX_DEPTH {
            return Err(ValFault::TooDeep);
        }
        Ok(Val::List(Vals {
            items,
            weight: weight as u32,
            depth,
        }))
    }

    /// How many bytes it takes where it is stored: 1 for Null, 2 for a Bool, 9 for an Int, 5 and its
    /// bytes for a text, and for a list 5 and what its values take. At most 4,096.
    pub fn weight(&self) -> u32
        ensures weight { result ≡ weight (value_of self.now) }
        ensures value { IsValue (value_of self.now) }
    {
        match self {
            Val::Null => 1,
            Val::Bool(_) => 2,
            Val::Int(n) => {
                let _n = *n;
                9
            }
            Val::Text(text) => 5 + text.as_str().len() as u32,
            Val::List(values) => values.weight,
        }
    }

    /// How deep its lists nest: 0 for what is no list, 1 for the empty list. At most 16.
    pub fn depth(&self) -> u32
        ensures depth { result ≡ depth (value_of self.now) }
        ensures shallow { result ≤ 16 }
    {
        match self {
            Val::List(values) => values.depth,
            _ => 0,
        }
    }
}

impl Val {
    /// A copy, or Memory.
    #[cycle(copy)]
    pub fn copy(&self) -> Result<Val, Memory>
        ensures { IfOk result (λ v. v ≡ self.now) }
    {
        match self {
            Val::Null => Ok(Val::Null),
            Val::Bool(b) => Ok(Val::Bool(*b)),
            Val::Int(n) => Ok(Val::Int(*n)),
            Val::Text(text) => Ok(Val::Text(text.copy()?)),
            Val::List(values) => Ok(Val::List(values.copy()?)),
        }
    }
}

impl Vals {
    /// A copy, or Memory.
    #[cycle(copy)]
    pub fn copy(&self) -> Result<Vals, Memory>
        ensures { IfOk result (λ vs. vs ≡ self.now) }
    {
        let mut items = Vec::with_capacity(*self.items.allocator(), self.items.len())?;
        for item in &self.items {
            items.push(item.copy()?)?;
        }
        Ok(Vals {
            items,
            weight: self.weight,
            depth: self.depth,
        })
    }
}

impl Val {
    /// Whether they are equal, as `==` tells too.
    #[cycle(same)]
    pub fn same(&self, other: &Val) -> bool
        ensures { IsTrue result ↔ (self.now ≡ other.now) }
    {
        match self {
            Val::Null => matches!(other, Val::Null),
            Val::Bool(a) => match other {
                Val::Bool(b) => *a == *b,
                _ => false,
            },
            Val::Int(a) => match other {
                Val::Int(b) => *a == *b,
                _ => false,
            },
            Val::Text(a) => match other {
                Val::Text(b) => a.as_str() == b.as_str(),
                _ => false,
            },
            Val::List(a) => match other {
                Val::List(b) => a.same(b),
                _ => false,
            },
        }
    }
}

impl Vals {
    /// Whether they are equal, as `==` tells too.
    #[cycle(same)]
    pub fn same(&self, other: &Vals) -> bool
        ensures { IsTrue result ↔ (self.now ≡ other.now) }
    {
        if self.items.len() != other.items.len() {
            return false;
        }
        for i in 0..self.items.len() {
            if !self.items[i].same(&other.items[i]) {
                return false;
            }
        }
        true
    }
}

/// What a call answers.
#[derive(Debug, Drop, PartialEq, Eq)]
pub enum Outcome {
    /// It came to its end with this value.
    Value(Val),
    /// It failed with this word.
    Failure(Txt),
}

impl Outcome {
    /// A copy, or Memory.
    pub fn copy(&self) -> Result<Outcome, Memory>
        ensures { IfOk result (λ o. o ≡ self.now) }
    {
        match self {
            Outcome::Value(value) => Ok(Outcome::Value(value.copy()?)),
            Outcome::Failure(word) => Ok(Outcome::Failure(word.copy()?)),
        }
    }

    /// Whether they are equal, as `==` tells too.
    pub fn same(&self, other: &Outcome) -> bool
        ensures { IsTrue result ↔ (self.now ≡ other.now) }
    {
        match self {
            Outcome::Value(a) => match other {
                Outcome::Value(b) => a.same(b),
                _ => false,
            },
            Outcome::Failure(a) => match other {
                Outcome::Failure(b) => a.as_str() == b.as_str(),
                _ => false,
            },
        }
    }
}

impl PartialEq for Val {
    ghost use Rattle.std.specs.Cmp.{partial_equiv_from_equiv};
    ghost use Rattle.r3_value.specs.SameLaws.{same_val, same_val-equivalence};

    ghost eq = { same_val };

    ghost laws = { partial_equiv_from_equiv same_val-equivalence };

    fn eq(&self, other: &Val) -> bool {
        self.same(other)
    }
}

impl Eq for Val {
    ghost use Rattle.r3_value.specs.SameLaws.{same_val-equivalence};

    ghost laws = { same_val-equivalence };
}

impl PartialEq for Vals {
    ghost use Rattle.std.specs.Cmp.{partial_equiv_from_equiv};
    ghost use Rattle.r3_value.specs.Same.{same_items};
    ghost use Rattle.r3_value.specs.SameLaws.{same_items-equivalence};

    ghost eq = { same_items };

    ghost laws = { partial_equiv_from_equiv same_items-equivalence };

    fn eq(&self, other: &Vals) -> bool {
        self.same(other)
    }
}

impl Eq for Vals {
    ghost use Rattle.r3_value.specs.SameLaws.{same_items-equivalence};

    ghost laws = { same_items-equivalence };
}
