//! The names in scope.

ghost use Rattle.std.specs.Prelude.{◌≡◌, [], ◌∷◌, ◌++◌, length, take, true, false, IfOk, OnOk};
ghost use Rattle.fn_tree.specs.Soundness.{contains, is_distinct};
ghost use Rattle.fn_check.specs.Known.{Keeps};

use r3_value::{Memory, Txt};
use std::alloc::Global;
use std::collections::BTreeSet;
use std::marker::Model;

/// The names in scope, no two of them the same. A contract sees them as a list, the newest last.
#[derive(Drop)]
pub struct Variables {
    names: Vec<Txt>,
    // The same names, for look-ups.
    known: BTreeSet<Txt>,
}

impl Model for Variables {
    ghost use Rattle.fn_tree.specs.Soundness.{Scope};
    ghost use Rattle.fn_check.specs.Known.{Keeps};

    ghost Value = { Scope };

    ghost view = { λ v. v.names.items };

    ghost invariant = { λ v. Keeps v.known v.names.items };
}

impl Variables {
    #[tactic(auto, using(crate::proofs::KnownLemmas::known_none))]
    fn new(alloc: Global) -> Variables
        ensures { result ≡ [] }
    {
        Variables {
            names: Vec::new(alloc),
            known: BTreeSet::new(alloc),
        }
    }

    /// The names of an item's parameters.
    #[tactic(auto, using(crate::proofs::KnownLemmas::distinct_at))]
    pub fn of(alloc: Global, params: &[Txt]) -> Result<Variables, Memory>
        requires distinct { is_distinct params.now ≡ true }
        ensures { IfOk result (λ v. v ≡ params.now) }
    {
        let mut scope = Variables::new(alloc);
        for param in params {
            scope.bind(param)?;
        }
        Ok(scope)
    }

    #[tactic(auto, using(crate::proofs::KnownLemmas::known_is))]
    pub fn contains(&self, name: &Txt) -> bool
        ensures { result ≡ contains self.now name.now }
    {
        self.known.contains(name)
    }

    /// How many names are in scope.
    pub fn len(&self) -> usize
        ensures { result ≡ length self.now }
    {
        self.names.len()
    }

    /// One name more.
    #[tactic(auto, using(crate::proofs::KnownLemmas::known_unchanged))]
    pub fn bind(&mut self, name: &Txt) -> Result<(), Memory>
        requires new { contains self.old name.now ≡ false }
        ensures { OnOk result (self.new ≡ self.old ++ name.now ∷ []) }
    {
        let key = name.copy()?;
        let outer = self.names.len();
        self.names.push(name.copy()?)?;
        match self.known.insert(key) {
            Ok(_) => Ok(()),
            Err(_) => {
                self.names.truncate(outer);
                Err(Memory)
            }
        }
    }

    /// The block ends before which so many names were in scope.
    pub fn cut(&mut self, len: usize)
        ensures { self.new ≡ take len self.old }
    {
        forget(&mut self.names, &mut self.known, len);
    }
}

// Only the first names stay.
fn forget(names: &mut Vec<Txt>, known: &mut BTreeSet<Txt>, len: usize)
    requires before { Keeps known.old names.old.items }
    ensures first { names.new.items ≡ take len names.old.items }
    ensures after { Keeps known.new names.new.items }
{
    while names.len() > len {
        match names.pop() {
            Some(name) => known.remove(&name),
            None => break,
        };
    }
}

pub fn stands_in(names: &[Txt], name: &Txt) -> bool
    ensures { result ≡ contains names.now name.now }
{
    for x in names {
        if x.as_str() == name.as_str() {
            return true;
        }
    }
    false
}
