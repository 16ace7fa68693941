//! The items of a program, by their names.

ghost use Rattle.std.specs.Option.{option_copied};
ghost use Rattle.std.specs.Prelude.{◌≡◌, length, take, IfOk, OnOk};
ghost use Rattle.fn_tree.specs.Soundness.{is_some, name_of, params_of, is_distinct};
ghost use Rattle.fn_check.specs.Places.{Indexes, Adds};
ghost use Rattle.fn_check.specs.Uses.{declared};

use crate::variables::stands_in;
use fn_tree::program::Item;
use r3_value::{Memory, Txt};
use sqlite_items::at;
use std::alloc::Global;
use std::collections::BTreeMap;
use std::marker::Model;

/// The items of a program. A contract sees the list of them.
#[derive(Drop)]
pub struct Declarations<'a> {
    items: &'a [Item],
    // The place of the first item of each name, from 0.
    places: BTreeMap<Txt, usize>,
}

impl<'a> Model for Declarations<'a> {
    ghost use Rattle.std.specs.Prelude.{List};
    ghost use Rattle.fn_tree.specs.declared.program.Item.{Item};
    ghost use Rattle.std.specs.Coded.{codes};
    ghost use Rattle.fn_tree.specs.contracts.expr.Expr as expr;
    ghost use Rattle.fn_tree.specs.contracts.stmt.Stmt as stmt;

    ghost Value = { List Item };

    ghost coded = { Prim.hlevel (codes, expr.the_row.coded, stmt.the_row.coded) };

    ghost use Rattle.fn_check.specs.Places.{Indexes};

    ghost view = { λ d. d.items.now };

    ghost invariant = { λ d. Indexes d.places d.items.now };
}

impl<'a> Declarations<'a> {
    pub fn of(alloc: Global, items: &'a [Item]) -> Result<Declarations<'a>, Memory>
        ensures { IfOk result (λ d. d ≡ items.now) }
    {
        let places = places_of(alloc, items)?;
        Ok(Declarations { items, places })
    }

    /// How many items there are.
    pub fn count(&self) -> usize
        ensures { result ≡ length self.now }
    {
        self.items.len()
    }

    /// The item that a name means: the first one of the name.
    #[tactic(auto, using(crate::proofs::PlaceLemmas::declared_none, crate::proofs::PlaceLemmas::found_some))]
    pub fn item(&self, name: &Txt) -> Option<&'a Item>
        ensures { option_copied result ≡ declared self.now name.now }
    {
        match self.places.get(name) {
            Some(place) => at(self.items, *place),
            None => None,
        }
    }

    /// Whether one of the first `count` items has the name.
    #[tactic(auto, using(crate::proofs::PlaceLemmas::early_none, crate::proofs::PlaceLemmas::early_some))]
    pub fn is_before(&self, name: &Txt, count: usize) -> bool
        ensures { result ≡ is_some (declared (take count self.now) name.now) }
    {
        match self.places.get(name) {
            Some(at) => *at < count,
            None => false,
        }
    }
}

#[tactic(auto, using(crate::proofs::PlaceLemmas::indexes_none))]
fn places_of(alloc: Global, items: &[Item]) -> Result<BTreeMap<Txt, usize>, Memory>
    ensures { IfOk result (λ places. Indexes places items.now) }
{
    let mut places = BTreeMap::new(alloc);
    let mut at = 0;
    for item in items {
        add(&mut places, name_of(item), at)?;
        at += 1;
    }
    Ok(places)
}

// The place counts unless the name has one.
#[tactic(auto, using(crate::proofs::PlaceLemmas::adds_new, crate::proofs::PlaceLemmas::adds_old))]
fn add(places: &mut BTreeMap<Txt, usize>, name: &Txt, at: usize) -> Result<(), Memory>
    ensures { OnOk result (Adds places.old places.new name.now at) }
{
    if !places.contains_key(name) {
        places.insert(name.copy()?, at)?;
    }
    Ok(())
}

pub fn name_of(item: &Item) -> &Txt
    ensures { result.now ≡ name_of item.now }
{
    match item {
        Item::Table { name } => name,
        Item::Queue { name, .. } => name,
        Item::Outside { name, .. } => name,
        Item::Helper { name, .. } => name,
        Item::Txn { name, .. } => name,
        Item::Flow { name, .. } => name,
    }
}

pub fn params_of(item: &Item) -> &[Txt]
    ensures { result.now ≡ params_of item.now }
{
    match item {
        Item::Table { .. } => &[],
        Item::Queue { .. } => &[],
        Item::Outside { params, .. } => params.as_slice(),
        Item::Helper { params, .. } => params.as_slice(),
        Item::Txn { params, .. } => params.as_slice(),
        Item::Flow { params, .. } => params.as_slice(),
    }
}

/// Whether no two names are the same.
pub fn are_distinct(names: &[Txt]) -> bool
    ensures { result ≡ is_distinct names.now }
{
    let mut rest = names;
    while let Some((name, later)) = rest.split_first() {
        if stands_in(later, name) {
            return false;
        }
        rest = later;
    }
    true
}
