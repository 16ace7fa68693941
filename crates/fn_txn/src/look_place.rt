//! The places that a body looks at.

ghost use Rattle.std.specs.Prelude.{◌≡◌, IfOk};
ghost use Rattle.fn_txn.specs.declared.look_place.LookPlace.{LookPlace as P};
ghost use Rattle.fn_txn.specs.LookPlaces.{place_cmp, place_of};

use fn_tree::look::Look;
use r3_value::{Memory, Txt};

/// The place of a look, without what was found there.
#[derive(Drop, PartialEq, Eq, PartialOrd, Ord)]
pub enum LookPlace {
    At { table: Txt, key: Txt },
    Range { table: Txt, lo: Txt, hi: Txt },
}

/// Where a look is.
pub fn place(look: &Look) -> Result<LookPlace, Memory>
    ensures { IfOk result (λ p. p ≡ place_of look.now) }
{
    match look {
        Look::At {
            table,
            key,
            version: _,
        } => at(table, key),
        Look::Range {
            table,
            lo,
            hi,
            keys: _,
        } => range(table, lo, hi),
    }
}

fn at(table: &Txt, key: &Txt) -> Result<LookPlace, Memory>
    ensures { IfOk result (λ p. p ≡ P.At table.now key.now) }
{
    let table = table.copy()?;
    let key = key.copy()?;
    Ok(LookPlace::At { table, key })
}

fn range(table: &Txt, lo: &Txt, hi: &Txt) -> Result<LookPlace, Memory>
    ensures { IfOk result (λ p. p ≡ P.Range table.now lo.now hi.now) }
{
    let table = table.copy()?;
    let lo = lo.copy()?;
    let hi = hi.copy()?;
    Ok(LookPlace::Range { table, lo, hi })
}

/// Keys stand before ranges, and both are ordered by their texts.
pub fn place_order()
    ensures { (a b : P) → ⟦<LookPlace as Ord>⟧.cmp a b ≡ place_cmp a b }
{}
