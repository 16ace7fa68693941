//! Laws of the order of keys.

ghost use Rattle.std.specs.Prelude.{◌≡◌};
ghost use Rattle.std.specs.Cmp.{IsTotalOrder};
ghost use Rattle.std.specs.FinMap.{IsAntisymmetric};
ghost use Rattle.r3_rows.specs.Keys.{key_cmp};
ghost use Rattle.r3_rows.specs.declared.rows.Key.{Key};

use crate::rows::Key;

/// Keys have one order, in which only equal keys tie, and it is the one that `<` and `cmp` go by.
pub fn order_of_keys()
    ensures total { IsTotalOrder key_cmp }
    ensures exact { IsAntisymmetric key_cmp }
    ensures derived { (a b : Key) → ⟦<Key as Ord>⟧.cmp a b ≡ key_cmp a b }
{}
