//! Texts of at most 4,091 bytes.

ghost use Rattle.std.specs.Prelude.{◌≡◌, ◌≤◌, ◌<◌, ◌+◌, length, IfOk, IfErr, IsErrOf, ◌⊎◌};
ghost use Rattle.r3_value.specs.declared.fault.ValFault.TheVariants as faults;

use crate::fault::{Memory, ValFault};
use std::alloc::Global;
use std::cmp::Ordering;
use std::marker::Model;

const MAX_BYTES: usize = 4091;

/// A text of at most 4,091 bytes, in UTF-8. A contract sees its bytes, and texts are ordered by them.
#[derive(Debug, Drop)]
pub struct Txt {
    text: String,
}

impl Model for Txt {
    ghost use Rattle.std.specs.Prelude.{ℕ, List, length, ◌≤◌, string_bytes, IsUtf8};

    ghost Value = { List ℕ };

    ghost view = { λ t. string_bytes t.text };

    ghost invariant = { λ t. length (string_bytes t.text) ≤ 4091 };
}

impl Txt {
    /// A copy of the text. Of more than 4,091 bytes the fault is TooLarge with the weight that a
    /// value of this text would have: 5 and its bytes.
    pub fn new(alloc: Global, text: &str) -> Result<Txt, ValFault>
        ensures made { IfOk result (λ t. (t ≡ text.now) × (length text.now ≤ 4091)) }
        ensures too_large { IfErr result (λ e. (e ≡ faults.Memory)
            ⊎ ((e ≡ faults.TooLarge (5 + length text.now)) × (4096 < 5 + length text.now))) }

        // A text that is too long is refused as such, whether there is memory or not.
        ensures refused { 4096 < 5 + length text.now → IsErrOf result (faults.TooLarge (5 + length text.now)) }
    {
        if text.len() > MAX_BYTES {
            return Err(ValFault::TooLarge(5 + text.len() as u128));
        }
        match String::from_str(alloc, text) {
            Ok(text) => Ok(Txt { text }),
            Err(_) => Err(ValFault::Memory),
        }
    }

    /// The text.
    pub fn as_str(&self) -> &str
        ensures text { result.now ≡ self.now }
        ensures short { length self.now ≤ 4091 }
    {
        self.text.as_str()
    }

    /// A copy, or Memory.
    pub fn copy(&self) -> Result<Txt, Memory>
        ensures { IfOk result (λ t. t ≡ self.now) }
    {
        let text = self.text.clone()?;
        Ok(Txt { text })
    }
}

impl PartialEq for Txt {
    ghost use Rattle.std.specs.Prelude.{◌==◌};
    ghost use Rattle.std.specs.Cmp.Lexicographic.{pointwise};
    ghost use Rattle.std.specs.Cmp.{partial_equiv_from_equiv};
    ghost use Rattle.std.proofs.lemmas.Cmp.{nat_list_eq_equiv};

    ghost eq = { pointwise ◌==◌ };

    ghost laws = { partial_equiv_from_equiv nat_list_eq_equiv };

    fn eq(&self, other: &Txt) -> bool {
        self.as_str() == other.as_str()
    }
}

impl Eq for Txt {
    ghost use Rattle.std.proofs.lemmas.Cmp.{nat_list_eq_equiv};

    ghost laws = { nat_list_eq_equiv };
}

impl Ord for Txt {
    ghost use Rattle.std.specs.Ordering.{nat_cmp};
    ghost use Rattle.std.specs.Cmp.Lexicographic.{slice_cmp};
    ghost use Rattle.std.specs.Cmp.Rules.{comparing};
    ghost use Rattle.std.proofs.Common.{rules};

    ghost cmp = { slice_cmp nat_cmp };

    ghost total = { Prim.search (comparing, rules) };

    ghost matches_partial_cmp = { Prim.search (comparing, rules) };

    ghost matches_eq = { Prim.search (comparing, rules) };

    fn cmp(&self, other: &Txt) -> Ordering {
        self.as_str().cmp(other.as_str())
    }
}

impl PartialOrd for Txt {
    ghost use Rattle.std.specs.Ordering.{nat_cmp, as_partial_cmp};
    ghost use Rattle.std.specs.Cmp.{partial_order_from_own_ties};
    ghost use Rattle.std.specs.Cmp.Lexicographic.{slice_cmp};
    ghost use Rattle.std.specs.Cmp.Rules.{comparing};
    ghost use Rattle.std.proofs.Common.{rules};

    ghost partial_cmp = { as_partial_cmp (slice_cmp nat_cmp) };

    ghost laws = { partial_order_from_own_ties (Prim.search (comparing, rules)) (Prim.search (comparing, rules)) };

    fn partial_cmp(&self, other: &Txt) -> Option<Ordering> {
        Some(self.cmp(other))
    }
}
