//! The names in scope.

ghost use Rattle.std.specs.Prelude.{◌≡◌};
ghost use Rattle.fn_tree.specs.Ends.{assigned};
ghost use Rattle.fn_walk.specs.Newest.{IsNewest};

use r3_value::{Txt, Val};

/// The newest binding of a name has the value. Where the name isn't bound nothing changes.
pub fn assign(names: &mut Vec<(Txt, Val)>, name: &Txt, value: Val)
    ensures { names.new.items ≡ assigned names.old.items name.now value }
{
    if let Some(i) = newest(names.as_slice(), name) {
        names[i].1 = value;
    }
}

// Where the newest binding of a name stands.
#[tactic(auto, using(crate::proofs::NameLemmas::newest_other))]
fn newest(names: &[(Txt, Val)], name: &Txt) -> Option<usize>
    ensures { IsNewest names.now name.now result }
{
    let mut rest = names;
    while let Some((last, earlier)) = rest.split_last() {
        if last.0.as_str() == name.as_str() {
            return Some(earlier.len());
        }
        rest = earlier;
    }
    None
}
