//! Texts in the order of their bytes.

ghost use Rattle.std.specs.Prelude.{◌≡◌};
ghost use Rattle.std.specs.Ordering.{is_eq};
ghost use Rattle.r3_rows.specs.Keys.{bytes_cmp};
ghost use Rattle.r3_entry.specs.History.{is_between};

use std::cmp::Ordering;

/// Whether both are the same text.
pub fn is_called(name: &str, other: &str) -> bool
    ensures { result ≡ is_eq (bytes_cmp name.now other.now) }
{
    matches!(name.cmp(other), Ordering::Equal)
}

/// Whether the key comes from `lo` on and before `hi`.
pub fn is_between(lo: &str, hi: &str, key: &str) -> bool
    ensures { result ≡ is_between lo.now hi.now key.now }
{
    !matches!(lo.cmp(key), Ordering::Greater) && matches!(key.cmp(hi), Ordering::Less)
}
