//! The order of keys.

ghost use Rattle.std.specs.Prelude.{◌≡◌};
ghost use Rattle.r3_rows.specs.Keys.{key_cmp};

use crate::rows::Key;
use std::cmp::Ordering;

/// Compares two keys: by kind, users' rows first, then workflows, then steps; then by the fields, texts by
/// their bytes.
pub fn compare(a: &Key, b: &Key) -> Ordering
    ensures { result ≡ key_cmp a.now b.now }
{
    a.cmp(b)
}
