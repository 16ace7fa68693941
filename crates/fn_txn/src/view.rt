//! The map on which a transaction's body runs.

ghost use Rattle.std.specs.Prelude.{◌≡◌, ◌≤◌, IfOk, MatchOption, length, map};
ghost use Rattle.std.specs.Option.{option_map};
ghost use Rattle.fn_tree.specs.Writes.{Versions};

use r3_value::{Memory, Txt, Val};

/// A map with versions at a snapshot. A version is the number of the last entry up to the snapshot that
/// wrote the key, a deletion counting, or 0.
pub trait View {
    /// The map.
    ghost versions: { Self → Versions };

    /// The value of a present key, with its version.
    fn cell(&self, table: &str, key: &str) -> Result<Option<(&Val, u32)>, Memory>
        ensures value { IfOk result (λ c. option_map (λ r. r.0.now) c ≡ (versions self.now).cell table.now key.now) }
        ensures version { IfOk result (λ c. MatchOption c (Unit {0}) (λ r. r.1 ≡ (versions self.now).version table.now key.now)) };

    /// The version of a key, present or not.
    fn version(&self, table: &str, key: &str) -> Result<u32, Memory>
        ensures { IfOk result (λ n. n ≡ (versions self.now).version table.now key.now) };

    /// The present keys from `lo` and below `hi` in byte order, with their versions.
    fn keys(&self, table: &str, lo: &str, hi: &str) -> Result<Vec<(Txt, u32)>, Memory>
        requires lo { length lo.now ≤ 256 }
        requires hi { length hi.now ≤ 256 }
        ensures { IfOk result (λ ks. ks.items ≡ map (λ k. (k, (versions self.now).version table.now k)) ((versions self.now).keys table.now lo.now hi.now)) };
}
