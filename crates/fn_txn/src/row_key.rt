//! A key of a table.

ghost use Rattle.std.specs.Prelude.{◌≡◌};
ghost use Rattle.fn_txn.specs.RowKeys.{row_cmp};
ghost use Rattle.fn_txn.specs.declared.row_key.RowKey.{RowKey};

use r3_value::Txt;

/// A key of a table. Keys are ordered by table, then by key.
#[derive(Drop, PartialEq, Eq, PartialOrd, Ord)]
pub struct RowKey {
    pub table: Txt,
    pub key: Txt,
}

/// Both are ordered by their bytes.
pub fn row_order()
    ensures { (a b : RowKey) → ⟦<RowKey as Ord>⟧.cmp a b ≡ row_cmp a b }
{}
