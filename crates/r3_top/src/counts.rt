//! How many items of each kind a program has.

ghost use Rattle.std.specs.Prelude.{◌≡◌, IfOk, count_by};
ghost use Rattle.serde_json.specs.View.{view};
ghost use Rattle.r3_json.specs.Lines.{line_of};
ghost use Rattle.r3_top.specs.Counts.{is_of, counts_data};

use fn_tree::checked::Checked;
use fn_tree::program::Item;
use r3_json::line;
use r3_value::Memory;
use serde_json::{Value, json};
use std::alloc::{AllocError, Global};

/// What an item is.
#[derive(Clone, Copy)]
pub enum ItemKind {
    Flow,
    Helper,
    Outside,
    Queue,
    Table,
    Txn,
}

fn is_of(kind: ItemKind, item: &Item) -> bool
    ensures { result ≡ is_of kind item.now }
{
    match (kind, item) {
        (ItemKind::Flow, Item::Flow { .. }) => true,
        (ItemKind::Helper, Item::Helper { .. }) => true,
        (ItemKind::Outside, Item::Outside { .. }) => true,
        (ItemKind::Queue, Item::Queue { .. }) => true,
        (ItemKind::Table, Item::Table { .. }) => true,
        (ItemKind::Txn, Item::Txn { .. }) => true,
        _ => false,
    }
}

fn count(items: &[Item], kind: ItemKind) -> usize
    ensures { result ≡ count_by (is_of kind) items.now }
{
    items.iter().filter(|item| is_of(kind, item)).count()
}

fn counts_json(alloc: Global, items: &[Item]) -> Result<Value, AllocError>
    ensures { IfOk result (λ json. view json ≡ counts_data items.now) }
{
    let flows = count(items, ItemKind::Flow);
    let helpers = count(items, ItemKind::Helper);
    let outsides = count(items, ItemKind::Outside);
    let queues = count(items, ItemKind::Queue);
    let tables = count(items, ItemKind::Table);
    let txns = count(items, ItemKind::Txn);
    json!(in alloc; {"flows": flows, "helpers": helpers, "outsides": outsides, "queues": queues, "tables": tables, "txns": txns})
}

/// Compact JSON and a newline.
pub fn counts_line(alloc: Global, program: &Checked) -> Result<Vec<u8>, Memory>
    ensures { IfOk result (λ text. text.items ≡ line_of (counts_data program.now)) }
{
    let json = counts_json(alloc, program.program().items.as_slice())?;
    line(alloc, &json)
}
