//! The open snapshots.

ghost use Rattle.std.specs.Prelude.{◌≡◌, Ok, Err, OnOk, OnErr};
ghost use Rattle.std.specs.FinMap.{find};
ghost use Rattle.r3_rows.specs.Keys.{bytes_cmp};
ghost use Rattle.r3_model.specs.Machine.{closed, opened};

use r3_value::{Memory, Txt};
use std::collections::BTreeMap;

/// The open snapshot of a workflow.
pub fn snapshot_of(begun: &BTreeMap<Txt, u32>, id: &Txt) -> Option<u32>
    ensures { result ≡ find bytes_cmp id.now begun.now.entries }
{
    match begun.get(id) {
        Some(snap) => Some(*snap),
        None => None,
    }
}

/// Opens a snapshot of a workflow.
pub fn open(begun: &mut BTreeMap<Txt, u32>, id: Txt, snap: u32) -> Result<(), Memory>
    ensures ok { OnOk result (begun.new.entries ≡ opened id snap begun.old.entries) }
    ensures err { OnErr result (begun.new.entries ≡ begun.old.entries) }
{
    begun.insert(id, snap)?;
    Ok(())
}

/// Closes the open snapshot of a workflow, where it has one.
pub fn close(begun: &mut BTreeMap<Txt, u32>, id: &Txt)
    ensures { begun.new.entries ≡ closed id.now begun.old.entries }
{
    // It tells that the map is in order.
    let _count = begun.len();
    begun.remove(id);
}
