//! The open snapshots, and the versions that none of them reads.

ghost use Rattle.std.specs.Prelude.{◌≡◌, ◌+◌, ◌<◌, ◌≤◌, ℕ, List, None, Some, length, IfOk, OnOk};
ghost use Rattle.std.specs.FinMap.{find};
ghost use Rattle.r3_rows.specs.Keys.{bytes_cmp};
ghost use Rattle.r3_entry.specs.declared.entry.Entry.{Entry};
ghost use Rattle.r3_model.specs.Machine.{Begun, opened, closed};
ghost use Rattle.r3_store.specs.Holds.{Stands as StoreStands};
ghost use Rattle.r3_exec.specs.Discards.{Discards, DiscardsWhenDue};
ghost use Rattle.r3_exec.specs.Runs.{Keeps};

use crate::exec::Exec;
use r3_value::{Memory, Txt};
use std::alloc::Global;

// Versions are discarded once so many entries have been added since the last time.
const VACUUM_AFTER: u32 = 1024;

impl Exec {
    /// The open snapshot of a workflow.
    pub(crate) fn snapshot(&self, id: &Txt) -> Option<u32>
        ensures { (h : List Entry) (begun : Begun) → Keeps self.now h begun → result ≡ find bytes_cmp id.now begun }
    {
        match self.begun.get(id) {
            Some(snap) => Some(*snap),
            None => None,
        }
    }

    /// Opens a snapshot of a workflow that has none: the length.
    pub(crate) fn open(&mut self, alloc: Global, id: &Txt) -> Result<u32, Memory>
        requires { (h : List Entry) × (begun : Begun) × Keeps self.old h begun × (find bytes_cmp id.now begun ≡ None) }
        ensures program { self.new.program ≡ self.old.program }
        ensures gate { self.new.store.gate ≡ self.old.store.gate }
        ensures opened { (h : List Entry) (begun : Begun) → Keeps self.old h begun → find bytes_cmp id.now begun ≡ None →
            IfOk result (λ snap. (snap ≡ length h) × Keeps self.new h (opened id.now snap begun)) }
        ensures discards { OnOk result (DiscardsWhenDue self.old self.new) }
    {
        let snap = self.store.len();
        let id = id.copy()?;
        self.store.hold(snap)?;
        let Ok(_) = self.begun.insert(id, snap) else {
            return Err(Memory);
        };
        Ok(snap)
    }

    // Discards the versions that no open snapshot reads, where enough entries have been added since the last time:
    // it looks at each version that has an older one behind it.
    fn vacuum_when_due(&mut self)
        requires { (h : List Entry) × (begun : Begun) × Keeps self.old h begun }
        ensures program { self.new.program ≡ self.old.program }
        ensures gate { self.new.store.gate ≡ self.old.store.gate }
        ensures keeps { (h : List Entry) (begun : Begun) → Keeps self.old h begun → Keeps self.new h begun }
        ensures due { (h : List Entry) → StoreStands self.old.store h → self.old.vacuumed + 1024 ≤ length h → Discards self.old self.new }
        ensures not_due { (h : List Entry) → StoreStands self.old.store h → length h < self.old.vacuumed + 1024 → self.new ≡ self.old }
    {
        let len = self.store.len();
        if len - self.vacuumed >= VACUUM_AFTER {
            self.store.vacuum();
            self.vacuumed = len;
        }
    }

    /// Closes the open snapshot of a workflow, where it has one. It takes no memory.
    ///
    /// What the other open snapshots read stays, and so does what is read at the length.
    pub(crate) fn close(&mut self, id: &Txt)
        requires { (h : List Entry) × (begun : Begun) × Keeps self.old h begun }
        ensures program { self.new.program ≡ self.old.program }
        ensures gate { self.new.store.gate ≡ self.old.store.gate }
        ensures closed { (h : List Entry) (begun : Begun) → Keeps self.old h begun → Keeps self.new h (closed id.now begun) }

        // Versions are discarded with it, where 1,024 entries or more were added since the last time.
        ensures discards { DiscardsWhenDue self.old self.new }
    {
        match self.begun.remove(id) {
            Some(snap) => {
                self.store.release(snap);
                self.vacuum_when_due();
            }
            None => {}
        }
    }
}
