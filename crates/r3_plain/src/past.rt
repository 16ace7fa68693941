//! A list of entries, as a history that can be read.

use crate::rows::{rows_at, seen_in};
use crate::writes::last_write;
use r3_entry::Entry;
use r3_past::Past;
use r3_rows::{Cell, Key};
use r3_value::{Memory, Txt};
use std::alloc::Global;

/// The entries of a history, which are looked through whenever something is asked of it.
#[derive(Drop)]
pub struct Kept<'a> {
    pub(crate) history: &'a [Entry],
    count: u32,
}

impl<'a> Kept<'a> {
    ghost use Rattle.std.specs.Prelude.{List};
    ghost use Rattle.r3_entry.specs.declared.entry.Entry.{Entry as E};
    ghost use Rattle.r3_entry.specs.Formed.{IsFormed};
    ghost use Rattle.r3_plain.specs.Kept.{Stands};

    /// A well-formed history.
    pub fn of(history: &'a [Entry]) -> Kept<'a>
        requires { IsFormed history.now }
        ensures { Stands result history.now }
    {
        Kept {
            history,
            count: history.len() as u32,
        }
    }
}

impl<'a> Past for Kept<'a> {
    ghost use Rattle.r3_entry.specs.History.{map_at};
    ghost use Rattle.r3_plain.specs.Kept.{Reads, Stands};

    ghost stands = { λ p h. Stands p h };

    ghost reads = { λ p k. Reads p k };

    ghost map = { λ p k. map_at p.history.now k };

    fn is_past(&self) {}

    fn count(&self) -> u32 {
        self.count
    }

    fn cell(&self, key: &Key, index: u32) -> Option<&Cell> {
        match last_write(self.history, key, index) {
            None => None,
            Some((_, cell)) => cell.as_ref(),
        }
    }

    fn version(&self, key: &Key, index: u32) -> u32 {
        match last_write(self.history, key, index) {
            None => 0,
            Some((number, _)) => number,
        }
    }

    fn range(
        &self,
        alloc: Global,
        table: &str,
        lo: &str,
        hi: &str,
        index: u32,
    ) -> Result<Vec<(Txt, u32)>, Memory> {
        let rows = rows_at(alloc, self.history, index)?;
        seen_in(alloc, &rows, table, lo, hi)
    }
}
