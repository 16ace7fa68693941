//! What a transaction sees.

ghost use Rattle.std.specs.Prelude.{◌≡◌, ◌≤◌, IfOk, length};
ghost use Rattle.std.specs.Option.{option_copied};
ghost use Rattle.r3_entry.specs.declared.entry.Entry.{Entry};
ghost use Rattle.r3_past.specs.Maps.{versions_in};

use crate::cells::{user_key, user_value};
use crate::past::Past;
use fn_txn::View;
use r3_value::{Memory, Txt, Val};
use std::alloc::Global;
use std::marker::Model;

/// The rows of a history as of an index, for the body of a transaction. A name or a key that is too long
/// for a text is answered with want of memory: no body within the limits asks for one.
#[derive(Drop)]
pub struct AsOf<'a, P: Past> {
    alloc: Global,
    past: &'a P,
    index: u32,
}

impl<'a, P: Past> Model for AsOf<'a, P> {
    ghost use Rattle.r3_past.specs.Snapshot.{Snapshot, snapshot_code};

    ghost Value = { Snapshot P };

    ghost coded = { snapshot_code P.code };

    ghost use Rattle.std.specs.Prelude.{List};
    ghost use Rattle.r3_entry.specs.declared.entry.Entry.{Entry};

    ghost view = { λ a. record { past = a.past.now; index = a.index } };

    // The index may be read, and what is read stands for some history.
    ghost invariant = { λ a. P.reads a.past.now a.index × ((h : List Entry) × P.stands a.past.now h) };
}

impl<'a, P: Past> AsOf<'a, P> {
    ghost use Rattle.std.specs.Prelude.{List};

    /// The rows as of an index that may be read.
    pub fn new(alloc: Global, past: &'a P, index: u32) -> AsOf<'a, P>
        requires stands { (h : List Entry) × P.stands past.now h }
        requires index { P.reads past.now index }
        ensures past { result.past ≡ past.now }
        ensures index { result.index ≡ index }
    {
        AsOf { alloc, past, index }
    }
}

impl<'a, P: Past> View for AsOf<'a, P> {
    ghost versions = { λ v. versions_in (P.map v.past v.index) };

    fn cell(&self, table: &str, key: &str) -> Result<Option<(&Val, u32)>, Memory> {
        let past = self.past;
        let key = user_key(self.alloc, table, key)?;
        match user_value(past.cell(&key, self.index)) {
            None => Ok(None),
            Some(value) => Ok(Some((value, past.version(&key, self.index)))),
        }
    }

    fn version(&self, table: &str, key: &str) -> Result<u32, Memory> {
        let past = self.past;
        let key = user_key(self.alloc, table, key)?;
        Ok(past.version(&key, self.index))
    }

    fn keys(&self, table: &str, lo: &str, hi: &str) -> Result<Vec<(Txt, u32)>, Memory> {
        let past = self.past;
        past.is_past();
        let keys = past.range(self.alloc, table, lo, hi, self.index)?;
        Ok(keys)
    }
}
