//! Whether two rows, cells or read items are equal.

ghost use Rattle.std.specs.Prelude.{◌≡◌, ◌↔◌, IsTrue};

use crate::rows::{Cell, FlowRow, Read, StepRow};
use r3_value::{Outcome, Txt};

fn same_text(a: &Option<Txt>, b: &Option<Txt>) -> bool
    ensures { IsTrue result ↔ (a.now ≡ b.now) }
{
    match a {
        None => matches!(b, None),
        Some(a) => match b {
            None => false,
            Some(b) => a.as_str() == b.as_str(),
        },
    }
}

fn same_outcome(a: &Option<Outcome>, b: &Option<Outcome>) -> bool
    ensures { IsTrue result ↔ (a.now ≡ b.now) }
{
    match a {
        None => matches!(b, None),
        Some(a) => match b {
            None => false,
            Some(b) => a.same(b),
        },
    }
}

pub fn same_cell(a: &Option<Cell>, b: &Option<Cell>) -> bool
    ensures { IsTrue result ↔ (a.now ≡ b.now) }
{
    match a {
        None => matches!(b, None),
        Some(a) => match b {
            None => false,
            Some(b) => a.same(b),
        },
    }
}

impl FlowRow {
    /// Whether all fields are equal.
    pub fn same(&self, other: &FlowRow) -> bool
        ensures { IsTrue result ↔ (self.now ≡ other.now) }
    {
        self.status == other.status
            && self.function.as_str() == other.function.as_str()
            && self.args.same(&other.args)
            && same_outcome(&self.outcome, &other.outcome)
            && same_text(&self.queue, &other.queue)
            && self.started == other.started
            && self.attempts == other.attempts
            && same_text(&self.parent, &other.parent)
    }
}

impl StepRow {
    /// Whether all fields are equal.
    pub fn same(&self, other: &StepRow) -> bool
        ensures { IsTrue result ↔ (self.now ≡ other.now) }
    {
        self.name.as_str() == other.name.as_str()
            && self.kind == other.kind
            && self.outcome.same(&other.outcome)
    }
}

impl Cell {
    /// Whether both hold the same.
    pub fn same(&self, other: &Cell) -> bool
        ensures { IsTrue result ↔ (self.now ≡ other.now) }
    {
        match self {
            Cell::Row(a) => match other {
                Cell::Row(b) => a.same(b),
                _ => false,
            },
            Cell::Flow(a) => match other {
                Cell::Flow(b) => a.same(b),
                _ => false,
            },
            Cell::Step(a) => match other {
                Cell::Step(b) => a.same(b),
                _ => false,
            },
        }
    }
}

fn same_seen(a: &(Txt, u32), b: &(Txt, u32)) -> bool
    ensures { IsTrue result ↔ (a.now ≡ b.now) }
{
    a.0.as_str() == b.0.as_str() && a.1 == b.1
}

fn same_keys(a: &[(Txt, u32)], b: &[(Txt, u32)]) -> bool
    ensures { IsTrue result ↔ (a.now ≡ b.now) }
{
    if a.len() != b.len() {
        return false;
    }
    for i in 0..a.len() {
        if !same_seen(&a[i], &b[i]) {
            return false;
        }
    }
    true
}

impl Read {
    /// Whether both are the same look.
    pub fn same(&self, other: &Read) -> bool
        ensures { IsTrue result ↔ (self.now ≡ other.now) }
    {
        match self {
            Read::At {
                table,
                key,
                version,
            } => match other {
                Read::At {
                    table: table_b,
                    key: key_b,
                    version: version_b,
                } => {
                    table.as_str() == table_b.as_str()
                        && key.as_str() == key_b.as_str()
                        && *version == *version_b
                }
                _ => false,
            },
            Read::Range {
                table,
                lo,
                hi,
                keys,
            } => match other {
                Read::Range {
                    table: table_b,
                    lo: lo_b,
                    hi: hi_b,
                    keys: keys_b,
                } => {
                    table.as_str() == table_b.as_str()
                        && lo.as_str() == lo_b.as_str()
                        && hi.as_str() == hi_b.as_str()
                        && same_keys(keys.as_slice(), keys_b.as_slice())
                }
                _ => false,
            },
        }
    }
}
