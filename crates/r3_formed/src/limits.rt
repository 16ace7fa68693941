//! How many rows and looks an entry may have.

ghost use Rattle.std.specs.Prelude.{◌≡◌, ◌↔◌, ◌+◌, ◌≤◌, ◌^◌, cond, IsTrue, count_by, sum_by};
ghost use Rattle.r3_entry.specs.Formed.{is_user, read_count};

use r3_rows::{Cell, Key, Read};

const MAX_ROWS: usize = 1024;

const MAX_READS: usize = 4096;

// A row counts 1.
fn row_count(write: &(Key, Option<Cell>)) -> usize
    ensures { result ≡ cond (is_user write.now) 1 0 }
{
    match &write.0 {
        Key::User { table: _, key: _ } => 1,
        Key::Flow { id: _ } => 0,
        Key::Step { id: _, n: _ } => 0,
    }
}

/// Whether there are at most as many rows as an entry may write.
pub fn has_few_rows(writes: &[(Key, Option<Cell>)]) -> bool
    ensures { IsTrue result ↔ (count_by is_user writes.now ≤ 1024) }
{
    let mut count = 0;
    'writes: for write in writes {
        count += row_count(write);
        if count > MAX_ROWS {
            return false;
        }
    }
    true
}

fn count_of(read: &Read) -> usize
    ensures value { result ≡ read_count read.now }
    ensures small { result ≤ 2 ^ 63 }
{
    match read {
        Read::At {
            table: _,
            key: _,
            version: _,
        } => 1,
        Read::Range {
            table: _,
            lo: _,
            hi: _,
            keys,
        } => 1 + keys.as_slice().len(),
    }
}

/// Whether there are at most as many looks as an entry may take, a range counting its keys too.
pub fn has_few_reads(reads: &[Read]) -> bool
    ensures { IsTrue result ↔ (sum_by read_count reads.now ≤ 4096) }
{
    let mut count = 0;
    'reads: for read in reads {
        count += count_of(read);
        if count > MAX_READS {
            return false;
        }
    }
    true
}
