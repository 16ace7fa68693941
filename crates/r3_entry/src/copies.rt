//! Copies of acts and entries.

ghost use Rattle.std.specs.Prelude.{◌≡◌, IfOk};

use crate::entry::{Act, Entry};
use r3_rows::Read;
use r3_value::Memory;
use sqlite_items::Items;
use std::alloc::Global;

impl Act {
    /// The same act.
    pub fn copy(&self) -> Result<Act, Memory>
        ensures { IfOk result (λ a. a ≡ self.now) }
    {
        match self {
            Act::Program { text } => Ok(Act::Program { text: text.copy()? }),
            Act::Load => Ok(Act::Load),
            Act::Start { id } => Ok(Act::Start { id: id.copy()? }),
            Act::Enqueue { id } => Ok(Act::Enqueue { id: id.copy()? }),
            Act::Dequeue { id } => Ok(Act::Dequeue { id: id.copy()? }),
            Act::Txn { id, n, args } => Ok(Act::Txn {
                id: id.copy()?,
                n: *n,
                args: args.copy()?,
            }),
            Act::Outside { id, n, args } => Ok(Act::Outside {
                id: id.copy()?,
                n: *n,
                args: args.copy()?,
            }),
            Act::Child { id, n, child } => Ok(Act::Child {
                id: id.copy()?,
                n: *n,
                child: child.copy()?,
            }),
            Act::Await { id, n, on } => Ok(Act::Await {
                id: id.copy()?,
                n: *n,
                on: on.copy()?,
            }),
            Act::Finish { id } => Ok(Act::Finish { id: id.copy()? }),
            Act::Cancel { id } => Ok(Act::Cancel { id: id.copy()? }),
            Act::Resume { id } => Ok(Act::Resume { id: id.copy()? }),
            Act::Fork { id, from, below } => Ok(Act::Fork {
                id: id.copy()?,
                from: from.copy()?,
                below: *below,
            }),
            Act::Recover { id } => Ok(Act::Recover { id: id.copy()? }),
        }
    }
}

fn copy_reads(alloc: Global, reads: &[Read]) -> Result<Items<Read>, Memory>
    ensures { IfOk result (λ rs. rs ≡ reads.now) }
{
    let mut copies = Items::new(alloc);
    for read in reads {
        copies.push(read.copy(alloc)?)?;
    }
    Ok(copies)
}

impl Entry {
    /// The same entry.
    pub fn copy(&self, alloc: Global) -> Result<Entry, Memory>
        ensures { IfOk result (λ e. e ≡ self.now) }
    {
        Ok(Entry {
            act: self.act.copy()?,
            snap: self.snap,
            reads: copy_reads(alloc, self.reads.as_slice())?,
            writes: self.writes.copy()?,
        })
    }
}
