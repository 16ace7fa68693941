//! Laws of the rows of all workflows, for the indexes that stand on them.

ghost use Rattle.std.specs.Prelude.{List};
ghost use Rattle.r3_entry.specs.declared.entry.Entry.{Entry};
ghost use Rattle.r3_laws.specs.OfPending.{ActsWrite, PendingTells, RowsFollow, RowsGather, RowsListed, RowsRise, RowsTell};

/// What the index of the running workflows tells of the rows is the machine's list.
pub fn pending_tell()
    ensures { PendingTells }
{}

/// After an entry the rows of all workflows are those before it with the ones that it writes.
pub fn rows_follow()
    ensures follow { RowsFollow }
    ensures tell { RowsTell }
    ensures write { (h : List Entry) → ActsWrite h }
{}

/// The rows of all workflows stand in order, so an index is told of them one after the other.
pub fn rows_gather()
    ensures rise { RowsRise }
    ensures listed { RowsListed }
    ensures gather { RowsGather }
{}
