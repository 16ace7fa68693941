//! Looks at a row.

ghost use Rattle.std.specs.Prelude.{◌≡◌, List, length, IfOk};
ghost use Rattle.r3_entry.specs.declared.entry.Entry.{Entry};
ghost use Rattle.r3_model.specs.Functions.{language_of};
ghost use Rattle.r3_model.specs.Given.{Answers};
ghost use Rattle.r3_model.specs.Machine as machine;
ghost use Rattle.r3_model.specs.Rows.{flow_at, row_at};
ghost use Rattle.r3_plain.specs.Done.{got_of};
ghost use Rattle.r3_plain.specs.Kept.{Stands};
ghost use Rattle.r3_plain.specs.Words.{given_of};

use crate::given::Given;
use crate::past::Kept;
use crate::reply::Reply;
use crate::txns::text_of;
use fn_tree::checked::Checked;
use r3_commands::has_table;
use r3_past::{flow_row, user_row};
use r3_value::Memory;
use std::alloc::Global;
use sys_flow::Refusal;

/// The row of a workflow.
pub fn shown(alloc: Global, past: &Kept<'_>, id: &str) -> Result<Given, Memory>
    requires stands { (h : List Entry) × Stands past.now h }
    ensures { IfOk result (λ g. (h : List Entry) → Stands past.now h → given_of g ≡ Answers (machine.shown id.now (flow_at h (length h) id.now))) }
{
    match flow_row(alloc, past, id)? {
        None => Ok(Given::Answers(Reply::Refused(Refusal::UnknownId))),
        Some(row) => {
            let id = text_of(alloc, id)?;
            let row = row.copy()?;
            Ok(Given::Answers(Reply::Row { id, row }))
        }
    }
}

// A user's row of a table that is declared.
fn found(alloc: Global, past: &Kept<'_>, table: &str, key: &str) -> Result<Given, Memory>
    requires stands { (h : List Entry) × Stands past.now h }
    ensures { IfOk result (λ g. (h : List Entry) → Stands past.now h → given_of g ≡ Answers (machine.got (row_at h (length h) table.now key.now))) }
{
    match user_row(alloc, past, table, key)? {
        None => Ok(Given::Answers(Reply::Absent)),
        Some(value) => Ok(Given::Answers(Reply::Value(value.copy()?))),
    }
}

/// The value of a user's row.
pub fn got(
    alloc: Global,
    program: &Checked,
    past: &Kept<'_>,
    table: &str,
    key: &str,
) -> Result<Given, Memory>
    requires stands { (h : List Entry) × Stands past.now h }
    ensures { IfOk result (λ g. (h : List Entry) → Stands past.now h → given_of g ≡ got_of (language_of program.now) h table.now key.now) }
{
    if has_table(program, table) {
        found(alloc, past, table, key)
    } else {
        Ok(Given::Answers(Reply::Refused(Refusal::UnknownTable)))
    }
}
