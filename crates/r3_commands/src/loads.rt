//! A load.

ghost use Rattle.std.specs.Prelude.{◌≡◌, List, length, IfOk};
ghost use Rattle.r3_entry.specs.declared.entry.Entry.{Entry};
ghost use Rattle.r3_model.specs.Functions.{language_of};
ghost use Rattle.r3_model.specs.Commands.{loaded};
ghost use Rattle.r3_commands.specs.Drafts.{given_of};

use crate::counts::count_of;
use crate::declared::has_table;
use crate::drafts::Draft;
use crate::texts::copy_of;
use fn_tree::checked::Checked;
use r3_acts::load_entry;
use r3_past::Past;
use r3_value::{Memory, Txt, Val};
use std::alloc::Global;
use sys_flow::Refusal;

/// Rows of a table are to be written.
pub fn loaded<P: Past>(
    alloc: Global,
    past: &P,
    program: &Checked,
    table: &str,
    rows: &[(Txt, Val)],
) -> Result<Draft, Memory>
    requires stands { (h : List Entry) × P.stands past.now h }
    ensures { IfOk result (λ d. (h : List Entry) → P.stands past.now h
        → given_of (length h) d ≡ loaded (language_of program.now) h table.now rows.now) }
{
    if !has_table(program, table) {
        return Ok(Draft::Refused(Refusal::UnknownTable));
    }
    let table = copy_of(alloc, table)?;
    let entry = load_entry(alloc, count_of(past), &table, rows)?;
    Ok(Draft::Enters { entry, id: None })
}
