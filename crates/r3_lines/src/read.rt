//! A line of a script, from its bytes.

ghost use Rattle.std.specs.Prelude.{◌≡◌, IfOk};
ghost use Rattle.r3_model.specs.Forms.{line_of};
ghost use Rattle.r3_lines.specs.Lines.{as_line, IsKept};

use crate::forms::line_from;
use crate::line::Line;
use r3_json::{ReadFault, read};
use r3_value::Memory;
use std::alloc::Global;

/// What a line is, with or without its newline. A line that is no JSON, or of no form, is told so.
pub fn read_line(alloc: Global, line: &[u8]) -> Result<Line, Memory>
    ensures read { IfOk result (λ l. as_line l ≡ line_of line.now) }
    ensures kept { IfOk result IsKept }
{
    match read(alloc, line) {
        Ok(json) => line_from(alloc, &json),
        Err(ReadFault::Syntax) => Ok(Line::Unread),
        Err(ReadFault::Memory) => Err(Memory),
    }
}
