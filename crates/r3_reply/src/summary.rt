//! What the generator tells at its end.

ghost use Rattle.std.specs.Prelude.{◌≡◌, IfOk};
ghost use Rattle.r3_json.specs.Lines.{line_of};
ghost use Rattle.r3_reply.specs.Summary.{summary_data};

use r3_value::Memory;
use std::alloc::Global;

/// The number of entries, the number of the workflows that succeeded, and the sum of the accounts, as
/// compact JSON and a newline.
// A `Value` of serde_json holds no sum past 64 bits, so the text is written here.
pub fn summary_text(alloc: Global, entries: u32, success: u32, sum: i128) -> Result<Vec<u8>, Memory>
    ensures { IfOk result (λ text. text.items ≡ line_of (summary_data entries success sum)) }
{
    let text = format!(in alloc;
        "{{\"entries\":{entries},\"success\":{success},\"sum\":{sum}}}\n"
    )?;
    Ok(text.into_bytes())
}
