//! Names and IDs, from texts of any length.

ghost use Rattle.std.specs.Prelude.{◌≡◌, ◌≤◌, List, length, IfOk};
ghost use Rattle.r3_entry.specs.declared.entry.Entry.{Entry};
ghost use Rattle.r3_model.specs.Commands.{id_or_made};
ghost use Rattle.r3_model.specs.Given as rule;
ghost use Rattle.r3_commands.specs.Drafts.{id_if_fits};

use r3_model::made_id;
use r3_value::{Memory, Txt, ValFault};
use std::alloc::Global;
use sys_flow::Text;

/// A copy of a text that is short enough.
pub fn copy_of(alloc: Global, text: &str) -> Result<Txt, Memory>
    requires { length text.now ≤ 4091 }
    ensures { IfOk result (λ t. t ≡ text.now) }
{
    match Txt::new(alloc, text) {
        Ok(text) => Ok(text),
        Err(_) => Err(Memory),
    }
}

fn is_id(id: &str) -> bool
    ensures { result ≡ rule.is_id id.now }
{
    !id.is_empty() && id.len() <= 200
}

fn if_fits(id: Txt) -> Option<Txt>
    ensures { result ≡ id_if_fits id }
{
    if is_id(id.as_str()) { Some(id) } else { None }
}

fn copy_if_fits(alloc: Global, id: &str) -> Result<Option<Txt>, Memory>
    ensures { IfOk result (λ fit. fit ≡ id_if_fits id.now) }
{
    if !is_id(id) {
        return Ok(None);
    }
    Ok(Some(copy_of(alloc, id)?))
}

/// The ID of a new workflow on a history of so many entries, if it has 1 to 200 bytes.
pub fn new_id(alloc: Global, count: u32, id: &Option<Text>) -> Result<Option<Txt>, Memory>
    ensures { IfOk result (λ fit. (h : List Entry) → length h ≡ count → fit ≡ id_if_fits (id_or_made h id.now)) }
{
    match id {
        None => Ok(if_fits(made_id(alloc, count)?)),
        Some(id) => copy_if_fits(alloc, id.as_str()),
    }
}
