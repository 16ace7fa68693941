//! The IDs of child workflows.

ghost use Rattle.std.specs.Prelude.{◌≡◌, ◌<◌, ◌≤◌, ◌+◌, ◌++◌, ◌↔◌, length, codes, string_bytes, IfOk, IfErr};
ghost use Rattle.sys_flow.specs.Children as rule;

use itoa::Buffer;
use r3_value::Txt;
use std::alloc::{AllocError, Global};
use thiserror::Error;

/// Why a child has no ID.
#[derive(Debug, Drop, Error)]
pub enum ChildFault {
    /// It would have more than 200 bytes.
    #[error("the child's ID would be too long")]
    Id,
    /// There was no memory.
    #[error("out of memory")]
    Memory,
}

/// The ID of the child that a workflow starts as its step `n`: the parent's ID, a hyphen and the number in
/// decimal. `Id` comes exactly where that has more than 200 bytes.
pub fn child_id(alloc: Global, parent: &str, n: u32) -> Result<Txt, ChildFault>
    ensures ok { IfOk result (λ id. id ≡ rule.child_id parent.now n) }
    ensures id { (result ≡ Err ChildFault.Id) ↔ (200 < length (rule.child_id parent.now n)) }
{
    let mut buffer = Buffer::new();
    let digits = buffer.format(n);
    if parent.len() > 200 || parent.len() + 1 + digits.len() > 200 {
        return Err(ChildFault::Id);
    }
    joined(alloc, parent, digits)
}

// With a hyphen between them.
fn joined(alloc: Global, front: &str, back: &str) -> Result<Txt, ChildFault>
    requires { length front.now + 1 + length back.now ≤ 200 }
    ensures ok { IfOk result (λ text. text ≡ front.now ++ codes "-" ++ back.now) }
    ensures memory { IfErr result (λ fault. fault ≡ ChildFault.Memory) }
{
    match written(alloc, front, back) {
        Err(_) => Err(ChildFault::Memory),
        Ok(text) => match Txt::new(alloc, text.as_str()) {
            Err(_) => Err(ChildFault::Memory),
            Ok(text) => Ok(text),
        },
    }
}

fn written(alloc: Global, front: &str, back: &str) -> Result<String, AllocError>
    ensures { IfOk result (λ text. string_bytes text ≡ front.now ++ codes "-" ++ back.now) }
{
    let mut text = String::from_str(alloc, front)?;
    text.push_str("-")?;
    text.push_str(back)?;
    Ok(text)
}
