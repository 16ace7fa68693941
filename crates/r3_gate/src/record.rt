//! The bytes of one record.

ghost use Rattle.std.specs.Prelude.{◌≡◌, ◌<◌, ◌^◌, ◌++◌, ◌∷◌, [], length, IfOk};
ghost use Rattle.r3_gate.specs.Log.{frame};

use std::alloc::{AllocError, Global};

const CLOSED: u8 = 0;

/// A record with a closed commit byte behind it, and before it these bytes.
pub fn joined(alloc: Global, lead: &[u8], payload: &[u8]) -> Result<Vec<u8>, AllocError>
    requires { length payload.now < 2 ^ 32 }
    ensures { IfOk result (λ block. block.items ≡ lead.now ++ (frame payload.now ++ 0 ∷ [])) }
{
    let mut block = lead.to_vec(alloc)?;
    block.extend_from_slice(&(payload.len() as u32).to_be_bytes())?;
    block.extend_from_slice(payload)?;
    block.push(CLOSED)?;
    Ok(block)
}
