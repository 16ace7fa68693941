//! The IDs that the machine makes where none is given.

ghost use Rattle.std.specs.Prelude.{◌≡◌, IfOk};
ghost use Rattle.r3_model.specs.Names as names;

use itoa::Buffer;
use r3_value::{Memory, Txt};
use std::alloc::Global;
use uuid::Uuid;

/// The ID that stands for an absent one on a history of this length: the version 5 UUID (RFC 4122, section 4.3) of
/// the nil namespace and the length in decimal.
pub fn made_id(alloc: Global, length: u32) -> Result<Txt, Memory>
    ensures { IfOk result (λ id. id ≡ names.made_id length) }
{
    let mut digits = Buffer::new();
    let name = digits.format(length);
    let uuid = Uuid::new_v5(&Uuid::nil(), name.as_bytes());
    let mut buffer = [0u8; 36];
    let text = uuid.hyphenated().encode_lower(&mut buffer);
    match Txt::new(alloc, text) {
        Ok(id) => Ok(id),
        Err(_) => Err(Memory),
    }
}
