//! Tokens as bytes, with a space behind each.

ghost use Rattle.std.specs.Prelude.{◌≡◌, ◌∷◌, ◌++◌, [], OnOk};
ghost use Rattle.fn_spell.specs.Pieces.{spaced, a_word, a_name, a_number};
ghost use Rattle.fn_spell.specs.Spelling.{comma_unless};

use fn_grammar::{Lexeme, text_of};
use itoa::Buffer;
use r3_value::{Memory, Txt};

/// Bytes, and a space.
fn put(out: &mut Vec<u8>, bytes: &[u8]) -> Result<(), Memory>
    ensures { OnOk result (out.new.items ≡ out.old.items ++ (bytes.now ++ 32 ∷ [])) }
{
    out.extend_from_slice(bytes)?;
    out.push(b' ')?;
    Ok(())
}

/// A reserved word or a sign.
pub fn word(out: &mut Vec<u8>, l: Lexeme) -> Result<(), Memory>
    ensures { OnOk result (out.new.items ≡ out.old.items ++ spaced (a_word l ∷ [])) }
{
    put(out, text_of(l).as_bytes())?;
    Ok(())
}

/// A name.
pub fn name(out: &mut Vec<u8>, x: &Txt) -> Result<(), Memory>
    ensures { OnOk result (out.new.items ≡ out.old.items ++ spaced (a_name x.now ∷ [])) }
{
    put(out, x.as_str().as_bytes())?;
    Ok(())
}

/// A number.
pub fn number(out: &mut Vec<u8>, z: i64) -> Result<(), Memory>
    ensures { OnOk result (out.new.items ≡ out.old.items ++ spaced (a_number z ∷ [])) }
{
    let mut buffer = Buffer::new();
    put(out, buffer.format(z).as_bytes())?;
    Ok(())
}

/// A comma, but for the first of several.
pub fn comma(out: &mut Vec<u8>, first: bool) -> Result<(), Memory>
    ensures { OnOk result (out.new.items ≡ out.old.items ++ spaced (comma_unless first)) }
{
    if !first {
        word(out, Lexeme::Comma)?;
    }
    Ok(())
}
