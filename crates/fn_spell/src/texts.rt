//! Texts between quotes.

ghost use Rattle.std.specs.Prelude.{◌≡◌, ◌∷◌, ◌++◌, [], OnOk};
ghost use Rattle.fn_spell.specs.Pieces.{spaced, escape, escaped, a_text};

use r3_value::{Memory, Txt};

/// One byte, behind a backslash where it can't stand alone.
fn put_byte(out: &mut Vec<u8>, b: u8) -> Result<(), Memory>
    ensures { OnOk result (out.new.items ≡ out.old.items ++ escape b) }
{
    if b == b'"' {
        out.extend_from_slice(b"\\\"")?;
    } else if b == b'\\' {
        out.extend_from_slice(b"\\\\")?;
    } else if b == b'\n' {
        out.extend_from_slice(b"\\n")?;
    } else {
        out.push(b)?;
    }
    Ok(())
}

/// The bytes of a text, as they stand between its quotes.
fn put_bytes(out: &mut Vec<u8>, bytes: &[u8]) -> Result<(), Memory>
    ensures { OnOk result (out.new.items ≡ out.old.items ++ escaped bytes.now) }
{
    for b in bytes {
        put_byte(out, *b)?;
    }
    Ok(())
}

/// A text.
pub fn text(out: &mut Vec<u8>, t: &Txt) -> Result<(), Memory>
    ensures { OnOk result (out.new.items ≡ out.old.items ++ spaced (a_text t.now ∷ [])) }
{
    out.push(b'"')?;
    put_bytes(out, t.as_str().as_bytes())?;
    out.extend_from_slice(b"\" ")?;
    Ok(())
}
