//! Runs of bytes of one class.

ghost use Rattle.std.specs.Prelude.{◌≡◌, ◌≤◌, length, slice_index_or};
ghost use Rattle.fn_lex.specs.Bytes.{byte_or};
ghost use Rattle.fn_lex.specs.Pieces.{belongs, run};

/// A class of bytes.
#[derive(Clone, Copy)]
pub enum Class {
    /// Lower-case letters, digits and `_`.
    Name,
    /// Digits.
    Digit,
    /// What a comment may hold: all below 0x80 but a newline.
    Comment,
}

fn is_of(class: Class, b: u8) -> bool
    ensures { result ≡ belongs class b }
{
    match class {
        Class::Name => (b'a' <= b && b <= b'z') || (b'0' <= b && b <= b'9') || b == b'_',
        Class::Digit => b'0' <= b && b <= b'9',
        Class::Comment => b != b'\n' && b < 128,
    }
}

/// How many bytes at the front are of the class.
pub fn run_of(class: Class, bytes: &[u8]) -> usize
    ensures run { result ≡ run class bytes.now }
    ensures within { result ≤ length bytes.now }
{
    let mut n: usize = 0;
    for b in bytes {
        if !is_of(class, *b) {
            return n;
        }
        n += 1;
    }
    n
}

/// The byte at a place, or a newline past the end.
pub fn byte_at(bytes: &[u8], at: usize) -> u8
    ensures { result ≡ byte_or bytes.now at }
{
    match bytes.get(at) {
        Some(b) => *b,
        None => b'\n',
    }
}
