//! Tokens by their places.

/// What a token is.
#[derive(Clone, Copy, PartialEq, Eq, Debug)]
pub enum TokenKind {
    /// A lower-case letter and then lower-case letters, digits and `_`, and no reserved word: 1 to 64 bytes.
    Name,
    /// A reserved word, in use or kept for later.
    Word,
    /// Digits without a leading zero: 0 to 9223372036854775807.
    Number,
    /// A text between quotes that denotes at most 4,091 bytes.
    Text,
    /// An operator or a bracket, of one or two bytes.
    Sign,
}

/// A token: the bytes of the source from `from` up to `to`.
#[derive(Clone, Copy, PartialEq, Eq, Debug)]
pub struct Token {
    /// What it is.
    pub kind: TokenKind,
    /// Its first byte.
    pub from: u32,
    /// The first byte behind it.
    pub to: u32,
}
