//! The lexer of the function language: a text is read as its tokens, or refused at its first bad place.
//!
//! A contract sees the tokens through `Lexed`: at each place, behind blanks and comments, the longest
//! lexeme is taken, and it has to keep its limits. What the tokens make together is left to the crates above.
#![tactic(auto)]

mod classes;
mod fault;
mod front;
mod laws;
mod lexer;
mod numbers;
mod quoted;
mod signs;
mod span;
#[cfg(test)]
mod tests;
mod words;

pub use fault::LexError;
pub use laws::{one_reading, spans_are_in_order, spans_are_slices};
pub use lexer::tokens;
pub use span::{Token, TokenKind};
