//! Replies to the lines of a script, as bytes.
//!
//! A contract sees a reply as the plain machine's, and says which bytes it has. Which reply a line
//! is given is left to the crates above.
#![tactic(auto)]

mod objects;
mod reply;
mod row;
mod summary;
mod text;
mod words;

pub use reply::Reply;
pub use summary::summary_text;
pub use text::reply_text;

#[cfg(test)]
mod tests;
