//! The queues of a program: which waiting workflow each starts next.
//!
//! A contract sees `Queues` as the list of its lines, one a declared queue, with the places of those that
//! wait in it and the number of those that run. The lines stand as the rows of the workflows say, as far as
//! each change of a row is noted. What a dequeue writes is left to the crates above.
#![tactic(auto)]

mod line;
mod next;
mod queues;
#[cfg(test)]
mod tests;

pub use next::Next;
pub use queues::Queues;
