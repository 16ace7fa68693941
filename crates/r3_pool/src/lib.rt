//! A slab (`Pool`): values in numbered slots, where a freed slot is used again.
//!
//! A contract sees a `Pool` as what each slot holds, the list of freed slots, the cap and the
//! reserved capacity (`spare`). All memory is taken by `reserve`: after it `put` can't fail. What a
//! value means is left to the crates above.
#![tactic(auto)]

mod fault;
mod pool;
#[cfg(test)]
mod tests;

pub use fault::PoolFault;
pub use pool::{Pool, Slot};
