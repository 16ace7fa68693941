//! Version chains (`Chains`): each ordered key's versions, read as of an index.
//!
//! A contract sees `Chains` as the list of keys with their versions, newest first, beside the keys
//! that have room for one more. The versions lie in one slab, where each names the next older one;
//! an ordered map leads from a key to its newest. What an index counts is left to the crates above.
#![tactic(auto)]

mod chains;
mod head;
mod node;
#[cfg(test)]
mod tests;
mod trim;

pub use chains::Chains;
