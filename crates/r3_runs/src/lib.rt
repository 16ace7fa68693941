//! Worked cases of the whole program: what it says and leaves of each run, worked out by hand, over an environment in memory.
//!
//! The crate has tests alone.
#![tactic(auto)]

#[cfg(test)]
mod cases;
