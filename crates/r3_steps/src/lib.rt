//! A counter of steps.
//!
//! A contract sees a `Steps` as a number. It takes no bytes, and counting costs nothing while the
//! program runs: what a step is, and that it can't be passed over, is said by the crate that counts.
#![tactic(auto)]

mod steps;
#[cfg(test)]
mod tests;

pub use steps::Steps;
