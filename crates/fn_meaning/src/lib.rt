//! Laws of the function language's meaning, and examples that compute.
#![tactic(auto)]

pub mod laws;
