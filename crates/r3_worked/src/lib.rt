//! Worked cases of the plain machine: what it answers to each event and which entries stand then, worked out by hand.
//!
//! The crate has tests and theorems. A case of the tests is a table of steps in words, each with the answer that it must
//! give; nothing is stored, and no file is written. The files of proofs/ are cases that the checker computes: for each
//! definition a case that meets it, and cases that break it.
#![tactic(auto)]

#[cfg(test)]
mod bank;
#[cfg(test)]
mod begin;
#[cfg(test)]
mod children;
#[cfg(test)]
mod commands;
#[cfg(test)]
mod drains;
#[cfg(test)]
mod entries;
#[cfg(test)]
mod events;
#[cfg(test)]
mod play;
#[cfg(test)]
mod recoveries;
#[cfg(test)]
mod steps;
#[cfg(test)]
mod transactions;
#[cfg(test)]
mod words;
