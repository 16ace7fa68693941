//! Worked cases of the executor: what it answers to each event, worked out by hand, over a store in memory.
//!
//! The crate has tests alone. A case is a table of steps in words, each with the answer that it must give.
#![tactic(auto)]

#[cfg(test)]
mod answers;
#[cfg(test)]
mod bank;
#[cfg(test)]
mod children;
#[cfg(test)]
mod commands;
#[cfg(test)]
mod entries;
#[cfg(test)]
mod faults;
#[cfg(test)]
mod histories;
#[cfg(test)]
mod play;
#[cfg(test)]
mod queues;
#[cfg(test)]
mod rows;
#[cfg(test)]
mod steps;
#[cfg(test)]
mod stored;
#[cfg(test)]
mod workflows;
