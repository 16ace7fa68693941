//! The environment of the engine: its disk, its output and the external party that it asks; the source of its
//! script; and the texts of files. Each is a trait, with a fake in memory.
//!
//! A contract sees a `Desk` by what it tells: the image of its disk, the bytes said, the calls asked, and which
//! images a crash may leave at which moment. A call fails only where the count of faults of its kind rises.
#![tactic(auto)]

mod asked;
mod calls;
mod crash;
mod desk;
mod mem_shelf;
mod mem_source;
mod memory;
mod shelf;
mod source;
mod step;
#[cfg(test)]
mod tests;
mod torn;

pub use asked::Asked;
pub use calls::Room;
pub use desk::{AskFault, Desk, DiskFault, SayFault};
pub use mem_shelf::MemShelf;
pub use mem_source::MemSource;
pub use memory::MemDesk;
pub use shelf::{Shelf, ShelfFault};
pub use source::{ReadFault, Source};
pub use torn::Torn;
