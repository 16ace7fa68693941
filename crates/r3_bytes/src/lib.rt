//! Fields as bytes, written and read: numbers, texts, values and outcomes.
//!
//! A contract sees a `Writer` as the bytes that it holds, and a `Reader` as its place and the bytes that are
//! left. Each field has one spelling, and no spelling begins another, so what was written is read again,
//! whatever follows it. Which fields make a record is left to the crates above.
#![tactic(auto)]

mod fault;
mod laws;
mod reader;
mod slices;
mod writer;

pub use fault::FieldFault;
pub use laws::one_spelling;
pub use reader::Reader;
pub use writer::Writer;

#[cfg(test)]
mod tests;
