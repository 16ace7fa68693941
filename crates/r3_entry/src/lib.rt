//! Entries of a history and their bytes, and what a history of them means.
//!
//! A contract sees an entry as it is declared, and a history as a list of entries. How a history is kept
//! in a file, and which commands make its entries, is left to the crates above.
#![tactic(auto)]

mod act_fields;
mod copies;
mod decoder;
mod encoder;
mod entry;
mod fault;
mod fields;
mod laws;
mod program_text;
mod read_fields;
mod row_fields;

pub use decoder::decode;
pub use encoder::encode;
pub use entry::{Act, Entry, writes_of};
pub use fault::EntryFault;
pub use laws::{
    a_closed_gate_ends, an_open_gate_adds, beginnings_are_formed, bytes_are_an_image,
    first_committer_wins, formed_goes_on, one_history, one_more_entry, one_spelling, size_is,
    versions_are_numbers,
};
pub use program_text::ProgramText;

#[cfg(test)]
mod tests;
