//! Why a field could not be read.

use thiserror::Error;

/// Why no field was read. The reader then stands where it stood before the call.
#[derive(Debug, Drop, Error)]
pub enum FieldFault {
    /// No beginning of the bytes that are left is such a field. `at` is the reader's place.
    #[error("no such field at byte {at}")]
    NoField { at: u32 },
    /// There was no memory for what the field holds.
    #[error("out of memory")]
    Memory,
}
