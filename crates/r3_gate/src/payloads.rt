//! What opening a log hands out.

/// The payloads of a log, in order. Each has 1 to 2^23 bytes.
#[derive(Drop)]
pub struct Payloads {
    pub list: Vec<Vec<u8>>,
}
