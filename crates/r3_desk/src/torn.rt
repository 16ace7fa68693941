//! What a crash leaves of writes that aren't synced.

/// What a crash leaves of the writes that weren't synced.
#[derive(Clone, Copy, Debug, PartialEq, Eq)]
pub enum Torn {
    /// Nothing: the image is that of the last sync.
    Old,
    /// All of them, as a read gives them.
    New,
    /// Their ranges, each filled with this byte.
    Fill(u8),
}
