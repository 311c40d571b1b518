//! How far a value is read.

/// A place inside a value, and how many items of arrays and maps of the value were counted so far.
#[derive(Clone, Copy, PartialEq, Eq)]
pub struct Cursor {
    /// Bytes from 0, from the start of the input.
    pub place: usize,
    /// The sum of the counts of the blocks of arrays and maps before the place.
    pub items: u64,
}
