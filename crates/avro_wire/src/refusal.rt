//! Why an item can't be taken.

use thiserror::Error;

/// Why a number, or a length with its bytes, can't be taken. `place` counts bytes from 0, and is
/// where the number or the length begins. Avro spec, "Binary encoding".
#[derive(Clone, Copy, Debug, PartialEq, Eq, Error)]
pub enum WireRefusal {
    /// The input ends before the number's last byte, or before the last byte that a length promises.
    #[error("the input ends inside the item at byte {place}")]
    Short { place: u64 },
    /// The number takes more bytes than it may, its value doesn't fit, or it is a negative length.
    #[error("no item can stand at byte {place}")]
    TooLong { place: u64 },
}
