//! What follows the word of a refusal.

use avro_wire::{Bytes, Text};

/// What follows the word of a refusal, and a space before it. docs/FORMATS.md, "Refused runs".
#[derive(Clone, Copy)]
pub enum Detail<'a> {
    /// Nothing, and no space.
    Nothing,
    /// A number in decimal: a place, a block, a line, or how much was found.
    Number(u64),
    /// The id of a column.
    Id(i32),
    /// Two numbers with a space between.
    Numbers(i64, i64),
    /// An `x`, and two hexadecimal digits for each byte.
    Hex(&'a Bytes),
    /// The text between quotes.
    Quoted(&'a Text),
    /// A number and a name with a space between.
    Named(u64, &'static str),
}
