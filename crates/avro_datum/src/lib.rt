//! Avro values: their trees, reading them from bytes, and writing them.
//!
//! | Crate | What it has |
//! |---|---|
//! | `datum_tree` | values as trees, and which of them a schema has |
//! | `datum_reading` | the value of some bytes, and where it ends |
//! | `datum_writing` | the bytes of a value |
#![tactic(auto)]

pub use datum_reading::{
    Cursor, DatumRefusal, decode, no_prefix, pass_sized, skip, take_choice, take_flag, take_int_at,
    take_long_at, take_text,
};
pub use datum_tree::{Datum, Items, Pairs, fits};
pub use datum_writing::encode;
