//! Avro values, read from their bytes.
//!
//! | Module | What it has |
//! |---|---|
//! | `cursor` | a place inside a value |
//! | `refusal` | why bytes are no value |
//! | `primitive`, `block` | numbers, booleans, bytes and texts, taken at a cursor; the heads and ends of blocks |
//! | `reading` | the value of some bytes |
//! | `skipping` | where a value ends, without building it |
//! | `compact` | schemas without the fields that take no bytes |
#![tactic(auto)]

mod block;
mod compact;
mod cursor;
mod primitive;
mod reading;
mod refusal;
mod skipping;

pub use compact::compacted;
pub use cursor::Cursor;
pub use primitive::{
    pass_raw, pass_sized, take_choice, take_flag, take_int_at, take_known_text, take_long_at,
    take_text,
};
pub use reading::{decode, no_prefix, reading_agrees};
pub use refusal::DatumRefusal;
pub use skipping::skip;
