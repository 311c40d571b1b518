//! Avro's numbers, bytes and texts as they are in a file.
//!
//! | Module | What it has |
//! |---|---|
//! | `bytes`, `text` | bytes and texts that contracts see as lists of bytes |
//! | `utf8` | the test of bytes for text |
//! | `refusal` | why an item can't be taken |
//! | `reading` | the takes: an item at a place, and the place after it |
//! | `writing` | the puts: an item after the bytes that are there |
#![tactic(auto)]

mod bytes;
mod reading;
mod refusal;
mod text;
mod utf8;
mod writing;

pub use bytes::Bytes;
pub use reading::{no_prefix, take_bytes, take_int, take_long};
pub use refusal::WireRefusal;
pub use text::Text;
pub use utf8::text_of;
pub use writing::{put_bytes, put_long, reads_back};
