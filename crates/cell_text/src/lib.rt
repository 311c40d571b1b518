//! The text of a cell, put into a slice.
//!
//! | Module | What it puts |
//! |---|---|
//! | `piece` | bytes as they are, and numbers in decimal |
//! | `escape` | a text as it is written between quotes |
//! | `digits` | bytes as hexadecimal digits |
//! | `cell` | a cell |
//! | `text` | a cell, after a string |
#![tactic(auto)]

mod cell;
mod digits;
mod escape;
mod piece;
mod text;

pub use cell::{most_bytes, put_cell};
pub use digits::put_digits;
pub use escape::put_escaped;
pub use piece::{put_number, put_piece};
pub use text::push_cell;
