//! The pieces of rowline's texts: words, numbers and literals, and the spaces between them.
//!
//! | Module | What it has |
//! |---|---|
//! | `refusal` | where a text stops being one |
//! | `word` | single bytes, words, spaces, the end |
//! | `number` | numbers in decimal |
//! | `literal` | texts between quotes |
//! | `hex_literal` | bytes in hexadecimal |
#![tactic(auto)]

mod hex_literal;
mod literal;
mod number;
mod refusal;
mod word;

pub use hex_literal::take_hex;
pub use literal::{put_literal, take_literal};
pub use number::{
    Passed, Signed, is_absent, put_long, put_optional_long, put_unsigned, take_any_number,
    take_count, take_long, take_optional_long, take_signed, take_unsigned,
};
pub use refusal::PieceRefusal;
pub use word::{
    skip_spaces, stands, take_byte, take_end, take_gap, take_mark, take_one_of, take_word,
};
