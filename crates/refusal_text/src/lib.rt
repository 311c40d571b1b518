//! The text of a refusal: a word, and what follows it.
//!
//! | Module | What it has |
//! |---|---|
//! | `detail` | what follows the word |
//! | `told` | the word with what follows it |
#![tactic(auto)]

mod detail;
mod told;

pub use detail::Detail;
pub use told::Told;
