//! What a history of a table is: its states, the rules of a step, and the ids that it gives.
//!
//! The definitions lie in `specs/`; the code has only the names of the rules, the numbers of a
//! state, and laws.
//!
//! | Module | What it has |
//! |---|---|
//! | `rule` | the rules that a step can break |
//! | `tally` | the numbers of a state |
//! | `laws` | what follows from the definitions |
#![tactic(auto)]

pub mod laws;
mod rule;
mod tally;

pub use rule::Rule;
pub use tally::Tally;
