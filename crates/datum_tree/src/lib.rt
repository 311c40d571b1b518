//! Avro values as trees, and which of them a schema has.
//!
//! | Module | What it has |
//! |---|---|
//! | `datum` | values, and their copy |
//! | `kinds` | what a value is, if it is of a kind |
//! | `fitting` | whether a value is one of a schema |
#![tactic(auto)]

mod datum;
mod fitting;
mod kinds;

pub use datum::{Datum, Items, Pairs};
pub use fitting::{encodings_fit, fits};
pub use kinds::{
    array_of, branch_of, fields_of, flag_of, is_null, number_of, pairs_of, raw_of, text_of,
};
