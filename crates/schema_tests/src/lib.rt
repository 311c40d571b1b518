//! Tests of the texts of schemas, from the standard and by hand.
//!
//! | Module | What it tries |
//! |---|---|
//! | `rows` | what is asserted of a table |
//! | `schemas`, `no_schemas`, `limits` | texts that are schemas, that are none, and that are too large |
#![tactic(auto)]

#[cfg(test)]
mod limits;
#[cfg(test)]
mod no_schemas;
#[cfg(test)]
mod rows;
#[cfg(test)]
mod schemas;
