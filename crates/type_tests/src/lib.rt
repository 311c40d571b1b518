//! Tests of the plain types.
//!
//! | Module | What it tries |
//! |---|---|
//! | `plain_types` | lists, columns, rows by their ids, and copies |
#![tactic(auto)]

#[cfg(test)]
mod plain_types;
