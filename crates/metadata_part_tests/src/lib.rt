//! Tests of the parts of table metadata.
//!
//! | Module | What it has |
//! |---|---|
//! | `columns` | columns of schemas, read and printed, or refused |
//! | `snapshots` | lists of snapshots, read and printed, or refused |
#![tactic(auto)]

#[cfg(test)]
mod columns;
#[cfg(test)]
mod snapshots;
