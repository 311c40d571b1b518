//! Tests of table metadata.
//!
//! | Module | What it has |
//! |---|---|
//! | `changes` | new tables, and tables after commits and upgrades |
//! | `large` | large and deep texts, read or refused |
//! | `metadata` | the metadata of tables, read and printed, or refused |
//! | `order` | the order of the checks of a text |
//! | `shapes` | metadata as other engines write it |
#![tactic(auto)]

#[cfg(test)]
mod changes;
#[cfg(test)]
mod large;
#[cfg(test)]
mod metadata;
#[cfg(test)]
mod order;
#[cfg(test)]
mod shapes;
