//! The metadata of a new table, of a table after a commit, and of one after an upgrade.
//!
//! | Module | What it has |
//! |---|---|
//! | `numbers` | the larger of two numbers |
//! | `logs` | the carried members that a change touches |
//! | `new_table` | the metadata of a new table |
//! | `commit` | the metadata after a commit with a snapshot |
//! | `upgrade` | the metadata after an upgrade to version 3 |
#![tactic(auto)]

mod commit;
mod logs;
mod new_table;
mod numbers;
mod upgrade;

pub use commit::with_snapshot;
pub use new_table::fresh;
pub use upgrade::upgraded;
