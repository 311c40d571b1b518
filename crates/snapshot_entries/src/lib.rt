//! The snapshots of table metadata, read from their JSON objects and printed as such.
//!
//! | Module | What it has |
//! |---|---|
//! | `tree` | the members of an object that have no field |
//! | `snapshot` | a snapshot, and a list of them |
//! | `members` | the table of a snapshot's members |
//! | `refusal` | why a list of snapshots is refused |
//! | `list` | the checks of the whole list: its ids, and its limits |
//! | `reading` | the snapshots of a list of JSON values |
//! | `printing` | the JSON values of snapshots |
//! | `keys` | whether snapshots are encrypted |
#![tactic(auto)]

mod keys;
mod list;
mod members;
mod printing;
mod reading;
mod refusal;
mod snapshot;
mod tree;

pub use keys::has_keys;
pub use list::{check_ids, has_snapshot};
pub use printing::snapshot_values;
pub use reading::read_snapshots;
pub use refusal::SnapshotRefusal;
pub use snapshot::{Snapshot, Snapshots};
pub use tree::Tree;
