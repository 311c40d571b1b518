//! The metadata of tables: read from its JSON text, printed, and changed.
//!
//! | Crate | What it has |
//! |---|---|
//! | `snapshot_entries` | the snapshots of metadata, and the members that have no field |
//! | `metadata_reading` | the metadata of a text |
//! | `metadata_writing` | the text of metadata, and of its current schema |
//! | `metadata_changes` | the metadata of a new table, after a commit, and after an upgrade |
#![tactic(auto)]

pub use metadata_changes::{fresh, upgraded, with_snapshot};
pub use metadata_reading::{MetaRefusal, TableMeta, read_meta};
pub use metadata_writing::{print_meta, schema_text};
pub use snapshot_entries::{Snapshot, Snapshots, Tree};
