//! The plain types of a table's files: the entries of manifests and of manifest lists.
//!
//! | Module | What it has |
//! |---|---|
//! | `file_entry` | an entry of a manifest: a data file, and what became of it |
//! | `stats` | the statistics of a data file |
//! | `list_entry` | an entry of a manifest list: a manifest |
#![tactic(auto)]

mod file_entry;
mod list_entry;
mod stats;

pub use file_entry::{FileEntries, FileEntry, Status};
pub use list_entry::{Firsts, ListEntries, ListEntry};
pub use stats::{Bounds, Counts, Ints, Longs, Stats};
