//! An entry of a manifest.

use crate::stats::Stats;
use avro_wire::Text;
use lists::{Copied, List};
use std::alloc::{AllocError, Global};

/// What became of a data file in the snapshot that wrote the entry.
#[derive(Clone, Copy, PartialEq, Eq)]
pub enum Status {
    /// The file was in the table before, and still is.
    Existing,
    /// The snapshot added the file.
    Added,
    /// The snapshot removed the file.
    Deleted,
}

/// An entry of a manifest. Iceberg spec, "Manifest Entry Fields" and "Data File Fields".
#[derive(Drop)]
pub struct FileEntry {
    /// What became of the file. An entry that isn't `Deleted` is live.
    pub status: Status,
    /// The id of the snapshot that added or removed the file. `None`: the manifest's snapshot.
    pub snapshot_id: Option<i64>,
    /// The file's data sequence number. `None`: the manifest's sequence number.
    pub sequence: Option<i64>,
    /// The sequence number of the snapshot that added the file. `None`: the manifest's sequence
    /// number.
    pub file_sequence: Option<i64>,
    /// 0: rows; 1: deletes of positions; 2: deletes of equal rows.
    pub content: i32,
    /// The path of the file.
    pub path: Text,
    /// The format of the file, such as `avro`.
    pub format: Text,
    /// The number of rows.
    pub count: i64,
    /// The size of the file in bytes.
    pub size: i64,
    /// The id of the file's first row. `None`: it follows from the manifest.
    pub first_row_id: Option<i64>,
    /// All other statistics.
    pub stats: Stats,
}

/// The entries of a manifest, in order.
pub type FileEntries = List<FileEntry>;

impl Copied for FileEntry {
    fn copy(&self, alloc: Global) -> Result<FileEntry, AllocError> {
        Ok(FileEntry {
            status: self.status,
            snapshot_id: self.snapshot_id,
            sequence: self.sequence,
            file_sequence: self.file_sequence,
            content: self.content,
            path: self.path.copy(alloc)?,
            format: self.format.copy(alloc)?,
            count: self.count,
            size: self.size,
            first_row_id: self.first_row_id,
            stats: self.stats.copy(alloc)?,
        })
    }
}
