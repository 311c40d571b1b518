//! An entry of a manifest list.

use avro_wire::{Bytes, Text};
use lists::{Copied, List};
use std::alloc::{AllocError, Global};

/// An entry of a manifest list: a manifest. Iceberg spec, "Manifest Lists".
#[derive(Drop)]
pub struct ListEntry {
    /// The path of the manifest.
    pub path: Text,
    /// The size of the manifest in bytes.
    pub length: i64,
    /// The id of the partition spec that the manifest was written with.
    pub spec_id: i32,
    /// 0: the manifest has data files; 1: it has delete files.
    pub content: i32,
    /// The sequence number of the snapshot that added the manifest.
    pub sequence: i64,
    /// The least data sequence number of the live files.
    pub min_sequence: i64,
    /// The id of the snapshot that added the manifest.
    pub added_snapshot: i64,
    /// How many entries have the status `Added`.
    pub added_files: i32,
    /// How many entries have the status `Existing`.
    pub existing_files: i32,
    /// How many entries have the status `Deleted`.
    pub deleted_files: i32,
    /// The rows of the `Added` files.
    pub added_rows: i64,
    /// The rows of the `Existing` files.
    pub existing_rows: i64,
    /// The rows of the `Deleted` files.
    pub deleted_rows: i64,
    /// What a key is needed for. `None`: there is none.
    pub key: Option<Bytes>,
    /// The id from which the rows of live files without an id of their own are numbered. `None`:
    /// the manifest has none yet.
    pub first_row_id: Option<i64>,
}

/// The entries of a manifest list, in order.
pub type ListEntries = List<ListEntry>;

/// First row ids of files or of manifests. `None`: there is none.
pub type Firsts = List<Option<i64>>;

impl Copied for ListEntry {
    fn copy(&self, alloc: Global) -> Result<ListEntry, AllocError> {
        Ok(ListEntry {
            path: self.path.copy(alloc)?,
            length: self.length,
            spec_id: self.spec_id,
            content: self.content,
            sequence: self.sequence,
            min_sequence: self.min_sequence,
            added_snapshot: self.added_snapshot,
            added_files: self.added_files,
            existing_files: self.existing_files,
            deleted_files: self.deleted_files,
            added_rows: self.added_rows,
            existing_rows: self.existing_rows,
            deleted_rows: self.deleted_rows,
            key: self.key.copy(alloc)?,
            first_row_id: self.first_row_id,
        })
    }
}
