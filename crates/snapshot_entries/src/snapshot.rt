//! A snapshot of a table.

use crate::tree::Tree;
use avro_wire::Text;
use lists::{Copied, List};
use std::alloc::{AllocError, Global};

/// A snapshot of a table. Iceberg spec, "Snapshots".
#[derive(Drop)]
pub struct Snapshot {
    /// Its id, not below 0.
    pub id: i64,
    /// The id of the snapshot before it. `None`: it has none.
    pub parent: Option<i64>,
    /// Its sequence number, not below 0.
    pub sequence: i64,
    /// When it was made, in milliseconds from 1970-01-01 00:00:00 UTC.
    pub time: i64,
    /// The path of its manifest list.
    pub list: Text,
    /// The id of the table's schema when it was made. `None`: it is missing.
    pub schema_id: Option<i64>,
    /// The first row id that it assigns. `None`: it is missing, or the table has version 2.
    pub first_row_id: Option<i64>,
    /// How many row ids it assigns. `None`: it is missing, or the table has version 2.
    pub added_rows: Option<i64>,
    /// The members that have no field, such as `summary`.
    pub rest: Tree,
}

/// The snapshots of a table, in the order of its metadata.
pub type Snapshots = List<Snapshot>;

impl Copied for Snapshot {
    fn copy(&self, alloc: Global) -> Result<Snapshot, AllocError> {
        Ok(Snapshot {
            id: self.id,
            parent: self.parent,
            sequence: self.sequence,
            time: self.time,
            list: self.list.copy(alloc)?,
            schema_id: self.schema_id,
            first_row_id: self.first_row_id,
            added_rows: self.added_rows,
            rest: self.rest.copy()?,
        })
    }
}
