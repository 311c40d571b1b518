//! The metadata of a table.

use avro_wire::Text;
use lists::Copied;
use row_types::Columns;
use snapshot_entries::{Snapshots, Tree};
use std::alloc::{AllocError, Global};

/// The metadata of a table. Iceberg spec, "Table Metadata Fields".
#[derive(Drop)]
pub struct TableMeta {
    /// The version of the format: 2 or 3.
    pub version: u8,
    /// The table's id.
    pub uuid: [u8; 16],
    /// The table's location: the base of its files' paths.
    pub location: Text,
    /// The sequence number of the last snapshot; 0 before the first one. It is not below 0.
    pub last_sequence: i64,
    /// When the table was last changed, in milliseconds from 1970-01-01 00:00:00 UTC.
    pub last_updated: i64,
    /// The columns of the current schema.
    pub columns: Columns,
    /// The id of the current schema.
    pub schema_id: i64,
    /// The id of the default partition spec, in 32 bits.
    pub spec_id: i64,
    /// The next row id that a commit assigns, not below 0. `None`: the table has version 2.
    pub next_row_id: Option<i64>,
    /// The id of the current snapshot. `None`: the table has no snapshot that is current.
    pub current: Option<i64>,
    /// The snapshots, in the order of the metadata.
    pub snapshots: Snapshots,
    /// The members that have no field, such as `refs` and `properties`.
    pub rest: Tree,
}

impl Copied for TableMeta {
    fn copy(&self, alloc: Global) -> Result<TableMeta, AllocError> {
        let location = self.location.copy(alloc)?;
        let columns = self.columns.copy(alloc)?;
        let snapshots = self.snapshots.copy(alloc)?;
        let rest = self.rest.copy()?;
        Ok(TableMeta {
            version: self.version,
            uuid: self.uuid,
            location,
            last_sequence: self.last_sequence,
            last_updated: self.last_updated,
            columns,
            schema_id: self.schema_id,
            spec_id: self.spec_id,
            next_row_id: self.next_row_id,
            current: self.current,
            snapshots,
            rest,
        })
    }
}
