//! A column of a table.

use avro_wire::Text;
use lists::Copied;
use std::alloc::{AllocError, Global};

/// What the cells of a column are. Iceberg spec, "Primitive Types".
#[derive(Clone, Copy, PartialEq, Eq)]
pub enum Kind {
    Boolean,
    /// Numbers of 32 bits.
    Int,
    /// Numbers of 64 bits.
    Long,
    /// Days from 1970-01-01, in 32 bits.
    Date,
    /// Microseconds from midnight.
    Time,
    /// Microseconds from 1970-01-01 00:00:00, in no time zone.
    Timestamp,
    /// Microseconds from 1970-01-01 00:00:00 UTC.
    Timestamptz,
    Text,
    Bytes,
}

/// A column of a table. Iceberg spec, "Nested Types".
#[derive(Drop)]
pub struct Column {
    /// The field id, by which files name the column.
    pub id: i32,
    pub name: Text,
    pub kind: Kind,
    /// Whether no cell of the column may be null.
    pub required: bool,
}

impl Copied for Column {
    fn copy(&self, alloc: Global) -> Result<Column, AllocError> {
        Ok(Column {
            id: self.id,
            name: self.name.copy(alloc)?,
            kind: self.kind,
            required: self.required,
        })
    }
}
