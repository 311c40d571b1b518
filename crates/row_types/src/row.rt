//! Rows.

use crate::cell::Cells;
use lists::{Copied, List};
use std::alloc::{AllocError, Global};

/// A row of a table, as a reader sees it. Iceberg spec, "Row Lineage".
#[derive(Drop)]
pub struct Row {
    /// The row's id. `None`: the table has not given it one.
    pub id: Option<i64>,
    /// The sequence number of the commit that last changed the row.
    pub last: i64,
    pub cells: Cells,
}

/// A row as a data file holds it. Iceberg spec, "Row Lineage".
#[derive(Drop)]
pub struct StoredRow {
    /// The stored id. `None`: the file's first id and the row's place give it.
    pub id: Option<i64>,
    /// The stored sequence number of the last change. `None`: the file's entry gives it.
    pub last: Option<i64>,
    pub cells: Cells,
}

/// The cells of rows that a request brings, row by row.
pub type CellRows = List<Cells>;

/// Rows of a table, in its order.
pub type RowList = List<Row>;

/// The rows of a data file, in its order.
pub type StoredRows = List<StoredRow>;

/// The rows that have no id, in the table's order: of each the sequence number of the last change,
/// and the cells.
pub type Unnamed = List<(i64, Cells)>;

impl Copied for Row {
    fn copy(&self, alloc: Global) -> Result<Row, AllocError> {
        Ok(Row {
            id: self.id,
            last: self.last,
            cells: self.cells.copy(alloc)?,
        })
    }
}

impl Copied for StoredRow {
    fn copy(&self, alloc: Global) -> Result<StoredRow, AllocError> {
        Ok(StoredRow {
            id: self.id,
            last: self.last,
            cells: self.cells.copy(alloc)?,
        })
    }
}
