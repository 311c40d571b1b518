//! What a table holds.

use lists::Copied;
use row_types::{RowMap, Unnamed};
use std::alloc::{AllocError, Global};

/// What a table holds at one point of its history. It names no file.
#[derive(Drop)]
pub struct State {
    /// The version of the format: 2 or 3.
    pub version: u8,
    /// The rows without ids, in the table's order.
    pub unnamed: Unnamed,
    /// The rows with ids.
    pub rows: RowMap,
    /// The next id that the table gives. `None`: it gives no ids.
    pub next: Option<i64>,
    /// The sequence number of the last commit that made a snapshot.
    pub seq: i64,
}

impl Copied for State {
    fn copy(&self, alloc: Global) -> Result<State, AllocError> {
        Ok(State {
            version: self.version,
            unnamed: self.unnamed.copy(alloc)?,
            rows: self.rows.copy(alloc)?,
            next: self.next,
            seq: self.seq,
        })
    }
}
