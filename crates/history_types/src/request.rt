//! What is asked of a table.

use avro_wire::Text;
use lists::{Copied, List};
use row_types::CellRows;
use std::alloc::{AllocError, Global};

/// Paths of data files, each once.
pub type Paths = List<Text>;

/// What is asked of a table.
#[derive(Drop)]
pub enum Request {
    /// Rows are added: at least one.
    Append(CellRows),
    /// The rows of these files move to one new file. No path: those of all live files.
    Compact(Paths),
    /// The table gets version 3 of the format.
    Upgrade,
}

impl Copied for Request {
    fn copy(&self, alloc: Global) -> Result<Request, AllocError> {
        match self {
            Request::Append(rows) => Ok(Request::Append(rows.copy(alloc)?)),
            Request::Compact(paths) => Ok(Request::Compact(paths.copy(alloc)?)),
            Request::Upgrade => Ok(Request::Upgrade),
        }
    }
}
