//! The engine's plain types and its limits, under one name.
//!
//! They stand in `limits`, `row_types`, `history_types` and `file_types`. The crates of rowline name
//! those, so that a change of one doesn't reach the users of the others.
#![tactic(auto)]

pub use file_types::{
    Bounds, Counts, FileEntries, FileEntry, Firsts, Ints, ListEntries, ListEntry, Longs, Stats,
    Status,
};
pub use history_types::{Entries, Entry, Paths, Request, Run, Runs, State};
pub use limits::Which;
pub use row_types::{
    Cell, CellRows, Cells, Column, Columns, ColumnsRefusal, Kind, Row, RowList, RowMap, StoredRow,
    StoredRows, Unnamed,
};
