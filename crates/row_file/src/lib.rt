//! The rows of data files: what a file stores, reading it, and writing it.
//!
//! | Crate | What it has |
//! |---|---|
//! | `stored_rows` | which fields hold the columns of a table, and which rows a file stores |
//! | `row_reading` | the columns and the rows of a file |
//! | `row_writing` | the file of rows |
#![tactic(auto)]

pub use row_reading::{CheckedRows, check_file, check_own_rows, file_columns, read_rows};
pub use row_types::CellRef;
pub use row_writing::write_rows;
pub use stored_rows::{RowRefusal, row_id, row_last};
