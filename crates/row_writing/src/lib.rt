//! The rows of data files, written.
//!
//! | Module | What it has |
//! |---|---|
//! | `file_schema` | the schema of a file that is written |
//! | `row_bytes` | the bytes of a row |
//! | `writing` | the file of rows |
#![tactic(auto)]

mod file_schema;
mod row_bytes;
mod writing;

pub use writing::write_rows;
