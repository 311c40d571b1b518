//! The rows of data files, read.
//!
//! | Module | What it has |
//! |---|---|
//! | `opening` | a file's blocks, and its schema |
//! | `columns` | the columns of a file, by its own schema |
//! | `row` | what a row is, as a record of the fields of its columns |
//! | `counts` | the checks of how many rows a file has |
//! | `unchecked` | the rows of a file before they are checked |
//! | `checked` | the rows of a file that was checked |
//! | `reading` | reading all rows of a file |
//! | `law` | what the reading of a file and what it stores have to do with each other |
#![tactic(auto)]

mod checked;
mod columns;
mod counts;
mod law;
mod opening;
mod reading;
mod row;
mod unchecked;

pub use checked::{CheckedRows, check_file, check_own_rows};
pub use columns::file_columns;
pub use law::reading_agrees;
pub use reading::read_rows;
