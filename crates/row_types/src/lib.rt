//! The plain types of a table's columns, cells and rows.
//!
//! | Module | What it has |
//! |---|---|
//! | `column`, `columns` | a column, and the columns of a table |
//! | `kind_word` | the words of the kinds of columns |
//! | `cell`, `cell_ref`, `row` | a cell, one that borrows its text, and rows |
//! | `fitting` | which cells may stand in which columns |
//! | `row_map` | rows by their ids |
#![tactic(auto)]

mod cell;
mod cell_ref;
mod column;
mod columns;
mod fitting;
mod kind_word;
mod row;
mod row_map;

pub use cell::{Cell, Cells};
pub use cell_ref::CellRef;
pub use column::{Column, Kind};
pub use columns::{Columns, ColumnsRefusal};
pub use fitting::fits;
pub use kind_word::{KIND_WORDS, kind_of_word};
pub use row::{CellRows, Row, RowList, StoredRow, StoredRows, Unnamed};
pub use row_map::RowMap;
