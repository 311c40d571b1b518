//! The language in which cells of rows are written.
//!
//! | Module | What it has |
//! |---|---|
//! | `refusal` | why a text is no row of cells |
//! | `cell` | one cell |
//! | `cells` | the cells of a row |
#![tactic(auto)]

mod cell;
mod cells;
mod refusal;

pub use cell::{put_cell, take_cell};
pub use cells::{print_cells, put_cells, read_cells, take_cells};
pub use refusal::PredRefusal;
