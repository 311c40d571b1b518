//! Tests of `row_file`: data files with their columns, their rows or their refusals, and files
//! that are written.
//!
//! | Module | What it has |
//! |---|---|
//! | `rows` | what is asserted of a table |
//! | `files` | a file of a schema and of blocks, columns, and refusals, as tables name them |
//! | `lineage` | the id of a row, and its last change |
//! | `columns` | the columns of files, by their own schemas |
//! | `reading` | the rows of files |
//! | `writing` | files of rows |
#![tactic(auto)]

#[cfg(test)]
mod columns;
#[cfg(test)]
mod files;
#[cfg(test)]
mod lineage;
#[cfg(test)]
mod reading;
#[cfg(test)]
mod rows;
#[cfg(test)]
mod writing;
