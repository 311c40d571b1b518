//! The printed report of a history: the columns, the state that it begins with, and its entries.
//!
//! | Module | What it has |
//! |---|---|
//! | `refusal` | why bytes are no report |
//! | `schema_line` | the line of the columns |
//! | `start_line` | the line of the state at the start, without its rows |
//! | `row_line` | the line of a row |
//! | `stage` | one line behind those that were read |
//! | `reading` | all lines of a report, whose entries are taken one by one |
//! | `whole` | a report with all its entries |
//! | `printing` | reports as they are printed |
#![tactic(auto)]

mod printing;
mod reading;
mod refusal;
mod row_line;
mod schema_line;
mod stage;
mod start_line;
mod whole;

pub use printing::{print_columns, print_report};
pub use reading::read_entries;
pub use refusal::ReportRefusal;
pub use whole::{Report, read_report};
