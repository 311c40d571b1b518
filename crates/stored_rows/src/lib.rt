//! What a data file stores for a table: which fields hold its columns, and which rows there are.
//!
//! | Module | What it has |
//! |---|---|
//! | `refusal` | why the rows of a file can't be read or written |
//! | `field` | the field of a column, and whether the fields are those of a table |
//! | `lineage` | the id of a row, and its last change, at its position in a file |
#![tactic(auto)]

mod field;
mod lineage;
mod refusal;

pub use field::{LAST_UPDATED_FIELD, ROW_ID_FIELD, check_fields, find};
pub use lineage::{row_id, row_last};
pub use refusal::RowRefusal;
