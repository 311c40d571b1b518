//! The columns of a schema of table metadata, read from its JSON object, and the object of columns.
//!
//! | Module | What it has |
//! |---|---|
//! | `members` | the table of a column's members |
//! | `kind` | the kind that a type's word names |
//! | `refusal` | why a schema has no columns that rowline can use |
//! | `column` | one column of a list |
//! | `reading` | the columns of a schema |
//! | `printing` | the object of columns |
#![tactic(auto)]

mod column;
mod kind;
mod members;
mod printing;
mod reading;
mod refusal;

pub use printing::schema_members;
pub use reading::read_columns;
pub use refusal::ColumnRefusal;
