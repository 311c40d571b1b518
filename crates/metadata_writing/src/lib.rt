//! The metadata of a table, printed as a JSON text.
//!
//! | Module | What it has |
//! |---|---|
//! | `fields` | the members of the metadata's object |
//! | `printing` | the text of the metadata |
//! | `schema` | the text of the current schema |
#![tactic(auto)]

mod fields;
mod printing;
mod schema;

pub use printing::print_meta;
pub use schema::schema_text;
