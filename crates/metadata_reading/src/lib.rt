//! The metadata of a table, read from its JSON text.
//!
//! | Module | What it has |
//! |---|---|
//! | `meta` | the metadata of a table |
//! | `members` | the table of its members |
//! | `braces` | how many objects a text may open |
//! | `refusal` | why a text is refused |
//! | `schemas` | the schemas and the partition specs |
//! | `reading` | the checks of the members, in their order |
//! | `metadata` | the metadata of a JSON text |
#![tactic(auto)]

mod braces;
mod members;
mod meta;
mod metadata;
mod reading;
mod refusal;
mod schemas;

pub use meta::TableMeta;
pub use metadata::read_meta;
pub use reading::items_at;
pub use refusal::MetaRefusal;
pub use schemas::find_schema;
