//! Avro schemas, read from their JSON texts and printed as such. Their trees are those of `schema_tree`.
//!
//! | Module | What it has |
//! |---|---|
//! | `refusal` | why a text is no schema, and refusals under the pieces of a path |
//! | `seen` | the names that were defined so far |
//! | `member` | the members of a JSON object |
//! | `primitive` | primitive types, and what their numbers stand for |
//! | `definition` | enums, fixed types, and the name of any definition |
//! | `reading`, `law` | the schema of a text; what it has to do with the meaning of the text |
//! | `printing` | the text of a schema |
#![tactic(auto)]

mod definition;
mod law;
mod member;
mod primitive;
mod printing;
mod reading;
mod refusal;
mod seen;

pub use law::reading_agrees;
pub use printing::print_schema;
pub use reading::read_schema;
pub use refusal::SchemaRefusal;
pub use schema_tree::{Branches, Field, Fields, Logical, Name, Names, Schema};
