//! The trees of Avro schemas, with their names and ids.
//!
//! | Module | What it has |
//! |---|---|
//! | `schema` | the tree of a schema, and its copy |
//! | `logical` | what a number stands for, and the attributes that say it |
//! | `name` | full names and namespaces |
//! | `measure` | how deep and how large a schema is, as far as a limit asks |
#![tactic(auto)]

mod logical;
mod measure;
mod name;
mod schema;

pub use logical::{Attributes, Logical};
pub use measure::{is_within, take_size};
pub use name::{full_name, namespace_of};
pub use schema::{Branches, Field, Fields, Name, Names, Schema};
