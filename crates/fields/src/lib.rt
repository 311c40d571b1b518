//! The fields of a record that a caller wants, by their ids.
//!
//! | Module | What it has |
//! |---|---|
//! | `refusal` | why a record does not have the wanted fields |
//! | `leaf`, `empty` | the fields of a record and of the records in it; which types take no bytes |
//! | `wanted` | which field holds what is wanted |
//! | `layout` | how the records of a schema are read |
//! | `taking`, `passing` | one record, borrowed from its bytes; the same check without the cells |
#![tactic(auto)]

mod empty;
mod layout;
mod leaf;
mod passing;
mod refusal;
mod taking;
mod wanted;

pub use layout::{Layout, lay_out};
pub use passing::pass_record;
pub use refusal::FieldRefusal;
pub use taking::{Cells, nulls, record_agrees, take_known_record, take_record};
pub use wanted::{Wanted, fields_of};
