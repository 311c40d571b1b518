//! The cells of columns in Avro values: which types hold them, which type they are written as, and how
//! one is read.
//!
//! | Module | What it has |
//! |---|---|
//! | `kind` | which types hold the cells of a column, and the type that they are written as |
//! | `form` | how the cells of a type are read |
#![tactic(auto)]

mod form;
mod kind;

pub use form::{Form, form_of, take_cell, take_known_cell};
pub use kind::{
    CellType, Primitive, holds, is_allowed, is_null, kind_of, nullable, optional_type,
    primitive_of, written_type,
};
