//! What is asserted of a table, and the schema that a row names.

use avro_schema::{Schema, read_schema};
use std::alloc::{AllocError, Global};
use std::process::Abort;
use std::test::*;

/// Ends the test with the number of the first row that is wrong, counted from 0, if there is one.
pub fn all_right(rt: &impl Abort, first_wrong: Option<usize>) {
    assert_eq!(rt; first_wrong, None);
}

/// The same of a table whose rows take memory. `None` instead of a number: memory ran out.
pub fn all_made(rt: &impl Abort, first_wrong: Result<Option<usize>, AllocError>) {
    assert_eq!(rt; first_wrong.ok(), Some(None));
}

/// Ends the test if what it says isn't so.
pub fn is_so(rt: &impl Abort, said: bool) {
    assert!(rt; said);
}

/// The schema of the text. `None`: it is none, or memory ran out.
pub fn schema_of(alloc: Global, text: &str) -> Option<Schema> {
    read_schema(alloc, text.as_bytes()).ok()
}

/// Whether this text was made.
pub fn is_text(made: Result<String, AllocError>, wanted: &str) -> bool {
    match made {
        Ok(text) => text.as_str() == wanted,
        Err(_) => false,
    }
}
