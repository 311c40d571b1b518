//! What is asserted of a table.

use avro_wire::Text;
use std::alloc::AllocError;
use std::process::Abort;
use std::test::*;

/// Ends the test with the number of the first row that is wrong, counted from 0, if there is one.
/// `None` instead of a number: memory ran out.
pub fn all_made(rt: &impl Abort, first_wrong: Result<Option<usize>, AllocError>) {
    assert_eq!(rt; first_wrong.ok(), Some(None));
}

/// Ends the test if what it says isn't so.
pub fn is_so(rt: &impl Abort, said: bool) {
    assert!(rt; said);
}

/// Whether this text was made.
pub fn is_text(made: Result<Text, AllocError>, wanted: &str) -> bool {
    match made {
        Ok(text) => text.as_str() == wanted,
        Err(_) => false,
    }
}
