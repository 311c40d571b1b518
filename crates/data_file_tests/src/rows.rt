//! What is asserted of a table.

use std::process::Abort;
use std::test::*;

/// Ends the test with the number of the first row that is wrong, counted from 0, if there is one.
pub fn all_right(rt: &impl Abort, first_wrong: Option<usize>) {
    assert_eq!(rt; first_wrong, None);
}
