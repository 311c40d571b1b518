//! Words that ask for no command.

use crate::running::{Case, REPORT, THREE_ROWS, first_wrong};
use std::test::Fail;

/// Words of no form, each before an input that the nearest form would answer.
static WORDS: [Case; 16] = [
    (&[], THREE_ROWS, 1, "", "rowline: usage\n"),
    (&["rows"], THREE_ROWS, 1, "", "rowline: usage\n"),
    (&["rows", "1000"], THREE_ROWS, 1, "", "rowline: usage\n"),
    (
        &["rows", "1000", "7", "8"],
        THREE_ROWS,
        1,
        "",
        "rowline: usage\n",
    ),
    (&["row", "1000", "7"], THREE_ROWS, 1, "", "rowline: usage\n"),
    (&["rows", "--", "7"], THREE_ROWS, 1, "", "rowline: usage\n"),
    (&["rows", "-", "-"], THREE_ROWS, 1, "", "rowline: usage\n"),
    (&["rows", "-1", "7"], THREE_ROWS, 1, "", "rowline: usage\n"),
    (&["rows", "+1", "7"], THREE_ROWS, 1, "", "rowline: usage\n"),
    (&["rows", "01", "7"], THREE_ROWS, 1, "", "rowline: usage\n"),
    (&["rows", "", "7"], THREE_ROWS, 1, "", "rowline: usage\n"),
    (
        &["rows", "9223372036854775808", "7"],
        THREE_ROWS,
        1,
        "",
        "rowline: usage\n",
    ),
    (
        &["rows", "1000", "9223372036854775808"],
        THREE_ROWS,
        1,
        "",
        "rowline: usage\n",
    ),
    (&["audit", "x"], REPORT, 1, "", "rowline: usage\n"),
    (&["audits"], REPORT, 1, "", "rowline: usage\n"),
    (&["x", "audit"], REPORT, 1, "", "rowline: usage\n"),
];

#[test]
fn words_without_a_form_are_refused(rt: HostRuntime) -> Result<(), Fail> {
    assert_eq!(rt; first_wrong(rt.alloc(), &WORDS)?, None);
    Ok(())
}
