//! Calls that fail or move few bytes, and inputs at their limits.

use crate::running::Part::Zeros;
use crate::running::{
    AMPLE, AUDIT, Case, Input, Outside, REPORT, ROWS, Ran, THREE_LINES, THREE_ROWS, bytes_of,
    ends_so, first_wrong, run,
};
use std::alloc::{AllocError, Global};
use std::test::Fail;

/// Runs with calls that fail or move few bytes.
static CALLS: [(Outside, Case); 5] = [
    // The second read of `rows` fails.
    (
        (100, &[2], &[], &[]),
        (ROWS, THREE_ROWS, 5, "", "rowline: fault InputFault\n"),
    ),
    // The second write fails, and so does the second one of the line.
    (
        (10, &[], &[2], &[2]),
        (ROWS, THREE_ROWS, 5, "1000 7 10 ", "rowline: f"),
    ),
    // Each call moves one byte.
    ((1, &[], &[], &[]), (ROWS, THREE_ROWS, 0, THREE_LINES, "")),
    // The second read of `audit` fails.
    (
        (10, &[2], &[], &[]),
        (AUDIT, REPORT, 5, "", "rowline: fault InputFault\n"),
    ),
    // Its second write fails.
    (
        (6, &[], &[2], &[]),
        (AUDIT, REPORT, 5, "legal ", "rowline: fault OutFault\n"),
    ),
];

/// The first of the runs that doesn't end so, counted from 0.
fn first_wrong_outside(
    alloc: Global,
    cases: &[(Outside, Case)],
) -> Result<Option<usize>, AllocError> {
    for at in 0..cases.len() {
        let (outside, case) = &cases[at];
        if !ends_so(alloc, outside, case)? {
            return Ok(Some(at));
        }
    }
    Ok(None)
}

#[test]
fn a_call_that_fails_is_told_and_what_was_written_stays(rt: HostRuntime) -> Result<(), Fail> {
    assert_eq!(rt; first_wrong_outside(rt.alloc(), &CALLS)?, None);
    Ok(())
}

/// Inputs as large as they may be, and a byte larger.
static LIMITS: [Case; 4] = [
    (ROWS, &[Zeros(67_108_864)], 3, "", "rowline: table Magic\n"),
    (
        ROWS,
        &[Zeros(67_108_865)],
        7,
        "",
        "rowline: limit Input 67108865\n",
    ),
    (AUDIT, &[Zeros(16_777_216)], 2, "", "rowline: input 1\n"),
    (
        AUDIT,
        &[Zeros(16_777_217)],
        7,
        "",
        "rowline: limit Input 16777217\n",
    ),
];

#[test]
fn an_input_above_its_limit_is_refused(rt: HostRuntime) -> Result<(), Fail> {
    assert_eq!(rt; first_wrong(rt.alloc(), &LIMITS)?, None);
    Ok(())
}

/// A file, and how many bytes its header has.
static CUT: (Input, usize) = (THREE_ROWS, 199);

/// The least length of a front of the file that `rows` doesn't refuse, and of its header alone that
/// it refuses.
fn first_wrong_front(
    alloc: Global,
    file: &[u8],
    header: usize,
) -> Result<Option<usize>, AllocError> {
    for length in 0..file.len() {
        let ran = run(alloc, &AMPLE, ROWS, &file[..length])?;
        if !ends_without_a_row(&ran, length == header) {
            return Ok(Some(length));
        }
    }
    Ok(None)
}

/// Whether the run printed no row: for the header alone it answers, and for any other front it
/// refuses.
fn ends_without_a_row(ran: &Ran, is_header: bool) -> bool {
    let status = if is_header { 0 } else { 3 };
    ran.status == status && ran.out.is_empty() && ran.err.is_empty() == is_header
}

#[test]
fn a_file_that_is_cut_prints_no_row(rt: HostRuntime) -> Result<(), Fail> {
    let alloc = rt.alloc();
    let (input, header) = &CUT;
    let file = bytes_of(alloc, input)?;
    assert_eq!(rt; file.len(), 227);
    assert_eq!(rt; first_wrong_front(alloc, &file, *header)?, None);
    Ok(())
}
