//! Reports by hand, read and printed.

use crate::rows::{all_made, is_so, is_text};
use crate::tables::{ToldCell, cells_of};
use avro_wire::Text;
use lists::List;
use report::{Report, ReportRefusal, print_columns, print_report, read_report};
use row_types::{Columns, Kind, Row, RowList};
use std::alloc::{AllocError, Global};
use std::test::*;

/// Bytes of a report, and the number of the first wrong line; 0: none is wrong.
type Judged = (&'static [u8], u64);

/// The line of two columns.
const SCHEMA: &str = "schema 1:long:required:\"n\" 2:string:optional:\"s\"\n";

/// Lines behind that of the columns.
static LINES: [Judged; 21] = [
    (b"start 3 0 0\nend\n", 0),
    (b"start 3 0 0\n", 3),
    (b"start 3 0 0\nend", 3),
    (b"start 256 0 0\nend\n", 2),
    (b"start 255 -7 -\nend\n", 0),
    (b"start 3 0 0 \nend\n", 2),
    (b"start 3 0 0\n\nend\n", 3),
    (b"start 3 0 0\nend \n", 3),
    (b"end\n", 2),
    (b"", 2),
    // Rows stand before entries, and have ids of their own.
    (b"start 3 1 9\nrow 5 1 7 null\nrow 4 0 8 \"a\"\nend\n", 0),
    (b"start 3 1 9\nrow 5 1 7 null\nrow 5 0 8 \"a\"\nend\n", 4),
    (b"start 2 1 -\nrow - 1 7 null\nrow - 1 7 null\nend\n", 0),
    (b"start 3 1 9\nrow 5 1 7\nend\n", 3),
    (b"start 3 1 9\nrow 5 - 7 null\nend\n", 3),
    (
        b"start 3 1 9\nentry 1 - 0 - - upgrade\nrow 5 1 7 null\nend\n",
        4,
    ),
    // Replies behind the end are passed over, whatever their bytes.
    (b"start 3 0 0\nend\nreply 1 planned\nreply \n", 0),
    (b"start 3 0 0\nend\nreply \xff\n", 0),
    (b"start 3 0 0\nend\nreply 1\nreply\n", 5),
    (b"start 3 0 0\nend\nend\n", 4),
    (b"start 3 0 0\nend\nreply 1", 4),
];

/// Columns behind the word of their line.
static COLUMN_LINES: [Judged; 10] = [
    (b"1:int:optional:\"a\" 2:int:required:\"b\"", 0),
    (b"1:int:optional:\"a\" 2:int:required:\"a\"", 1),
    (b"1:int:optional:\"a\" 1:int:required:\"b\"", 1),
    (b"2147483648:int:required:\"x\"", 1),
    (b"0:int:required:\"x\"", 1),
    (b"1:int:needed:\"x\"", 1),
    (b"1:int:required:x", 1),
    (b"1:real:required:\"x\"", 1),
    (b"1:long:required:\"\xff\"", 1),
    (b"", 1),
];

/// The three, one behind the other.
fn joined(alloc: Global, front: &str, inner: &[u8], back: &str) -> Result<Vec<u8>, AllocError> {
    let mut bytes = Vec::from_slice(alloc, front.as_bytes())?;
    bytes.extend_from_slice(inner)?;
    bytes.extend_from_slice(back.as_bytes())?;
    Ok(bytes)
}

/// Whether the line is the first wrong one of the report; 0: none is wrong.
fn is_wrong(read: &Result<Report, ReportRefusal>, wanted: u64) -> bool {
    match read {
        Ok(_) => wanted == 0,
        Err(ReportRefusal::Line { line }) => *line == wanted,
        Err(ReportRefusal::Memory) => false,
    }
}

/// Whether the line is the first wrong one of these bytes; 0: none is wrong.
fn is_judged(alloc: Global, bytes: &[u8], wanted: u64) -> bool {
    let read = read_report(alloc, bytes);
    is_wrong(&read, wanted)
}

/// The number of the first row that is read otherwise between the two texts, counted from 0.
fn first_wrong(
    alloc: Global,
    front: &str,
    rows: &[Judged],
    back: &str,
) -> Result<Option<usize>, AllocError> {
    for number in 0..rows.len() {
        let bytes = joined(alloc, front, rows[number].0, back)?;
        if !is_judged(alloc, &bytes, rows[number].1) {
            return Ok(Some(number));
        }
    }
    Ok(None)
}

/// What stands behind the columns of the reports without rows.
const END: &str = "\nstart 3 0 0\nend\n";

#[test]
fn the_first_wrong_line_is_told(rt: HostRuntime) {
    all_made(&rt, first_wrong(rt.alloc(), SCHEMA, &LINES, ""));
    all_made(&rt, first_wrong(rt.alloc(), "schema ", &COLUMN_LINES, END));
}

/// The words of the kinds.
static WORDS: [(&str, Kind); 9] = [
    ("boolean", Kind::Boolean),
    ("int", Kind::Int),
    ("long", Kind::Long),
    ("date", Kind::Date),
    ("time", Kind::Time),
    ("timestamp", Kind::Timestamp),
    ("timestamptz", Kind::Timestamptz),
    ("string", Kind::Text),
    ("binary", Kind::Bytes),
];

/// Whether the one column is required, is of this kind, and has the id 7 and the name `snö`.
fn is_column(columns: &Columns, kind: Kind) -> bool {
    match columns.get(0) {
        Some(column) => {
            let is_named = column.id == 7 && column.name.as_str() == "snö";
            is_named && column.required && column.kind == kind && columns.len() == 1
        }
        None => false,
    }
}

/// Whether the bytes are a report of such a column.
fn is_read(alloc: Global, bytes: &[u8], kind: Kind) -> bool {
    match read_report(alloc, bytes) {
        Ok(report) => is_column(&report.columns, kind),
        Err(_) => false,
    }
}

/// The number of the first word that is another kind's, counted from 0.
fn first_wrong_word(alloc: Global, words: &[(&str, Kind)]) -> Result<Option<usize>, AllocError> {
    for number in 0..words.len() {
        let bytes = joined(alloc, "schema 7:", words[number].0.as_bytes(), BEHIND)?;
        if !is_read(alloc, &bytes, words[number].1) {
            return Ok(Some(number));
        }
    }
    Ok(None)
}

/// What stands behind the word of the kind.
const BEHIND: &str = ":required:\"snö\"\nstart 3 0 0\nend\n";

#[test]
fn each_kind_has_its_word(rt: HostRuntime) {
    all_made(&rt, first_wrong_word(rt.alloc(), &WORDS));
}

/// The line of two columns, of which one has a line feed in its name.
const COLUMNS_TEXT: &str = r#"schema 1:long:required:"n" 2:string:optional:"a\nb""#;

/// A report of a table of these columns: two rows, of which one has an id, and two entries.
const WHOLE: &str = concat!(
    "schema 1:long:required:\"n\" 2:string:optional:\"a\\nb\"\n",
    "start 3 5 7\n",
    "row - 4 10 null\n",
    "row 6 5 -1 \"\\\"x\\\\\"\n",
    "entry 9 6 7 - 7+1 append 11 \"c\"\n",
    "entry 0 - - - - compact\n",
    "end\n",
);

/// A row of the report: its id, its last change, and its cells.
type ToldRow = (Option<i64>, i64, &'static [ToldCell]);

/// The rows of the report.
static ROWS: [ToldRow; 2] = [
    (None, 4, &[ToldCell::Num(10), ToldCell::Null]),
    (Some(6), 5, &[ToldCell::Num(-1), ToldCell::Text("\"x\\")]),
];

/// The rows that the table tells.
fn rows_of(alloc: Global, table: &[ToldRow]) -> Result<RowList, AllocError> {
    let mut rows = List::new(alloc);
    for told in table {
        rows.push(Row {
            id: told.0,
            last: told.1,
            cells: cells_of(alloc, told.2)?,
        })?;
    }
    Ok(rows)
}

/// The text of the report with these rows at its start.
fn printed(alloc: Global, report: &Report, rows: &RowList) -> Result<Text, AllocError> {
    let start = &report.start;
    print_report(
        alloc,
        &report.columns,
        start.version,
        start.seq,
        start.next,
        rows,
        &report.entries,
    )
}

/// The text of the report with the rows that the table tells.
fn printed_again(alloc: Global, report: &Report) -> Result<Text, AllocError> {
    let rows = rows_of(alloc, &ROWS)?;
    printed(alloc, report, &rows)
}

/// Whether the report has one row with the id 6 and one without id, each with its last change.
fn has_rows(report: &Report) -> bool {
    let start = &report.start;
    match (start.unnamed.get(0), start.rows.get(6)) {
        (Some(unnamed), Some(named)) => {
            start.unnamed.len() == 1 && start.rows.len() == 1 && unnamed.0 == 4 && named.0 == 5
        }
        _ => false,
    }
}

/// Whether the report has its rows, and is printed as the text, and its columns as theirs.
fn is_right(alloc: Global, report: &Report, text: &str, line: &str) -> bool {
    has_rows(report)
        && is_text(print_columns(alloc, &report.columns), line)
        && is_text(printed_again(alloc, report), text)
}

/// Whether the text is a report that is printed as it.
fn is_kept(alloc: Global, text: &str, line: &str) -> bool {
    match read_report(alloc, text.as_bytes()) {
        Ok(report) => is_right(alloc, &report, text, line),
        Err(_) => false,
    }
}

#[test]
fn what_is_read_is_printed_again(rt: HostRuntime) {
    is_so(&rt, is_kept(rt.alloc(), WHOLE, COLUMNS_TEXT));
}
