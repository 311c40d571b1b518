//! Rows by hand, and each public function of their texts once.

use crate::answers::Answer::{Misfit, NotNull, Printed, Syntax};
use crate::answers::{Form, Line, first_wrong};
use crate::rows::{all_made, is_so, is_text};
use crate::tables::{TWO, ToldCell, cells_of, columns_of};
use avro_wire::Text;
use row_pred::{PredRefusal, print_cells, put_cell, put_cells, take_cell, take_cells};
use row_types::{Cell, Cells, Column, Columns};
use std::alloc::{AllocError, Global};
use std::test::*;

/// Rows of two columns.
static ROWS: [Line; 22] = [
    (r#"10 "a""#, Printed(r#"10 "a""#)),
    (r#"10   "a""#, Printed(r#"10 "a""#)),
    ("11 null", Printed("11 null")),
    (r#"-5 """#, Printed(r#"-5 """#)),
    (r#"null "a""#, NotNull(10)),
    (r#""a" "b""#, Misfit(0)),
    ("1 2", Misfit(2)),
    ("1  true", Misfit(3)),
    (r#"99999999999999999999 "a""#, Misfit(0)),
    // A text that is no row is refused at the first such byte.
    ("", Syntax(0)),
    (r#" 1 "a""#, Syntax(0)),
    ("1", Syntax(1)),
    ("1 ", Syntax(2)),
    (r#"1 "a" "#, Syntax(5)),
    (r#"1 "a" 2"#, Syntax(5)),
    (r#"1 "a"#, Syntax(4)),
    (r#"01 "a""#, Syntax(1)),
    (r#"-0 "a""#, Syntax(1)),
    (r#"1,"a""#, Syntax(1)),
    ("1 nul", Syntax(5)),
    ("tru", Syntax(3)),
    ("x1", Syntax(2)),
];

/// Rows of a column of each kind: an int and a date have 32 bits, and no kind has another one's
/// cells.
static KINDS: [Line; 13] = [
    (
        "null null null null null null null null null",
        Printed("null null null null null null null null null"),
    ),
    (
        r#"true 2147483647 2147483648 -2147483648 1 2 3 "a" x00ff"#,
        Printed(r#"true 2147483647 2147483648 -2147483648 1 2 3 "a" x00ff"#),
    ),
    (
        r#"true 2147483647 -9223372036854775808 -2147483648 0 2 3 "a\n\r\t\"\\" x00ff"#,
        Printed(r#"true 2147483647 -9223372036854775808 -2147483648 0 2 3 "a\n\r\t\"\\" x00ff"#),
    ),
    (
        r#"false 0 null -1 null 10 -10 "" x"#,
        Printed(r#"false 0 null -1 null 10 -10 "" x"#),
    ),
    ("true 2147483648", Misfit(5)),
    ("true -2147483649", Misfit(5)),
    ("true 1 2 2147483648", Misfit(9)),
    ("true 1 9223372036854775808", Misfit(7)),
    ("1", Misfit(0)),
    ("true true", Misfit(5)),
    ("true 1 2 3 4 5 x06", Misfit(15)),
    ("true 1 2 3 4 5 6 x07", Misfit(17)),
    (r#"true 1 2 3 4 5 6 "a" "b""#, Misfit(21)),
];

#[test]
fn a_row_has_a_cell_of_its_kind_and_range_for_each_column(rt: HostRuntime) {
    all_made(&rt, first_wrong(rt.alloc(), Form::Row, &ROWS));
    all_made(&rt, first_wrong(rt.alloc(), Form::KindRow, &KINDS));
}

/// Rows, and how they are printed.
static SHOWN: [(&[ToldCell], &str); 2] = [
    (
        &[
            ToldCell::Num(10),
            ToldCell::Text("a\n\"\\"),
            ToldCell::Null,
            ToldCell::Flag(true),
            ToldCell::Flag(false),
            ToldCell::Bytes(&[0, 255]),
        ],
        r#"10 "a\n\"\\" null true false x00ff"#,
    ),
    (&[], ""),
];

/// The text of the cells that the table tells.
fn printed(alloc: Global, told: &[ToldCell]) -> Result<Text, AllocError> {
    let cells = cells_of(alloc, told)?;
    print_cells(alloc, &cells)
}

/// The number of the first row that is printed otherwise, counted from 0.
fn first_printed_otherwise(alloc: Global, rows: &[(&[ToldCell], &str)]) -> Option<usize> {
    for number in 0..rows.len() {
        if !is_text(printed(alloc, rows[number].0), rows[number].1) {
            return Some(number);
        }
    }
    None
}

/// Puts cells behind other text.
fn put_behind(out: &mut String) -> Result<(), AllocError> {
    put_cell(out, &Cell::Num(-1))?;
    out.push_str(": ")?;
    put_cells(out, &[Cell::Null, Cell::Num(2)])
}

/// The cells behind the text that is there.
fn text_behind(alloc: Global) -> Result<Text, AllocError> {
    let mut out = String::from_str(alloc, "row ")?;
    put_behind(&mut out)?;
    Ok(Text::from_string(out))
}

#[test]
fn cells_are_put_behind_the_text_that_is_there_with_a_space_between_them(rt: HostRuntime) {
    all_made(&rt, Ok(first_printed_otherwise(rt.alloc(), &SHOWN)));
    is_so(&rt, is_text(text_behind(rt.alloc()), "row -1: null 2"));
}

/// Two rows behind a word, with a mark between them.
const TWO_ROWS: &str = r#"append 1 "a" ; 2 null"#;

/// Whether so many cells were taken, up to this place.
fn is_row(taken: &Result<(Cells, usize), PredRefusal>, count: usize, end: usize) -> bool {
    match taken {
        Ok((cells, after)) => cells.len() == count && *after == end,
        Err(_) => false,
    }
}

/// Whether the row at the place has so many cells, and ends there.
fn ends_row(alloc: Global, columns: &[Column], place: usize, count: usize, end: usize) -> bool {
    if place > TWO_ROWS.len() {
        return false;
    }
    let taken = take_cells(alloc, TWO_ROWS, place, columns);
    is_row(&taken, count, end)
}

/// Whether this number was taken, up to this place.
fn is_number(taken: &Result<(Cell, usize), PredRefusal>, number: i64, end: usize) -> bool {
    match taken {
        Ok((Cell::Num(found), after)) => *found == number && *after == end,
        _ => false,
    }
}

/// Whether the cell at the place is this number, and ends there.
fn ends_number(alloc: Global, column: &Column, place: usize, number: i64, end: usize) -> bool {
    if place > TWO_ROWS.len() {
        return false;
    }
    let taken = take_cell(alloc, TWO_ROWS, place, column);
    is_number(&taken, number, end)
}

/// Whether the first cell of the first row ends where its digits do.
fn ends_first(alloc: Global, columns: &Columns) -> bool {
    match columns.get(0) {
        Some(column) => ends_number(alloc, column, 7, 1, 8),
        None => false,
    }
}

/// Whether both rows end where their last cells do, and the first cell where its digits do.
fn end_so(alloc: Global, columns: &Columns) -> bool {
    ends_row(alloc, columns.as_slice(), 7, 2, 12)
        && ends_row(alloc, columns.as_slice(), 15, 2, 21)
        && ends_first(alloc, columns)
}

/// The same in two columns.
fn end_all(alloc: Global) -> bool {
    match columns_of(alloc, &TWO) {
        Ok(columns) => end_so(alloc, &columns),
        Err(_) => false,
    }
}

#[test]
fn a_row_ends_where_its_last_cell_does(rt: HostRuntime) {
    is_so(&rt, end_all(rt.alloc()));
}
