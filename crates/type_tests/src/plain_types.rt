//! Lists, columns, rows by their ids, and copies.

use avro_wire::{Bytes, Text};
use lists::{Copied, List};
use lt_base::{Column, Columns, ColumnsRefusal, Kind, Row, RowMap, StoredRow};
use report::{Report, read_report};
use std::alloc::{AllocError, Global};
use std::test::*;

/// What a list of columns is answered with: so many columns, or the first fault.
enum Found {
    Columns(usize),
    Count(u64),
    Id(i32),
    Name(&'static str),
}

/// The ids and the names of columns, and what they are answered with.
type Listed = (&'static [(i32, &'static str)], Found);

/// A name of 255 bytes.
const LONGEST: &str = concat!(
    "aaaaaaaaaaaaaaaaaaaaaaaaaaaaaaaaaaaaaaaaaaaaaaaaaaa",
    "aaaaaaaaaaaaaaaaaaaaaaaaaaaaaaaaaaaaaaaaaaaaaaaaaaa",
    "aaaaaaaaaaaaaaaaaaaaaaaaaaaaaaaaaaaaaaaaaaaaaaaaaaa",
    "aaaaaaaaaaaaaaaaaaaaaaaaaaaaaaaaaaaaaaaaaaaaaaaaaaa",
    "aaaaaaaaaaaaaaaaaaaaaaaaaaaaaaaaaaaaaaaaaaaaaaaaaaa",
);

/// A name of 256 bytes.
const TOO_LONG: &str = concat!(
    "aaaaaaaaaaaaaaaaaaaaaaaaaaaaaaaaaaaaaaaaaaaaaaaaaaa",
    "aaaaaaaaaaaaaaaaaaaaaaaaaaaaaaaaaaaaaaaaaaaaaaaaaaa",
    "aaaaaaaaaaaaaaaaaaaaaaaaaaaaaaaaaaaaaaaaaaaaaaaaaaa",
    "aaaaaaaaaaaaaaaaaaaaaaaaaaaaaaaaaaaaaaaaaaaaaaaaaaa",
    "aaaaaaaaaaaaaaaaaaaaaaaaaaaaaaaaaaaaaaaaaaaaaaaaaaa",
    "a",
);

static LISTS: [Listed; 10] = [
    (&[], Found::Count(0)),
    (&[(0, "a")], Found::Id(0)),
    (&[(1, "a"), (2_147_483_448, "b")], Found::Id(2_147_483_448)),
    (&[(1, "a"), (2, "b"), (1, "c"), (2, "d")], Found::Id(1)),
    (&[(1, "a"), (2, "")], Found::Name("")),
    (&[(1, "a"), (2, "b"), (3, "a")], Found::Name("a")),
    (&[(1, TOO_LONG)], Found::Name(TOO_LONG)),
    // The ids are looked at before the names.
    (&[(1, ""), (1, "b")], Found::Id(1)),
    (&[(1, "b"), (2, "b"), (-1, "c")], Found::Id(-1)),
    (
        &[(1, "b"), (2, LONGEST), (2_147_483_447, "c")],
        Found::Columns(3),
    ),
];

/// How many columns there are, and what they are answered with.
static COUNTS: [(i32, Found); 2] = [(200, Found::Columns(200)), (201, Found::Count(201))];

/// A column of this id and name.
fn column(alloc: Global, id: i32, name: &str) -> Result<Column, AllocError> {
    Ok(Column {
        id,
        name: Text::from_str(alloc, name)?,
        kind: Kind::Long,
        required: false,
    })
}

/// Columns of these ids and names.
fn list_of(alloc: Global, table: &[(i32, &str)]) -> Result<Vec<Column>, AllocError> {
    let mut columns = Vec::new(alloc);
    for told in table {
        columns.push(column(alloc, told.0, told.1)?)?;
    }
    Ok(columns)
}

/// So many columns, `c1` and so on.
fn numbered(alloc: Global, count: i32) -> Result<Vec<Column>, AllocError> {
    let mut columns = Vec::new(alloc);
    for id in 1..=count {
        let name = format!(in alloc; "c{id}")?;
        columns.push(column(alloc, id, name.as_str())?)?;
    }
    Ok(columns)
}

/// Whether the list is answered so.
fn is_found(list: Vec<Column>, found: &Found) -> bool {
    match Columns::from_list(list) {
        Ok(columns) => has_count(&columns, found),
        Err(refusal) => is_refused(&refusal, found),
    }
}

/// Whether there are to be so many columns.
fn has_count(columns: &Columns, found: &Found) -> bool {
    match found {
        Found::Columns(count) => columns.len() == *count,
        _ => false,
    }
}

/// Whether the first fault is to be this one.
fn is_refused(refusal: &ColumnsRefusal, found: &Found) -> bool {
    match (refusal, found) {
        (ColumnsRefusal::Count { found }, Found::Count(count)) => *found == *count,
        (ColumnsRefusal::Id { id }, Found::Id(wanted)) => *id == *wanted,
        (ColumnsRefusal::Name { name }, Found::Name(wanted)) => name.as_str() == *wanted,
        _ => false,
    }
}

/// The number of the first list that is answered otherwise, counted from 0.
fn first_wrong_list(alloc: Global, lists: &[Listed]) -> Result<Option<usize>, AllocError> {
    for number in 0..lists.len() {
        if !is_found(list_of(alloc, lists[number].0)?, &lists[number].1) {
            return Ok(Some(number));
        }
    }
    Ok(None)
}

/// The number of the first count that is answered otherwise, counted from 0.
fn first_wrong_count(alloc: Global, counts: &[(i32, Found)]) -> Result<Option<usize>, AllocError> {
    for number in 0..counts.len() {
        if !is_found(numbered(alloc, counts[number].0)?, &counts[number].1) {
            return Ok(Some(number));
        }
    }
    Ok(None)
}

#[test]
fn columns_are_refused_by_their_first_fault(rt: HostRuntime) -> Result<(), Fail> {
    assert_eq!(rt; first_wrong_list(rt.alloc(), &LISTS)?, None);
    assert_eq!(rt; first_wrong_count(rt.alloc(), &COUNTS)?, None);
    Ok(())
}

/// The ids and the last changes of rows, in the order in which they are put.
static PUT: [(i64, i64); 4] = [(7, 1), (-3, 2), (7, 3), (0, 4)];

/// Rows without cells.
fn rows_of(alloc: Global, table: &[(i64, i64)]) -> Result<RowMap, AllocError> {
    let mut rows = RowMap::new(alloc);
    for told in table {
        rows.insert(told.0, told.1, List::new(alloc))?;
    }
    Ok(rows)
}

/// Whether the rows have these ids, in this order.
fn has_ids(rows: &RowMap, ids: &[i64]) -> bool {
    let mut place = 0;
    for (id, _) in rows.iter() {
        if place >= ids.len() {
            return false;
        }
        if ids[place] != *id {
            return false;
        }
        place += 1;
    }
    place == ids.len()
}

/// Whether the rows stand by rising id, and each id has the row that was put at it last.
fn are_sorted(rows: &RowMap) -> bool {
    let has_last = match rows.get(7) {
        Some(row) => row.0 == 3,
        None => false,
    };
    has_last && rows.get(1).is_none() && has_ids(rows, &[-3, 0, 7])
}

#[test]
fn rows_stand_by_rising_id(rt: HostRuntime) -> Result<(), Fail> {
    let rows = rows_of(rt.alloc(), &PUT)?;
    assert!(rt; are_sorted(&rows));
    Ok(())
}

/// Two numbers.
fn two_numbers(alloc: Global) -> Result<List<i64>, AllocError> {
    let mut list = List::new(alloc);
    list.push(7)?;
    list.push(-7)?;
    Ok(list)
}

/// Whether the list has the two numbers, in their order.
fn has_both(list: &List<i64>) -> bool {
    let has_last = match list.get(1) {
        Some(number) => *number == -7,
        None => false,
    };
    has_last && list.get(2).is_none() && !list.is_empty() && list.len() == 2
}

#[test]
fn a_list_keeps_its_items_in_order(rt: HostRuntime) -> Result<(), Fail> {
    let list = two_numbers(rt.alloc())?;
    assert!(rt; has_both(&list));
    let again = List::from_vec(list.into_vec());
    assert_eq!(rt; again.as_slice(), [7, -7].as_slice());
    Ok(())
}

/// A report with a cell of each kind, in rows with and without id and in an append, and an entry
/// of each request.
const EACH_KIND: &str = concat!(
    "schema 1:boolean:optional:\"b\" 2:long:optional:\"n\" ",
    "3:string:optional:\"s\" 4:binary:optional:\"x\"\n",
    "start 3 4 10\n",
    "row - 1 true -5 \"text\" x0102\n",
    "row 9 1 null 5 \"\" x\n",
    "entry 1 2 6 4+2 5+2 append false 1 \"a\" x01\n",
    "entry 1 3 6 - - compact \"path\"\n",
    "entry 1 - 0 - - upgrade\n",
    "end\n",
);

/// Whether a copy is made, where memory is left.
fn is_copied<T: Copied>(alloc: Global, value: &T) -> bool {
    value.copy(alloc).is_ok()
}

/// Whether the columns, the state and the entries of the report are copied.
fn is_report_copied(alloc: Global, report: &Report) -> bool {
    is_copied(alloc, &report.columns)
        && is_copied(alloc, &report.start)
        && is_copied(alloc, &report.entries)
}

/// Whether rows are copied.
fn are_rows_copied(alloc: Global) -> bool {
    let row = Row {
        id: Some(1),
        last: 2,
        cells: List::new(alloc),
    };
    let stored = StoredRow {
        id: None,
        last: Some(3),
        cells: List::new(alloc),
    };
    is_copied(alloc, &row) && is_copied(alloc, &stored)
}

/// Whether numbers, options and pairs are copied.
fn are_numbers_copied(alloc: Global) -> bool {
    is_copied(alloc, &true)
        && is_copied(alloc, &(200_u8, None::<bool>))
        && is_copied(alloc, &(7_u32, 8_u64))
        && is_copied(alloc, &(-7_i32, Some(-8_i64)))
}

/// Whether texts and bytes are copied.
fn are_texts_copied(alloc: Global) -> Result<bool, AllocError> {
    let pair = (Text::from_str(alloc, "a")?, Bytes::from_slice(alloc, &[1])?);
    Ok(is_copied(alloc, &pair))
}

/// The report that the text is.
fn report_of(alloc: Global, text: &str) -> Result<Report, AllocError> {
    match read_report(alloc, text.as_bytes()) {
        Ok(report) => Ok(report),
        Err(_) => Err(AllocError),
    }
}

#[test]
fn a_copy_can_be_made(rt: HostRuntime) -> Result<(), Fail> {
    assert!(rt; are_rows_copied(rt.alloc()));
    assert!(rt; are_numbers_copied(rt.alloc()));
    assert!(rt; are_texts_copied(rt.alloc())?);
    let report = report_of(rt.alloc(), EACH_KIND)?;
    assert!(rt; is_report_copied(rt.alloc(), &report));
    Ok(())
}
