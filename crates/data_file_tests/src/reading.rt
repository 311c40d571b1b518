//! The rows of files, or their refusals.

use crate::files::{Named, Refused, Told, columns_of, file_of, is_refused};
use crate::rows::all_right;
use row_file::{CellRef, RowRefusal, read_rows};
use row_types::{Cell, Columns, Kind, Row, RowList};
use std::alloc::Global;
use std::test::*;

/// A row: its id, its last change and its cells.
type Shown = (Option<i64>, i64, &'static [CellRef<'static>]);

/// A file of these blocks, the columns that are asked of it, and its rows or, in place of them, the
/// refusal. The file's sequence number is 7.
struct Case {
    schema: &'static str,
    blocks: &'static [Told],
    columns: &'static [Named],
    first: Option<i64>,
    told: Option<i64>,
    rows: &'static [Shown],
    refused: Option<Refused>,
}

const MIXED: &str =
    r#"{"type":"record","name":"row","fields":[{"name":"more","type":{"type":"array","items":"long","element-id":9},"field-id":8},{"name":"s","type":["string","null"],"field-id":2},{"name":"n","type":"int","field-id":1},{"name":"again","type":"long","field-id":1}]}"#;

const WITH_LINEAGE: &str =
    r#"{"type":"record","name":"row","fields":[{"name":"_row_id","type":["null","long"],"field-id":2147483540},{"name":"n","type":"long","field-id":1},{"name":"_last_updated_sequence_number","type":["null","int"],"field-id":2147483539}]}"#;

const WITH_BARE_FIELDS: &str =
    r#"{"type":"record","name":"row","fields":[{"name":"more","type":{"type":"map","values":["null",{"type":"record","name":"inner","fields":[{"name":"a","type":"null"},{"name":"b","type":{"type":"fixed","name":"none","size":0}},{"name":"c","type":"boolean"},{"name":"d","type":{"type":"record","name":"bare","fields":[{"name":"e","type":"null"}]}}]}]},"field-id":8},{"name":"n","type":"long","field-id":1}]}"#;

const TWO_ROWS: &[Told] = &[(2, &[4, 2, 4, 0, 0, 2, 97, 20, 2, 0, 2, 1, 4])];

const BOTH: &[Named] = &[(1, "c1", Kind::Long, true), (2, "c2", Kind::Text, false)];

/// Files that are read as the rows that they store, or refused.
static CASES: [Case; 17] = [
    // Columns are found by their ids, the first field of two; other fields are passed over.
    Case {
        schema: MIXED,
        blocks: TWO_ROWS,
        columns: BOTH,
        first: Some(1000),
        told: Some(2),
        rows: &[
            (Some(1000), 7, &[CellRef::Num(10), CellRef::Text("a")]),
            (Some(1001), 7, &[CellRef::Num(-1), CellRef::Null]),
        ],
        refused: None,
    },
    Case {
        schema: MIXED,
        blocks: TWO_ROWS,
        columns: &[
            (2, "c2", Kind::Text, false),
            (3, "c3", Kind::Bytes, false),
            (1, "c1", Kind::Int, false),
        ],
        first: None,
        told: None,
        rows: &[
            (
                None,
                7,
                &[CellRef::Text("a"), CellRef::Null, CellRef::Num(10)],
            ),
            (None, 7, &[CellRef::Null, CellRef::Null, CellRef::Num(-1)]),
        ],
        refused: None,
    },
    // A field that is passed over, with fields inside that take no bytes.
    Case {
        schema: WITH_BARE_FIELDS,
        blocks: &[(2, &[4, 2, 107, 2, 1, 2, 108, 0, 0, 10, 0, 12])],
        columns: &[(1, "c1", Kind::Long, true)],
        first: Some(3),
        told: None,
        rows: &[
            (Some(3), 7, &[CellRef::Num(5)]),
            (Some(4), 7, &[CellRef::Num(6)]),
        ],
        refused: None,
    },
    // The position counts over all blocks, also empty ones.
    Case {
        schema: r#"{"type":"record","name":"row","fields":[{"name":"n","type":"long","field-id":1}]}"#,
        blocks: &[(1, &[2]), (0, &[]), (2, &[4, 6])],
        columns: &[(1, "c1", Kind::Long, true)],
        first: Some(0),
        told: None,
        rows: &[
            (Some(0), 7, &[CellRef::Num(1)]),
            (Some(1), 7, &[CellRef::Num(2)]),
            (Some(2), 7, &[CellRef::Num(3)]),
        ],
        refused: None,
    },
    // What is stored stands; a null counts as missing.
    Case {
        schema: WITH_LINEAGE,
        blocks: &[(3, &[2, 10, 2, 2, 4, 0, 4, 0, 2, 0, 6, 2, 0])],
        columns: &[(1, "c1", Kind::Long, true)],
        first: Some(40),
        told: None,
        rows: &[
            (Some(5), 2, &[CellRef::Num(1)]),
            (Some(41), 7, &[CellRef::Num(2)]),
            (Some(0), 0, &[CellRef::Num(3)]),
        ],
        refused: None,
    },
    // A schema that is no record has no fields.
    Case {
        schema: r#""long""#,
        blocks: &[(1, &[2])],
        columns: &[(1, "c1", Kind::Long, false)],
        first: Some(9),
        told: None,
        rows: &[(Some(9), 7, &[CellRef::Null])],
        refused: None,
    },
    Case {
        schema: MIXED,
        blocks: TWO_ROWS,
        columns: &[(1, "c1", Kind::Bytes, false), (3, "c3", Kind::Text, true)],
        first: None,
        told: None,
        rows: &[],
        refused: Some(Refused::MissingColumn(3)),
    },
    Case {
        schema: MIXED,
        blocks: TWO_ROWS,
        columns: &[(1, "c1", Kind::Bytes, false)],
        first: None,
        told: None,
        rows: &[],
        refused: Some(Refused::Kind(1)),
    },
    // A null in a required column, behind the whole row.
    Case {
        schema: MIXED,
        blocks: TWO_ROWS,
        columns: &[(2, "c2", Kind::Text, true)],
        first: None,
        told: Some(5),
        rows: &[],
        refused: Some(Refused::Kind(2)),
    },
    Case {
        schema: MIXED,
        blocks: &[(1, &[0, 2, 1])],
        columns: &[(2, "c2", Kind::Text, true)],
        first: None,
        told: None,
        rows: &[],
        refused: Some(Refused::Short(3)),
    },
    // Places count from the start of the block's bytes.
    Case {
        schema: MIXED,
        blocks: &[(0, &[]), (2, &[0, 2, 1, 4, 0, 4])],
        columns: BOTH,
        first: None,
        told: None,
        rows: &[],
        refused: Some(Refused::Branch(5)),
    },
    Case {
        schema: MIXED,
        blocks: &[(0, &[]), (1, &[0, 2, 1, 4, 0])],
        columns: BOTH,
        first: None,
        told: Some(3),
        rows: &[],
        refused: Some(Refused::Rest(2)),
    },
    Case {
        schema: MIXED,
        blocks: TWO_ROWS,
        columns: BOTH,
        first: Some(i64::MAX),
        told: Some(3),
        rows: &[],
        refused: Some(Refused::RecordCount(3, 2)),
    },
    Case {
        schema: MIXED,
        blocks: TWO_ROWS,
        columns: BOTH,
        first: Some(i64::MAX - 1),
        told: Some(2),
        rows: &[],
        refused: Some(Refused::IdsSpent(9223372036854775806, 2)),
    },
    Case {
        schema: MIXED,
        blocks: TWO_ROWS,
        columns: BOTH,
        first: Some(i64::MAX - 2),
        told: Some(2),
        rows: &[
            (
                Some(9223372036854775805),
                7,
                &[CellRef::Num(10), CellRef::Text("a")],
            ),
            (
                Some(9223372036854775806),
                7,
                &[CellRef::Num(-1), CellRef::Null],
            ),
        ],
        refused: None,
    },
    // What the blocks say of themselves is looked at before any row.
    Case {
        schema: MIXED,
        blocks: &[(1, &[9]), (1_048_575, &[]), (1, &[])],
        columns: BOTH,
        first: None,
        told: None,
        rows: &[],
        refused: Some(Refused::FileRows(1048577)),
    },
    Case {
        schema: r#"{"type":"record","name":"row","fields":[]}"#,
        blocks: &[(2, &[])],
        columns: &[(1, "c1", Kind::Boolean, false)],
        first: Some(3),
        told: None,
        rows: &[
            (Some(3), 7, &[CellRef::Null]),
            (Some(4), 7, &[CellRef::Null]),
        ],
        refused: None,
    },
];

const TWO_FIELDS: &str =
    r#"{"type":"record","name":"row","fields":[{"name":"b","type":["null","string"],"field-id":2},{"name":"a","type":"int","field-id":1},{"name":"again","type":"bytes","field-id":1}]}"#;

const WRONG_LINEAGE: &str =
    r#"{"type":"record","name":"row","fields":[{"name":"a","type":"int","field-id":1},{"name":"_last_updated_sequence_number","type":"string","field-id":2147483539},{"name":"_row_id","type":"string","field-id":2147483540}]}"#;

/// Tables that read the fields of their columns.
static FIELD_CASES: [Case; 9] = [
    // A column is the first field of its id. An optional field is read for a required column.
    Case {
        schema: TWO_FIELDS,
        blocks: &[(1, &[2, 2, 120, 10, 0])],
        columns: &[
            (2, "c2", Kind::Text, true),
            (1, "c1", Kind::Long, true),
            (3, "c3", Kind::Bytes, false),
        ],
        first: Some(4),
        told: Some(1),
        rows: &[(
            Some(4),
            7,
            &[CellRef::Text("x"), CellRef::Num(5), CellRef::Null],
        )],
        refused: None,
    },
    Case {
        schema: TWO_FIELDS,
        blocks: &[],
        columns: &[(1, "c1", Kind::Long, true)],
        first: None,
        told: None,
        rows: &[],
        refused: None,
    },
    Case {
        schema: TWO_FIELDS,
        blocks: &[],
        columns: &[(1, "c1", Kind::Bytes, false)],
        first: None,
        told: None,
        rows: &[],
        refused: Some(Refused::Kind(1)),
    },
    Case {
        schema: TWO_FIELDS,
        blocks: &[],
        columns: &[(2, "c2", Kind::Text, true)],
        first: None,
        told: None,
        rows: &[],
        refused: None,
    },
    Case {
        schema: TWO_FIELDS,
        blocks: &[],
        columns: &[(3, "c3", Kind::Text, false)],
        first: None,
        told: None,
        rows: &[],
        refused: None,
    },
    Case {
        schema: TWO_FIELDS,
        blocks: &[],
        columns: &[(3, "c3", Kind::Text, true)],
        first: None,
        told: None,
        rows: &[],
        refused: Some(Refused::MissingColumn(3)),
    },
    // A missing column comes before a wrong type.
    Case {
        schema: TWO_FIELDS,
        blocks: &[],
        columns: &[(1, "c1", Kind::Bytes, false), (3, "c3", Kind::Text, true)],
        first: None,
        told: None,
        rows: &[],
        refused: Some(Refused::MissingColumn(3)),
    },
    // A column of a wrong type comes before the lineage.
    Case {
        schema: WRONG_LINEAGE,
        blocks: &[],
        columns: &[(3, "c3", Kind::Text, false), (1, "c1", Kind::Bytes, false)],
        first: None,
        told: None,
        rows: &[],
        refused: Some(Refused::Kind(1)),
    },
    // The column of row ids comes before that of last changes.
    Case {
        schema: WRONG_LINEAGE,
        blocks: &[],
        columns: &[(1, "c1", Kind::Int, true), (3, "c3", Kind::Text, false)],
        first: None,
        told: None,
        rows: &[],
        refused: Some(Refused::Kind(2_147_483_540)),
    },
];

/// Whether this is the cell.
fn is_cell(cell: &Cell, wanted: &CellRef<'_>) -> bool {
    match cell {
        Cell::Null => matches!(wanted, CellRef::Null),
        Cell::Flag(flag) => matches!(wanted, CellRef::Flag(other) if *other == *flag),
        Cell::Num(number) => matches!(wanted, CellRef::Num(other) if *other == *number),
        Cell::Text(text) => matches!(wanted, CellRef::Text(other) if *other == text.as_str()),
        Cell::Bytes(bytes) => matches!(wanted, CellRef::Bytes(other) if *other == bytes.as_slice()),
    }
}

/// Whether these are the cells.
fn are_cells(cells: &[Cell], wanted: &[CellRef<'_>]) -> bool {
    for place in 0..wanted.len() {
        match cells.get(place) {
            Some(cell) if is_cell(cell, &wanted[place]) => {}
            _ => return false,
        }
    }
    cells.len() == wanted.len()
}

/// Whether this is the row.
fn is_row(row: &Row, wanted: &Shown) -> bool {
    row.id == wanted.0 && row.last == wanted.1 && are_cells(row.cells.as_slice(), wanted.2)
}

/// Whether these are the rows.
fn are_rows(rows: &[Row], wanted: &[Shown]) -> bool {
    for place in 0..wanted.len() {
        match rows.get(place) {
            Some(row) if is_row(row, &wanted[place]) => {}
            _ => return false,
        }
    }
    rows.len() == wanted.len()
}

/// Whether this is what is read of the case's file.
fn is_read(read: &Result<RowList, RowRefusal>, case: &Case) -> bool {
    match read {
        Ok(rows) => case.refused.is_none() && are_rows(rows.as_slice(), case.rows),
        Err(refusal) => match &case.refused {
            Some(wanted) => is_refused(refusal, wanted),
            None => false,
        },
    }
}

/// Whether the rows of the file, in these columns, are those of the case, or its refusal.
fn is_answered(alloc: Global, bytes: &[u8], columns: &Columns, case: &Case) -> bool {
    let read = read_rows(alloc, bytes, columns, case.first, 7, case.told);
    is_read(&read, case)
}

/// The same, of the columns of the case.
fn is_right_of(alloc: Global, bytes: &[u8], case: &Case) -> bool {
    match columns_of(alloc, case.columns) {
        Some(columns) => is_answered(alloc, bytes, &columns, case),
        None => false,
    }
}

/// The same, of the file and the columns of the case.
fn is_right(alloc: Global, case: &Case) -> bool {
    match file_of(alloc, case.schema, case.blocks) {
        Ok(bytes) => is_right_of(alloc, bytes.as_slice(), case),
        Err(_) => false,
    }
}

/// The number of the first case that isn't right; None where there is none.
fn first_wrong(alloc: Global, cases: &[Case]) -> Option<usize> {
    for place in 0..cases.len() {
        if !is_right(alloc, &cases[place]) {
            return Some(place);
        }
    }
    None
}

#[test]
fn a_file_is_read_as_the_rows_that_it_stores_in_the_fields_of_the_columns(rt: HostRuntime) {
    all_right(&rt, first_wrong(rt.alloc(), &CASES));
    all_right(&rt, first_wrong(rt.alloc(), &FIELD_CASES));
}
