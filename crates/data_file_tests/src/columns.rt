//! The columns of files, by their own schemas.

use crate::files::{Named, Refused, are_columns, file_of, is_refused};
use crate::rows::all_right;
use row_file::{RowRefusal, file_columns};
use row_types::{Columns, Kind};
use std::alloc::Global;
use std::test::*;

/// A schema, and the columns of its file or, in place of them, the refusal.
struct Case {
    schema: &'static str,
    columns: &'static [Named],
    refused: Option<Refused>,
}

/// Files with a column for each field without a reserved id.
static WITH_COLUMNS: [Case; 4] = [
    Case {
        schema: r#"{"type":"record","name":"row","fields":[{"name":"n","type":"long","field-id":1},{"name":"s","type":["null","string"],"default":null,"field-id":2},{"name":"_row_id","type":["null","long"],"default":null,"field-id":2147483540},{"name":"_last_updated_sequence_number","type":["null","long"],"default":null,"field-id":2147483539}]}"#,
        columns: &[(1, "n", Kind::Long, true), (2, "s", Kind::Text, false)],
        refused: None,
    },
    Case {
        schema: r#"{"type":"record","name":"row","fields":[{"name":"n","type":"long","field-id":1},{"name":"s","type":["null","string"],"default":null,"field-id":2}]}"#,
        columns: &[(1, "n", Kind::Long, true), (2, "s", Kind::Text, false)],
        refused: None,
    },
    // The types of a reserved id aren't asked; the largest other id is a column's.
    Case {
        schema: r#"{"type":"record","name":"row","fields":[{"name":"r","type":"float","field-id":2147483448},{"name":"c","type":["int","null"],"field-id":2147483447}]}"#,
        columns: &[(2147483447, "c", Kind::Int, false)],
        refused: None,
    },
    Case {
        schema: r#"{"type":"record","name":"row","fields":[{"name":"a","type":{"type":"int","logicalType":"date"},"field-id":9},{"name":"b","type":{"type":"long","logicalType":"time-micros"},"field-id":8},{"name":"c","type":{"type":"long","logicalType":"timestamp-micros","adjust-to-utc":false},"field-id":7},{"name":"d","type":["null",{"type":"long","logicalType":"timestamp-micros","adjust-to-utc":true}],"field-id":6},{"name":"e","type":"boolean","field-id":5},{"name":"f","type":"bytes","field-id":4},{"name":"g","type":"int","field-id":3}]}"#,
        columns: &[
            (9, "a", Kind::Date, true),
            (8, "b", Kind::Time, true),
            (7, "c", Kind::Timestamp, true),
            (6, "d", Kind::Timestamptz, false),
            (5, "e", Kind::Boolean, true),
            (4, "f", Kind::Bytes, true),
            (3, "g", Kind::Int, true),
        ],
        refused: None,
    },
];

/// Files that are refused for their first wrong field.
static REFUSED: [Case; 14] = [
    // A field without an id comes before the wrong id of an earlier one.
    Case {
        schema: r#"{"type":"record","name":"row","fields":[{"name":"n","type":"long","field-id":-1},{"name":"s","type":"string"}]}"#,
        columns: &[],
        refused: Some(Refused::Kind(0)),
    },
    Case {
        schema: r#"{"type":"record","name":"row","fields":[{"name":"n","type":"long","field-id":-1}]}"#,
        columns: &[],
        refused: Some(Refused::Kind(-1)),
    },
    // Field by field: a wrong type, or no id.
    Case {
        schema: r#"{"type":"record","name":"row","fields":[{"name":"n","type":"float","field-id":4},{"name":"s","type":"string"}]}"#,
        columns: &[],
        refused: Some(Refused::Kind(4)),
    },
    Case {
        schema: r#"{"type":"record","name":"row","fields":[{"name":"s","type":"string"},{"name":"n","type":"float","field-id":4}]}"#,
        columns: &[],
        refused: Some(Refused::Kind(0)),
    },
    Case {
        schema: r#"{"type":"record","name":"row","fields":[{"name":"n","type":["long"],"field-id":3}]}"#,
        columns: &[],
        refused: Some(Refused::Kind(3)),
    },
    Case {
        schema: r#"{"type":"record","name":"row","fields":[{"name":"n","type":"long","field-id":1},{"name":"x","type":"float","field-id":4}]}"#,
        columns: &[],
        refused: Some(Refused::Kind(4)),
    },
    Case {
        schema: r#"{"type":"record","name":"row","fields":[{"name":"n","type":["null","null"],"field-id":3}]}"#,
        columns: &[],
        refused: Some(Refused::Kind(3)),
    },
    Case {
        schema: r#"{"type":"record","name":"row","fields":[{"name":"n","type":"null","field-id":3}]}"#,
        columns: &[],
        refused: Some(Refused::Kind(3)),
    },
    Case {
        schema: r#"{"type":"record","name":"row","fields":[{"name":"n","type":["null","int","long"],"field-id":3}]}"#,
        columns: &[],
        refused: Some(Refused::Kind(3)),
    },
    Case {
        schema: r#"{"type":"record","name":"row","fields":[{"name":"n","type":"long","field-id":2},{"name":"m","type":"long","field-id":2}]}"#,
        columns: &[],
        refused: Some(Refused::Kind(2)),
    },
    // A schema has no two fields of one name.
    Case {
        schema: r#"{"type":"record","name":"row","fields":[{"name":"n","type":"long","field-id":2},{"name":"n","type":"long","field-id":3}]}"#,
        columns: &[],
        refused: Some(Refused::Form("fields/2/name")),
    },
    Case {
        schema: r#"{"type":"record","name":"row","fields":[{"name":"n","type":"long","field-id":2},{"name":"","type":"long","field-id":3}]}"#,
        columns: &[],
        refused: Some(Refused::Kind(3)),
    },
    // There is no column.
    Case {
        schema: r#"{"type":"record","name":"row","fields":[{"name":"_row_id","type":["null","long"],"field-id":2147483540}]}"#,
        columns: &[],
        refused: Some(Refused::Kind(0)),
    },
    Case {
        schema: r#""long""#,
        columns: &[],
        refused: Some(Refused::Kind(0)),
    },
];

/// Whether these columns are told, or this refusal.
fn is_told(
    told: &Result<Columns, RowRefusal>,
    columns: &[Named],
    refused: &Option<Refused>,
) -> bool {
    match told {
        Ok(found) => refused.is_none() && are_columns(found.as_slice(), columns),
        Err(refusal) => match refused {
            Some(wanted) => is_refused(refusal, wanted),
            None => false,
        },
    }
}

/// Whether the file has these columns, or is refused so.
pub fn has_columns(
    alloc: Global,
    bytes: &[u8],
    columns: &[Named],
    refused: &Option<Refused>,
) -> bool {
    let told = file_columns(alloc, bytes);
    is_told(&told, columns, refused)
}

/// Whether the case's file, which has no row, has the columns, or is refused so.
fn is_right(alloc: Global, case: &Case) -> bool {
    match file_of(alloc, case.schema, &[]) {
        Ok(bytes) => has_columns(alloc, bytes.as_slice(), case.columns, &case.refused),
        Err(_) => false,
    }
}

/// The number of the first case that isn't right; None where there is none.
fn first_wrong(alloc: Global, cases: &[Case]) -> Option<usize> {
    for place in 0..cases.len() {
        if !is_right(alloc, &cases[place]) {
            return Some(place);
        }
    }
    None
}

#[test]
fn a_file_has_a_column_for_each_field_without_a_reserved_id_or_a_first_wrong_field(
    rt: HostRuntime,
) {
    all_right(&rt, first_wrong(rt.alloc(), &WITH_COLUMNS));
    all_right(&rt, first_wrong(rt.alloc(), &REFUSED));
}
