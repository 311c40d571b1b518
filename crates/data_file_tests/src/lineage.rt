//! The id of a row, and its last change, by the standard's rules. Iceberg spec, "Row Lineage".

ghost use Rattle.std.specs.Prelude.{◌^◌, ◌+ℤ◌, ◌<ℤ◌, pos, IfSome};
ghost use Rattle.std.specs.Bool.{OnTrue};

use crate::rows::all_right;
use row_file::{row_id, row_last};
use std::test::*;

/// A file's first id, a row's stored one, the row's position, and its id.
type Id = (Option<i64>, Option<i64>, u32, Option<i64>);

static IDS: [Id; 6] = [
    // Without an id of its own a row has the first one and its position.
    (Some(1000), None, 0, Some(1000)),
    (Some(1000), None, 24, Some(1024)),
    (Some(0), None, 4_294_967_295, Some(4_294_967_295)),
    // With one it keeps it.
    (Some(1000), Some(7), 24, Some(7)),
    (None, Some(0), 24, Some(0)),
    // A file without ids gives none.
    (None, None, 24, None),
];

/// A row's stored last change, its file's sequence number, and its last change.
type Change = (Option<i64>, i64, i64);

static CHANGES: [Change; 3] = [(None, 5, 5), (Some(3), 5, 3), (Some(0), 5, 0)];

/// Whether the id of the row at the position is a long.
fn ends_in_time(first: Option<i64>, position: u32) -> bool
    ensures { OnTrue result (IfSome first (λ id. (id +ℤ pos position) <ℤ pos (2 ^ 63))) }
{
    match first {
        Some(id) => id <= i64::MAX - position as i64,
        None => true,
    }
}

/// Whether the row has the id.
fn has_id(row: &Id) -> bool {
    let (first, stored, position, wanted) = *row;
    if !ends_in_time(first, position) {
        return false;
    }
    row_id(first, stored, position) == wanted
}

/// The number of the first row with another id; None where there is none.
fn first_wrong_id(table: &[Id]) -> Option<usize> {
    for place in 0..table.len() {
        if !has_id(&table[place]) {
            return Some(place);
        }
    }
    None
}

/// The number of the first row with another last change; None where there is none.
fn first_wrong_change(table: &[Change]) -> Option<usize> {
    for place in 0..table.len() {
        let (stored, sequence, wanted) = table[place];
        if row_last(stored, sequence) != wanted {
            return Some(place);
        }
    }
    None
}

#[test]
fn a_row_has_its_own_id_and_last_change_or_those_of_its_file(rt: HostRuntime) {
    all_right(&rt, first_wrong_id(&IDS));
    all_right(&rt, first_wrong_change(&CHANGES));
}
