//! The first row ids of entries, or the refusal.

use crate::files::{Told, are_these, entries_of};
use file_types::{Firsts, Status};
use lineage_inherit::{InheritRefusal, first_ids};
use std::alloc::{AllocError, Global};
use std::test::*;

/// The first ids of entries, or the next id and the number of rows that pass the greatest one.
enum Wanted {
    Ids(&'static [Option<i64>]),
    Spent(i64, i64),
}

/// The first row id of a manifest, its entries, and their first ids.
type Case = (Option<i64>, &'static [Told], Wanted);

static ROWS: [Case; 12] = [
    (Some(10), &[], Wanted::Ids(&[])),
    // An entry with an id of its own takes none.
    (
        Some(10),
        &[
            (Status::Added, None, None, 3),
            (Status::Added, None, Some(50), 2),
            (Status::Added, None, None, 4),
        ],
        Wanted::Ids(&[Some(10), Some(50), Some(13)]),
    ),
    // A deleted entry takes no id.
    (
        Some(0),
        &[
            (Status::Deleted, None, None, 4),
            (Status::Existing, None, None, 2),
        ],
        Wanted::Ids(&[None, Some(0)]),
    ),
    // Existing entries without an id are counted.
    (
        Some(7),
        &[
            (Status::Existing, None, None, 2),
            (Status::Existing, None, Some(1), 5),
            (Status::Added, None, None, 1),
            (Status::Added, None, None, 0),
        ],
        Wanted::Ids(&[Some(7), Some(1), Some(9), Some(10)]),
    ),
    // The ids of deleted entries are kept, however large.
    (
        Some(1),
        &[(Status::Deleted, None, Some(i64::MAX), 2)],
        Wanted::Ids(&[Some(i64::MAX)]),
    ),
    // Without a first id of the manifest there are only entries' own ids.
    (
        None,
        &[
            (Status::Added, None, None, i64::MAX),
            (Status::Existing, None, Some(4), 2),
            (Status::Added, None, None, 3),
        ],
        Wanted::Ids(&[None, Some(4), None]),
    ),
    // The bound, from below and from above.
    (
        Some(9_223_372_036_854_775_800),
        &[(Status::Added, None, None, 7)],
        Wanted::Ids(&[Some(9_223_372_036_854_775_800)]),
    ),
    (
        Some(9_223_372_036_854_775_800),
        &[(Status::Added, None, None, 8)],
        Wanted::Spent(9_223_372_036_854_775_800, 8),
    ),
    (
        None,
        &[(Status::Added, None, Some(i64::MAX), 1)],
        Wanted::Spent(i64::MAX, 1),
    ),
    (
        Some(-3),
        &[(Status::Added, None, None, i64::MAX)],
        Wanted::Ids(&[Some(-3)]),
    ),
    // The first entry that passes it is shown.
    (
        Some(0),
        &[
            (Status::Added, None, None, 5),
            (Status::Added, None, Some(i64::MAX), 9),
            (Status::Added, None, None, i64::MAX),
        ],
        Wanted::Spent(i64::MAX, 9),
    ),
    (
        Some(0),
        &[
            (Status::Added, None, None, 5),
            (Status::Added, None, None, i64::MAX),
        ],
        Wanted::Spent(5, i64::MAX),
    ),
];

/// Whether the result is the wanted one.
fn is_wanted(answer: &Result<Firsts, InheritRefusal>, wanted: &Wanted) -> bool {
    match (answer, wanted) {
        (Ok(firsts), Wanted::Ids(ids)) => are_these(firsts, ids),
        (Err(InheritRefusal::IdsSpent { next, rows }), Wanted::Spent(first, count)) => {
            *next == *first && *rows == *count
        }
        _ => false,
    }
}

/// The number of the first row with another result, counted from 0.
fn first_wrong(alloc: Global, table: &[Case]) -> Result<Option<usize>, AllocError> {
    for number in 0..table.len() {
        let entries = entries_of(alloc, table[number].1)?;
        if !is_wanted(
            &first_ids(alloc, table[number].0, &entries),
            &table[number].2,
        ) {
            return Ok(Some(number));
        }
    }
    Ok(None)
}

#[test]
fn a_live_entry_without_an_id_takes_the_next_ids(rt: HostRuntime) -> Result<(), Fail> {
    assert_eq!(rt; first_wrong(rt.alloc(), &ROWS)?, None);
    Ok(())
}
