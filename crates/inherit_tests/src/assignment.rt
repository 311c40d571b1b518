//! The first row ids of manifests, and the next id, or the refusal.

ghost use Rattle.std.specs.Prelude.{IfOk};
ghost use Rattle.lineage_inherit.specs.Assignment.{AreNatural};

use crate::files::{are_these, manifest, natural};
use file_types::{Firsts, ListEntries, Longs};
use lineage_inherit::{InheritRefusal, assign};
use lists::List;
use std::alloc::{AllocError, Global};
use std::test::*;

/// A manifest: its content, its first row id, and how many rows its live entries have.
type Told = (i32, Option<i64>, i64);

/// The first ids of manifests and the next id, or the next id and the number of rows.
enum Wanted {
    Ids(&'static [Option<i64>], i64),
    Spent(i64, i64),
}

/// The next id, the manifests, and what they get.
type Case = (i64, &'static [Told], Wanted);

static ROWS: [Case; 11] = [
    (7, &[], Wanted::Ids(&[], 7)),
    // A manifest with an id keeps it.
    (
        1000,
        &[
            (0, Some(925), 75),
            (0, None, 125),
            (0, None, 100),
            (0, None, 150),
        ],
        Wanted::Ids(&[Some(925), Some(1000), Some(1125), Some(1225)], 1375),
    ),
    // A manifest of delete files gets no id, and keeps one that it has.
    (
        5,
        &[(1, None, 8), (0, None, 2), (1, Some(3), 9), (0, None, 0)],
        Wanted::Ids(&[None, Some(5), Some(3), Some(7)], 7),
    ),
    // The bound, from below and from above.
    (
        9_223_372_036_854_775_800,
        &[(0, None, 4), (0, None, 3)],
        Wanted::Ids(
            &[
                Some(9_223_372_036_854_775_800),
                Some(9_223_372_036_854_775_804),
            ],
            i64::MAX,
        ),
    ),
    (
        9_223_372_036_854_775_800,
        &[(0, None, 4), (0, None, 4)],
        Wanted::Spent(9_223_372_036_854_775_800, 8),
    ),
    // Rows of manifests that get no id don't count.
    (
        9_223_372_036_854_775_800,
        &[(0, None, 4), (1, None, 4), (0, Some(0), 9)],
        Wanted::Ids(
            &[Some(9_223_372_036_854_775_800), None, Some(0)],
            9_223_372_036_854_775_804,
        ),
    ),
    (
        i64::MAX,
        &[(1, None, 1), (0, None, 1), (0, Some(0), 9)],
        Wanted::Spent(i64::MAX, 1),
    ),
    // The sum of the rows passes the greatest number.
    (
        0,
        &[(0, None, i64::MAX), (0, None, 1)],
        Wanted::Spent(0, i64::MAX),
    ),
    (
        1,
        &[(0, None, i64::MAX), (0, None, i64::MAX), (0, None, 7)],
        Wanted::Spent(1, i64::MAX),
    ),
    // A next id below 0: only the ids decide.
    (
        -1,
        &[(0, None, i64::MAX), (0, None, 1)],
        Wanted::Ids(&[Some(-1), Some(9_223_372_036_854_775_806)], i64::MAX),
    ),
    (
        -1,
        &[(0, None, i64::MAX), (0, None, 2)],
        Wanted::Spent(-1, i64::MAX),
    ),
];

/// The manifests of a table.
fn list_of(alloc: Global, table: &[Told]) -> Result<ListEntries, AllocError> {
    let mut list = List::new(alloc);
    for told in table {
        list.push(manifest(alloc, told.0, 1, told.1)?)?;
    }
    Ok(list)
}

/// The live rows of each manifest. An `Err` also says that one is below 0.
fn live_of(alloc: Global, table: &[Told]) -> Result<Longs, AllocError>
    ensures natural { IfOk result AreNatural }
{
    let mut live = List::new(alloc);
    for told in table {
        live.push(natural(told.2)?)?;
    }
    Ok(live)
}

/// Whether the result is the wanted one.
fn is_wanted(answer: &Result<(Firsts, i64), InheritRefusal>, wanted: &Wanted) -> bool {
    match (answer, wanted) {
        (Ok((firsts, after)), Wanted::Ids(ids, next)) => {
            are_these(firsts, ids) && *after == *next
        }
        (Err(InheritRefusal::IdsSpent { next, rows }), Wanted::Spent(first, count)) => {
            *next == *first && *rows == *count
        }
        _ => false,
    }
}

/// Whether the row has the wanted result.
fn is_right(alloc: Global, case: &Case) -> Result<bool, AllocError> {
    let list = list_of(alloc, case.1)?;
    let live = live_of(alloc, case.1)?;
    if live.len() != list.len() {
        return Ok(false);
    }
    Ok(is_wanted(&assign(alloc, &list, &live, case.0), &case.2))
}

/// The number of the first row with another result, counted from 0.
fn first_wrong(alloc: Global, table: &[Case]) -> Result<Option<usize>, AllocError> {
    for number in 0..table.len() {
        if !is_right(alloc, &table[number])? {
            return Ok(Some(number));
        }
    }
    Ok(None)
}

#[test]
fn a_manifest_without_an_id_gets_the_next_one(rt: HostRuntime) -> Result<(), Fail> {
    assert_eq!(rt; first_wrong(rt.alloc(), &ROWS)?, None);
    Ok(())
}
