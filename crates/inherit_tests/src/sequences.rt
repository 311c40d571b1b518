//! The data sequence numbers of entries, or the refusal.

use crate::files::{Told, are_these, entries_of, manifest};
use file_types::{Firsts, Status};
use lineage_inherit::{InheritRefusal, sequences};
use std::alloc::{AllocError, Global};
use std::test::*;

/// The sequence number of a manifest, its entries, and their numbers. `None`: an entry has none.
type Case = (i64, &'static [Told], Option<&'static [Option<i64>]>);

static ROWS: [Case; 7] = [
    (5, &[], Some(&[])),
    // A null number of an added entry is that of the manifest.
    (
        5,
        &[
            (Status::Added, None, None, 1),
            (Status::Added, Some(3), None, 1),
        ],
        Some(&[Some(5), Some(3)]),
    ),
    // An existing entry has its own number, or 0 if that is the manifest's.
    (5, &[(Status::Existing, Some(2), None, 1)], Some(&[Some(2)])),
    (0, &[(Status::Existing, None, None, 1)], Some(&[Some(0)])),
    (5, &[(Status::Existing, None, None, 1)], None),
    // A deleted entry has none.
    (
        5,
        &[
            (Status::Deleted, None, None, 1),
            (Status::Deleted, Some(2), None, 1),
        ],
        Some(&[None, None]),
    ),
    (
        -1,
        &[
            (Status::Added, None, None, 1),
            (Status::Existing, None, None, 1),
        ],
        None,
    ),
];

/// Whether the result is these numbers, or the refusal of the file at the path `a`.
fn is_wanted(answer: &Result<Firsts, InheritRefusal>, wanted: &Option<&[Option<i64>]>) -> bool {
    match (answer, wanted) {
        (Ok(numbers), Some(wanted)) => are_these(numbers, wanted),
        (Err(InheritRefusal::NullSequence { path }), None) => path.as_str() == "a",
        _ => false,
    }
}

/// The number of the first row with another result, counted from 0.
fn first_wrong(alloc: Global, table: &[Case]) -> Result<Option<usize>, AllocError> {
    for number in 0..table.len() {
        let list = manifest(alloc, 0, table[number].0, None)?;
        let entries = entries_of(alloc, table[number].1)?;
        if !is_wanted(&sequences(alloc, &list, &entries), &table[number].2) {
            return Ok(Some(number));
        }
    }
    Ok(None)
}

#[test]
fn an_added_entry_has_the_number_of_its_manifest(rt: HostRuntime) -> Result<(), Fail> {
    assert_eq!(rt; first_wrong(rt.alloc(), &ROWS)?, None);
    Ok(())
}
