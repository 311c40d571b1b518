//! Entries with all statistics, and their copies.

use avro_wire::{Bytes, Text};
use file_types::{Bounds, Counts, FileEntry, Ints, ListEntry, Longs, Stats, Status};
use lists::{Copied, List};
use std::alloc::{AllocError, Global};
use std::test::*;

/// Three numbers by the ids of columns.
fn counts(alloc: Global, first: i64) -> Result<Option<Counts>, AllocError> {
    let mut list = List::new(alloc);
    for (id, number) in [(1, first), (2, i64::MAX), (i32::MAX, -1)] {
        list.push((id, number))?;
    }
    Ok(Some(list))
}

/// Two values by the ids of columns.
fn bounds(alloc: Global, first: u8) -> Result<Option<Bounds>, AllocError> {
    let mut list = List::new(alloc);
    list.push((1, Bytes::from_slice(alloc, &[first, 0, 255])?))?;
    list.push((2, Bytes::from_slice(alloc, &[])?))?;
    Ok(Some(list))
}

/// Two places.
fn places(alloc: Global) -> Result<Option<Longs>, AllocError> {
    let mut list = List::new(alloc);
    list.push(4)?;
    list.push(i64::MAX)?;
    Ok(Some(list))
}

/// Two ids of columns.
fn ids(alloc: Global) -> Result<Option<Ints>, AllocError> {
    let mut list = List::new(alloc);
    list.push(2)?;
    list.push(i32::MAX)?;
    Ok(Some(list))
}

/// Statistics in which nothing is missing.
fn all_stats(alloc: Global) -> Result<Stats, AllocError> {
    let mut stats = Stats::none();
    stats.sizes = counts(alloc, 10)?;
    stats.values = counts(alloc, 11)?;
    stats.nulls = counts(alloc, 12)?;
    stats.nans = counts(alloc, 13)?;
    stats.lower = bounds(alloc, 14)?;
    stats.upper = bounds(alloc, 15)?;
    stats.key = Some(Bytes::from_slice(alloc, &[16])?);
    stats.splits = places(alloc)?;
    stats.equality = ids(alloc)?;
    stats.order = Some(17);
    Ok(stats)
}

/// An entry of a manifest in which nothing is missing.
fn full_entry(alloc: Global) -> Result<FileEntry, AllocError> {
    Ok(FileEntry {
        status: Status::Existing,
        snapshot_id: Some(1),
        sequence: Some(2),
        file_sequence: Some(3),
        content: 2,
        path: Text::from_str(alloc, "t/a.avro")?,
        format: Text::from_str(alloc, "avro")?,
        count: 4,
        size: 5,
        first_row_id: Some(6),
        stats: all_stats(alloc)?,
    })
}

/// An entry of a manifest list in which nothing is missing.
fn full_manifest(alloc: Global) -> Result<ListEntry, AllocError> {
    Ok(ListEntry {
        path: Text::from_str(alloc, "t/m.avro")?,
        length: 1,
        spec_id: 2,
        content: 1,
        sequence: 3,
        min_sequence: 4,
        added_snapshot: 5,
        added_files: 6,
        existing_files: 7,
        deleted_files: 8,
        added_rows: 9,
        existing_rows: 10,
        deleted_rows: 11,
        key: Some(Bytes::from_slice(alloc, &[12])?),
        first_row_id: Some(13),
    })
}

/// Whether both lists have the same numbers.
fn are_same_counts(a: &Option<Counts>, b: &Option<Counts>) -> bool {
    match (a, b) {
        (Some(a), Some(b)) => a.as_slice() == b.as_slice(),
        _ => false,
    }
}

/// Whether both lists have the same values.
fn are_same_bounds(a: &Option<Bounds>, b: &Option<Bounds>) -> bool {
    let (Some(a), Some(b)) = (a, b) else {
        return false;
    };
    for place in 0..a.len() {
        match (a.get(place), b.get(place)) {
            (Some(one), Some(other)) => {
                if one.0 != other.0 || one.1.as_slice() != other.1.as_slice() {
                    return false;
                }
            }
            _ => return false,
        }
    }
    a.len() == b.len()
}

/// Whether both are the same bytes.
fn are_same_bytes(a: &Option<Bytes>, b: &Option<Bytes>) -> bool {
    match (a, b) {
        (Some(a), Some(b)) => a.as_slice() == b.as_slice(),
        _ => false,
    }
}

/// Whether both have the same places and ids.
fn are_same_lists(a: &Stats, b: &Stats) -> bool {
    let splits = match (&a.splits, &b.splits) {
        (Some(a), Some(b)) => a.as_slice() == b.as_slice(),
        _ => false,
    };
    let equality = match (&a.equality, &b.equality) {
        (Some(a), Some(b)) => a.as_slice() == b.as_slice(),
        _ => false,
    };
    splits && equality
}

/// Whether both are the same statistics, with nothing missing.
fn are_same_stats(a: &Stats, b: &Stats) -> bool {
    are_same_counts(&a.sizes, &b.sizes)
        && are_same_counts(&a.values, &b.values)
        && are_same_counts(&a.nulls, &b.nulls)
        && are_same_counts(&a.nans, &b.nans)
        && are_same_bounds(&a.lower, &b.lower)
        && are_same_bounds(&a.upper, &b.upper)
        && are_same_bytes(&a.key, &b.key)
        && are_same_lists(a, b)
        && a.order == b.order
}

/// Whether both are the same entry of a manifest.
fn are_same_entries(a: &FileEntry, b: &FileEntry) -> bool {
    a.status == b.status
        && a.snapshot_id == b.snapshot_id
        && a.sequence == b.sequence
        && a.file_sequence == b.file_sequence
        && a.content == b.content
        && a.path.as_str() == b.path.as_str()
        && a.format.as_str() == b.format.as_str()
        && a.count == b.count
        && a.size == b.size
        && a.first_row_id == b.first_row_id
        && are_same_stats(&a.stats, &b.stats)
}

/// The numbers of a manifest.
fn numbers(a: &ListEntry) -> [i64; 11] {
    [
        a.length,
        i64::from(a.spec_id),
        i64::from(a.content),
        a.sequence,
        a.min_sequence,
        a.added_snapshot,
        i64::from(a.added_files),
        i64::from(a.existing_files),
        i64::from(a.deleted_files),
        a.added_rows,
        a.existing_rows,
    ]
}

/// Whether both are the same entry of a manifest list.
fn are_same_manifests(a: &ListEntry, b: &ListEntry) -> bool {
    a.path.as_str() == b.path.as_str()
        && numbers(a).as_slice() == numbers(b).as_slice()
        && a.deleted_rows == b.deleted_rows
        && are_same_bytes(&a.key, &b.key)
        && a.first_row_id == b.first_row_id
}

/// Whether the copy of a full entry of a manifest equals it.
fn is_entry_copied(alloc: Global) -> Result<bool, AllocError> {
    let entry = full_entry(alloc)?;
    let copy = entry.copy(alloc)?;
    Ok(are_same_entries(&entry, &copy))
}

/// Whether the copy of a full entry of a manifest list equals it.
fn is_manifest_copied(alloc: Global) -> Result<bool, AllocError> {
    let list = full_manifest(alloc)?;
    let copy = list.copy(alloc)?;
    Ok(are_same_manifests(&list, &copy))
}

#[test]
fn a_copy_has_all_statistics(rt: HostRuntime) -> Result<(), Fail> {
    assert!(rt; is_entry_copied(rt.alloc())?);
    assert!(rt; is_manifest_copied(rt.alloc())?);
    Ok(())
}
