//! Entries and manifests, made from tables.

ghost use Rattle.std.specs.Prelude.{◌≤ℤ◌, pos, IfOk};
ghost use Rattle.lineage_inherit.specs.FirstRowId.{AreCounted};

use avro_wire::Text;
use file_types::{FileEntries, FileEntry, Firsts, ListEntry, Stats, Status};
use lists::List;
use std::alloc::{AllocError, Global};

/// An entry: its status, its sequence number, its first row id, and its number of rows.
pub type Told = (Status, Option<i64>, Option<i64>, i64);

/// The number of rows. An `Err` says that it is below 0.
pub fn natural(rows: i64) -> Result<i64, AllocError>
    ensures natural { IfOk result (λ rows. pos 0 ≤ℤ rows) }
{
    if rows < 0 {
        return Err(AllocError);
    }
    Ok(rows)
}

/// The entry of a file at the path `a`. An `Err` also says that its number of rows is below 0.
fn entry(alloc: Global, told: &Told) -> Result<FileEntry, AllocError>
    ensures natural { IfOk result (λ entry. pos 0 ≤ℤ entry.count) }
{
    let count = natural(told.3)?;
    Ok(FileEntry {
        status: told.0,
        snapshot_id: None,
        sequence: told.1,
        file_sequence: None,
        content: 0,
        path: Text::from_str(alloc, "a")?,
        format: Text::from_str(alloc, "avro")?,
        count,
        size: 100,
        first_row_id: told.2,
        stats: Stats::none(),
    })
}

/// The entries of a table. An `Err` also says that a number of rows is below 0.
pub fn entries_of(alloc: Global, table: &[Told]) -> Result<FileEntries, AllocError>
    ensures counted { IfOk result AreCounted }
{
    let mut entries = List::new(alloc);
    for told in table {
        entries.push(entry(alloc, told)?)?;
    }
    Ok(entries)
}

/// A manifest with this content, this sequence number and this first row id.
pub fn manifest(
    alloc: Global,
    content: i32,
    sequence: i64,
    first: Option<i64>,
) -> Result<ListEntry, AllocError> {
    Ok(ListEntry {
        path: Text::from_str(alloc, "m")?,
        length: 1000,
        spec_id: 0,
        content,
        sequence,
        min_sequence: 0,
        added_snapshot: 1,
        added_files: 0,
        existing_files: 0,
        deleted_files: 0,
        added_rows: 0,
        existing_rows: 0,
        deleted_rows: 0,
        key: None,
        first_row_id: first,
    })
}

/// Whether the list has these items, in this order.
pub fn are_these(list: &Firsts, wanted: &[Option<i64>]) -> bool {
    for place in 0..wanted.len() {
        match list.get(place) {
            None => return false,
            Some(found) => {
                if *found != wanted[place] {
                    return false;
                }
            }
        }
    }
    list.len() == wanted.len()
}
