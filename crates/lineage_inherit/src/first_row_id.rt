//! The first row ids of a manifest's files.

ghost use Rattle.std.specs.Prelude.{◌≡◌, ◌≤ℤ◌, pos};
ghost use Rattle.words.specs.Reading.{Gives, never};
ghost use Rattle.lineage_inherit.specs.Refusal.{is_memory};
ghost use Rattle.lineage_inherit.specs.FirstRowId as spec;
ghost use Rattle.lineage_inherit.specs.RunningId as running;

use crate::live::is_live;
use crate::refusal::InheritRefusal;
use file_types::{FileEntries, FileEntry, Firsts};
use lists::List;
use std::alloc::Global;

/// The first row id of each entry of a manifest, in order. `first`: that of the manifest. `None`:
/// the entry has none.
///
/// A live entry keeps its own id. Otherwise it has that of the manifest, plus the rows of the live
/// entries before it that have no id of their own. A `Deleted` entry takes no id. The first live
/// entry whose rows pass the greatest id is refused as `IdsSpent`. Iceberg spec, "First Row ID
/// Inheritance".
pub fn first_ids(
    alloc: Global,
    first: Option<i64>,
    entries: &FileEntries,
) -> Result<Firsts, InheritRefusal>
    requires counted { spec.AreCounted entries.now }
    ensures exact { Gives is_memory (λ firsts. firsts) result (spec.first_ids first entries.now) }
{
    firsts_of(alloc, first, entries.as_slice())
}

/// The first ids of all entries.
fn firsts_of(
    alloc: Global,
    first: Option<i64>,
    entries: &[FileEntry],
) -> Result<Firsts, InheritRefusal>
    requires counted { spec.AreCounted entries.now }
    ensures exact { Gives is_memory (λ firsts. firsts) result
        (running.firsts_from first entries.now) }
{
    let mut firsts = List::new(alloc);
    let mut next = first;
    for entry in entries {
        let (own, after) = first_and_next(next, entry)?;
        firsts.push(own)?;
        next = after;
    }
    Ok(firsts)
}

/// The first id of one entry, and the next id behind it. `next`: the next id before.
fn first_and_next(
    next: Option<i64>,
    entry: &FileEntry,
) -> Result<(Option<i64>, Option<i64>), InheritRefusal>
    requires counted { pos 0 ≤ℤ entry.now.count }
    ensures exact { Gives never (λ pair. pair) result (running.first_and_next next entry.now) }
{
    if !is_live(entry) {
        return Ok((entry.first_row_id, next));
    }
    match entry.first_row_id {
        Some(own) => {
            id_behind(Some(own), entry.count)?;
            Ok((Some(own), next))
        }
        None => {
            let after = id_behind(next, entry.count)?;
            Ok((next, after))
        }
    }
}

/// The id behind so many rows from the first id on.
fn id_behind(first: Option<i64>, count: i64) -> Result<Option<i64>, InheritRefusal>
    requires counted { pos 0 ≤ℤ count }
    ensures exact { Gives never (λ id. id) result (running.id_behind first count) }
{
    let Some(first) = first else {
        return Ok(None);
    };
    match first.checked_add(count) {
        Some(id) => Ok(Some(id)),
        None => Err(InheritRefusal::IdsSpent {
            next: first,
            rows: count,
        }),
    }
}
