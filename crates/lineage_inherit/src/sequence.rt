//! The data sequence numbers of a manifest's files.

ghost use Rattle.std.specs.Prelude.{◌≡◌};
ghost use Rattle.words.specs.Reading.{Gives};
ghost use Rattle.lineage_inherit.specs.Refusal.{is_memory};
ghost use Rattle.lineage_inherit.specs.Sequence as spec;

use crate::live::is_live;
use crate::refusal::InheritRefusal;
use file_types::{FileEntries, FileEntry, Firsts, ListEntry, Status};
use lists::List;
use std::alloc::Global;

/// The data sequence number of each entry of a manifest, in order. `None`: the entry is `Deleted`.
///
/// A live entry has its own number, or that of its manifest. An `Existing` one needs its own,
/// unless the manifest's number is 0; otherwise it is refused as `NullSequence`. Iceberg spec,
/// "Sequence Number Inheritance".
pub fn sequences(
    alloc: Global,
    list: &ListEntry,
    entries: &FileEntries,
) -> Result<Firsts, InheritRefusal>
    ensures exact { Gives is_memory (λ numbers. numbers) result
        (spec.sequences list.now entries.now) }
{
    sequences_of(alloc, list, entries.as_slice())
}

/// The numbers of all entries.
fn sequences_of(
    alloc: Global,
    list: &ListEntry,
    entries: &[FileEntry],
) -> Result<Firsts, InheritRefusal>
    ensures exact { Gives is_memory (λ numbers. numbers) result
        (spec.sequences list.now entries.now) }
{
    let mut numbers = List::new(alloc);
    for entry in entries {
        numbers.push(sequence_of(alloc, list, entry)?)?;
    }
    Ok(numbers)
}

/// The number of one entry.
fn sequence_of(
    alloc: Global,
    list: &ListEntry,
    entry: &FileEntry,
) -> Result<Option<i64>, InheritRefusal>
    ensures exact { Gives is_memory (λ number. number) result
        (spec.sequence_of list.now entry.now) }
{
    if lacks_sequence(list, entry) {
        return Err(InheritRefusal::NullSequence {
            path: entry.path.copy(alloc)?,
        });
    }
    if is_live(entry) {
        Ok(Some(inherited_sequence(list, entry)))
    } else {
        Ok(None)
    }
}

/// Whether the entry is live and has no number.
fn lacks_sequence(list: &ListEntry, entry: &FileEntry) -> bool
    ensures { result ≡ spec.lacks_sequence list.now entry.now }
{
    is_live(entry) && !has_sequence(list, entry)
}

/// Whether a live entry has a number.
fn has_sequence(list: &ListEntry, entry: &FileEntry) -> bool
    ensures { result ≡ spec.has_sequence list.now entry.now }
{
    entry.sequence.is_some() || is_added(entry) || list.sequence == 0
}

/// Whether the manifest's snapshot added the file.
fn is_added(entry: &FileEntry) -> bool
    ensures { result ≡ spec.is_added entry.now.status }
{
    match entry.status {
        Status::Added => true,
        Status::Existing | Status::Deleted => false,
    }
}

/// The number of a live entry: its own, or that of its manifest.
fn inherited_sequence(list: &ListEntry, entry: &FileEntry) -> i64
    ensures { result ≡ spec.inherited_sequence list.now entry.now }
{
    match entry.sequence {
        Some(number) => number,
        None => list.sequence,
    }
}
