//! The first row ids that a commit gives to manifests.

ghost use Rattle.std.specs.Prelude.{◌≡◌, ◌≤ℤ◌, ◌+ℤ◌, pos, length};
ghost use Rattle.words.specs.Reading.{Gives};
ghost use Rattle.lineage_inherit.specs.Refusal.{is_memory};
ghost use Rattle.lineage_inherit.specs.declared.refusal.InheritRefusal.TheVariants.{IdsSpent};
ghost use Rattle.lineage_inherit.specs.Assignment as spec;

use crate::refusal::InheritRefusal;
use file_types::{Firsts, ListEntries, ListEntry, Longs};
use lists::List;
use std::alloc::Global;

/// The first row id of each manifest of a list, in order, and the next id after them. `live`: how
/// many rows the live entries of each manifest have. `next`: the next id before.
///
/// Each manifest of data files without a first row id gets the next id. The next id then increases
/// by the manifest's rows. Other manifests keep what they have. If the next id would pass the
/// greatest one, 2^63 - 1, the call fails with `IdsSpent`: it has `next` and the number of rows, or
/// 2^63 - 1 if that number is larger. Iceberg spec, "First Row ID Assignment".
pub fn assign(
    alloc: Global,
    list: &ListEntries,
    live: &Longs,
    next: i64,
) -> Result<(Firsts, i64), InheritRefusal>
    requires together { length live.now ≡ length list.now }
    requires natural { spec.AreNatural live.now }
    ensures exact { Gives is_memory (λ assigned. assigned) result
        (spec.assign next list.now live.now) }
{
    assign_in(alloc, list.as_slice(), live.as_slice(), next)
}

/// The ids of the manifests of a slice.
fn assign_in(
    alloc: Global,
    list: &[ListEntry],
    live: &[i64],
    next: i64,
) -> Result<(Firsts, i64), InheritRefusal>
    requires together { length live.now ≡ length list.now }
    requires natural { spec.AreNatural live.now }
    ensures exact { Gives is_memory (λ assigned. assigned) result
        (spec.assign next list.now live.now) }
{
    let mut ids = List::new(alloc);
    let mut after = next;
    for i in 0..list.len() {
        let manifest = &list[i];
        let Some(end) = end_of(after, manifest, live[i]) else {
            return Err(spent(list, live, next));
        };
        ids.push(id_of(manifest, after))?;
        after = end;
    }
    Ok((ids, after))
}

/// The refusal of more rows than there are ids left.
fn spent(list: &[ListEntry], live: &[i64], next: i64) -> InheritRefusal
    requires together { length live.now ≡ length list.now }
    requires natural { spec.AreNatural live.now }
    ensures { result ≡ IdsSpent next (spec.at_most_max (spec.assigned_rows list.now live.now)) }
{
    InheritRefusal::IdsSpent {
        next,
        rows: sum_given(list, live),
    }
}

/// The number of rows of the manifests that get an id, or the greatest number if that passes it.
fn sum_given(list: &[ListEntry], live: &[i64]) -> i64
    requires together { length live.now ≡ length list.now }
    requires natural { spec.AreNatural live.now }
    ensures { result ≡ spec.at_most_max (spec.assigned_rows list.now live.now) }
{
    let mut sum: i64 = 0;
    for i in 0..list.len() {
        sum = sum_on(sum, rows_given(&list[i], live[i]));
    }
    sum
}

/// So many more rows, or the greatest number if the sum passes it.
fn sum_on(sum: i64, rows: i64) -> i64
    requires begun { pos 0 ≤ℤ sum }
    requires natural { pos 0 ≤ℤ rows }
    ensures { result ≡ spec.at_most_max (sum +ℤ rows) }
{
    sum.saturating_add(rows)
}

/// The next id after a manifest, if `next` is the one before. `None`: it passes 2^63 - 1.
fn end_of(next: i64, manifest: &ListEntry, rows: i64) -> Option<i64>
    requires natural { pos 0 ≤ℤ rows }
    ensures { result ≡ spec.end_of next manifest.now rows }
{
    next.checked_add(rows_given(manifest, rows))
}

/// The first row id of a manifest, if `next` is the next id.
fn id_of(manifest: &ListEntry, next: i64) -> Option<i64>
    ensures { result ≡ spec.id_of next manifest.now }
{
    if needs_id(manifest) {
        Some(next)
    } else {
        manifest.first_row_id
    }
}

/// The rows of a manifest that gets an id. 0: it gets none.
fn rows_given(manifest: &ListEntry, rows: i64) -> i64
    ensures { result ≡ spec.rows_given manifest.now rows }
{
    if needs_id(manifest) { rows } else { 0 }
}

/// Whether the manifest has data files and no first row id.
fn needs_id(manifest: &ListEntry) -> bool
    ensures { result ≡ spec.needs_id manifest.now }
{
    manifest.content == 0 && manifest.first_row_id.is_none()
}
