//! The checks of a whole list of snapshots.

ghost use Rattle.std.specs.Prelude.{◌≡◌, true, Ok, IfErr, IfOk, OnOk, ℤ, List};
ghost use Rattle.serde_json.specs.View.{view, items_view};
ghost use Rattle.words.specs.Reading.{Gives, never};
ghost use Rattle.snapshot_entries.specs.Ids.{HasIds, is_new};
ghost use Rattle.snapshot_entries.specs.List as spec;
ghost use Rattle.snapshot_entries.specs.Refusal.{is_memory};

use crate::refusal::SnapshotRefusal;
use json_members::{long_of, wrong};
use serde_json::Value;
use std::alloc::Global;
use std::collections::BTreeSet;

/// The most snapshots of a table. docs/FORMATS.md, "Limits".
const MOST_SNAPSHOTS: u64 = 10_000;

/// The most bytes of the path of a manifest list. docs/FORMATS.md, "Limits".
const MOST_PATH_BYTES: u64 = 1_024;

/// Checks that all items are objects, and that no two have one id. An id that is no whole number of
/// 64 bits is passed over.
pub fn check_ids(alloc: Global, items: &[Value]) -> Result<(), SnapshotRefusal>
    ensures exact { Gives is_memory (λ _. tt) result (spec.ids_checked (items_view items.now)) }
{
    if are_distinct(alloc, items)? {
        return Ok(());
    }
    Err(wrong(alloc, "snapshots").into())
}

/// Whether a snapshot has the id.
pub fn has_snapshot(items: &[Value], id: i64) -> bool
    ensures { result ≡ spec.has_snapshot (items_view items.now) id }
{
    for item in items {
        if id_of(item) == Some(id) {
            return true;
        }
    }
    false
}

/// Checks the number of the snapshots, and then the length of each path of a manifest list.
pub fn check_limits(items: &[Value]) -> Result<(), SnapshotRefusal>
    ensures exact { Gives never (λ _. tt) result (spec.limits_checked (items_view items.now)) }
{
    let count = items.len() as u64;
    if count > MOST_SNAPSHOTS {
        return Err(SnapshotRefusal::Snapshots { found: count });
    }
    check_paths(items)
}

fn check_paths(items: &[Value]) -> Result<(), SnapshotRefusal>
    ensures exact { Gives never (λ _. tt) result (spec.paths_checked (items_view items.now)) }
{
    for item in items {
        let length = path_length(item);
        if length > MOST_PATH_BYTES {
            return Err(SnapshotRefusal::Path { found: length });
        }
    }
    Ok(())
}

/// How many bytes the path of the manifest list has. 0: the item has no such text.
fn path_length(item: &Value) -> u64
    ensures { result ≡ spec.path_length (view item.now) }
{
    let path = match item.get("manifest-list") {
        Some(value) => value.as_str(),
        None => None,
    };
    match path {
        Some(path) => path.len() as u64,
        None => 0,
    }
}

/// The id of a snapshot. `None`: it has none that is a number.
fn id_of(item: &Value) -> Option<i64>
    ensures { result ≡ spec.id_of (view item.now) }
{
    match item.get("snapshot-id") {
        Some(id) => long_of(id),
        None => None,
    }
}

/// Whether all items are objects, and no two have one id.
fn are_distinct(alloc: Global, items: &[Value]) -> Result<bool, SnapshotRefusal>
    ensures exact { Gives is_memory (λ right. right) result
        (Ok (spec.are_distinct (items_view items.now))) }
{
    let mut ids = BTreeSet::new(alloc);
    for item in items {
        if !item.is_object() {
            return Ok(false);
        }
        if !is_new(&mut ids, id_of(item))? {
            return Ok(false);
        }
    }
    Ok(true)
}

/// Whether the id is new. It is then added.
fn is_new(ids: &mut BTreeSet<i64>, id: Option<i64>) -> Result<bool, SnapshotRefusal>
    ensures answer { (seen : List ℤ) → HasIds ids.old seen
        → IfOk result (λ new. new ≡ is_new seen id) }
    ensures kept { (seen : List ℤ) → HasIds ids.old seen
        → OnOk result (HasIds ids.new (spec.with_id id seen)) }
    ensures memory { IfErr result (λ e. is_memory e ≡ true) }
{
    match id {
        None => Ok(true),
        Some(id) => Ok(ids.insert(id)?),
    }
}
