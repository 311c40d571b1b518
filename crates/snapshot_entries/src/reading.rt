//! The snapshots of a list of JSON values.

ghost use Rattle.std.specs.Prelude.{◌≡◌, [], Ok, IfErr, IfOk, List};
ghost use Rattle.std.specs.Bool.{OnFalse};
ghost use Rattle.serde_json.specs.Find.{get_member};
ghost use Rattle.serde_json.specs.View.{view, items_view, members_view};
ghost use Rattle.json_members.specs.Plain.{ItemsArePlain};
ghost use Rattle.words.specs.Reading.{Gives};
ghost use Rattle.snapshot_entries.specs.declared.snapshot.Snapshot.{Snapshot as ASnapshot};
ghost use Rattle.snapshot_entries.specs.Cause.{IsListCause};
ghost use Rattle.snapshot_entries.specs.Reading as spec;
ghost use Rattle.snapshot_entries.specs.Refusal.{is_memory};
ghost use Rattle.snapshot_entries.specs.Relation.{AreSnapshotsOf};
ghost use Rattle.snapshot_entries.specs.Snapshot.{AreSnapshots};

use crate::list::check_limits;
use crate::members::{first_members, members as all_members, other_members};
use crate::refusal::SnapshotRefusal;
use crate::snapshot::{Snapshot, Snapshots};
use crate::tree::Tree;
use avro_wire::Text;
use json_members::{
    Members, Version, check_all, leave_out_fields, number_at, number_or_0, number_since, text_at,
    wrong,
};
use lists::List;
use serde_json::Value;
use std::alloc::Global;

/// The snapshots of a table of this version, whose last sequence number is `last`, read from the
/// items of its list in order. The limits of the list are checked first. What has no field is
/// moved, and not copied.
pub fn read_snapshots(
    alloc: Global,
    version: Version,
    last: i64,
    items: Vec<Value>,
) -> Result<Snapshots, SnapshotRefusal>
    // They are those of the objects, and each list that has snapshots is read.
    ensures found { IfOk result (AreSnapshotsOf version last (items_view items.items)) }
    ensures only { (snapshots : List ASnapshot)
        → AreSnapshotsOf version last (items_view items.items) snapshots
        → Gives is_memory (λ read. read) result (Ok snapshots) }
    // Which refusal comes, and why.
    ensures exact { Gives is_memory (λ read. read) result
        (spec.snapshots_in version last (items_view items.items)) }
    ensures cause { IfErr result (λ e.
        OnFalse (is_memory e) (IsListCause version last (items_view items.items) e)) }
    // Each has an object that is read as it.
    ensures kept { ItemsArePlain 125 (items_view items.items)
        → IfOk result (AreSnapshots version last) }
{
    snapshots_in(alloc, version, last, items)
}

fn snapshots_in(
    alloc: Global,
    version: Version,
    last: i64,
    items: Vec<Value>,
) -> Result<Snapshots, SnapshotRefusal>
    ensures exact { Gives is_memory (λ read. read) result
        (spec.snapshots_in version last (items_view items.items)) }
{
    check_limits(&items)?;
    snapshots_of(alloc, version, last, items)
}

fn snapshots_of(
    alloc: Global,
    version: Version,
    last: i64,
    items: Vec<Value>,
) -> Result<Snapshots, SnapshotRefusal>
    ensures exact { Gives is_memory (λ read. read) result
        (spec.snapshots_from version last [] (items_view items.items)) }
{
    let mut snapshots = List::new(alloc);
    for item in items {
        snapshots.push(snapshot_at(alloc, version, last, item)?)?;
    }
    Ok(snapshots)
}

fn snapshot_at(
    alloc: Global,
    version: Version,
    last: i64,
    item: Value,
) -> Result<Snapshot, SnapshotRefusal>
    ensures exact { Gives is_memory (λ snapshot. snapshot) result
        (spec.snapshot_at version last (view item)) }
{
    match item {
        Value::Object(members) => snapshot_of(alloc, version, last, members),
        _ => Err(wrong(alloc, "snapshots").into()),
    }
}

fn snapshot_of(
    alloc: Global,
    version: Version,
    last: i64,
    members: Members,
) -> Result<Snapshot, SnapshotRefusal>
    ensures exact { Gives is_memory (λ snapshot. snapshot) result
        (spec.snapshot_of version last (members_view members.entries)) }
{
    let path = path_of(alloc, version, last, &members)?;
    Ok(snapshot_with(version, members, path))
}

/// The snapshot of members that no check refuses.
fn snapshot_with(version: Version, members: Members, path: Text) -> Snapshot
    ensures { result ≡ spec.of_members version (members_view members.entries) path }
{
    let mut members = members;
    let id = number_or_0(&members, "snapshot-id");
    let parent = number_at(&members, "parent-snapshot-id");
    let sequence = number_or_0(&members, "sequence-number");
    let time = number_or_0(&members, "timestamp-ms");
    let schema_id = number_at(&members, "schema-id");
    let first_row_id = number_since(version, &members, "first-row-id");
    let added_rows = number_since(version, &members, "added-rows");
    leave_out_fields(&mut members, all_members(), version);
    Snapshot {
        id,
        parent,
        sequence,
        time,
        list: path,
        schema_id,
        first_row_id,
        added_rows,
        rest: Tree::from_members(members),
    }
}

/// The path of the manifest list, if no check refuses the snapshot.
fn path_of(
    alloc: Global,
    version: Version,
    last: i64,
    members: &Members,
) -> Result<Text, SnapshotRefusal>
    ensures exact { Gives is_memory (λ path. path) result
        (spec.path_by version last (λ name. get_member name (members_view members.now.entries))) }
{
    check_all(alloc, members, first_members(), version)?;
    check_passed(alloc, last, number_or_0(members, "sequence-number"))?;
    check_all(alloc, members, other_members(), version)?;
    match text_at(members, "manifest-list") {
        Some(path) => Ok(Text::from_str(alloc, path)?),
        None => Err(SnapshotRefusal::NoManifestList {
            id: number_or_0(members, "snapshot-id"),
        }),
    }
}

/// Checks that the sequence number is at most the table's last one.
fn check_passed(alloc: Global, last: i64, sequence: i64) -> Result<(), SnapshotRefusal>
    ensures exact { Gives is_memory (λ _. tt) result (spec.passed last sequence) }
{
    if last < sequence {
        return Err(wrong(alloc, "sequence-number").into());
    }
    Ok(())
}
