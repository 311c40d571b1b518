//! The metadata after a commit with a snapshot.

ghost use Rattle.std.specs.Prelude.{◌≡◌, [], ◌∷◌, codes, IfOk, OnOk};
ghost use Rattle.serde_json.specs.View.{items_view, members_view};
ghost use Rattle.json_members.specs.Members.{with_fields};
ghost use Rattle.metadata_reading.specs.Table.{IsTable};
ghost use Rattle.metadata_changes.specs.Commit as spec;
ghost use Rattle.metadata_changes.specs.MayCome.{MayCome};
ghost use Rattle.metadata_changes.specs.Others.{KeepsOthers, KeepsIn};

use crate::logs::{metadata_entry, snapshot_entry, take_members, with_last, with_main};
use avro_wire::Text;
use json_members::{Members, put, take_items};
use lists::Copied;
use metadata_reading::TableMeta;
use serde_json::Value;
use snapshot_entries::{Snapshot, Tree};
use std::alloc::{AllocError, Global};

/// The metadata after a commit with a snapshot, which becomes the current one. `path`: the path of
/// the old metadata's file. An `Err` says that memory ran out.
/// Iceberg spec, "Table Metadata Fields".
pub fn with_snapshot(
    alloc: Global,
    meta: &TableMeta,
    path: &Text,
    snapshot: Snapshot,
    next_row_id: Option<i64>,
) -> Result<TableMeta, AllocError>
    ensures changed { IfOk result
        (λ after. after ≡ spec.with_snapshot meta.now path.now snapshot next_row_id) }
    ensures table { IsTable meta.now → MayCome meta.now snapshot next_row_id → IfOk result IsTable }
    // What is carried stays, except that two logs have one entry more, and `main` moves.
    ensures others { IfOk result (λ after. KeepsOthers
        (codes "snapshot-log" ∷ codes "metadata-log" ∷ codes "refs" ∷ [])
        meta.now.rest after.rest) }
    ensures refs { IfOk result (λ after. KeepsIn (codes "refs")
        (KeepsOthers (codes "main" ∷ [])) meta.now.rest after.rest) }
    ensures main { IfOk result (λ after. KeepsIn (codes "refs")
        (KeepsIn (codes "main") (KeepsOthers (codes "snapshot-id" ∷ [])))
        meta.now.rest after.rest) }
{
    let after = changed(alloc, meta, path, snapshot, next_row_id)?;
    Ok(after)
}

fn changed(
    alloc: Global,
    meta: &TableMeta,
    path: &Text,
    snapshot: Snapshot,
    next_row_id: Option<i64>,
) -> Result<TableMeta, AllocError>
    ensures { IfOk result
        (λ after. after ≡ spec.with_snapshot meta.now path.now snapshot next_row_id) }
{
    let location = meta.location.copy(alloc)?;
    let columns = meta.columns.copy(alloc)?;
    let id = snapshot.id;
    let time = snapshot.time;
    let sequence = snapshot.sequence;
    let rest = changed_rest(alloc, &meta.rest, path, meta.last_updated, id, time)?;
    let mut snapshots = meta.snapshots.copy(alloc)?;
    snapshots.push(snapshot)?;
    Ok(TableMeta {
        version: meta.version,
        uuid: meta.uuid,
        location,
        last_sequence: sequence,
        last_updated: time,
        columns,
        schema_id: meta.schema_id,
        spec_id: meta.spec_id,
        next_row_id,
        current: Some(id),
        snapshots,
        rest,
    })
}

/// The carried members after the commit. What was there is copied once, and then moved.
fn changed_rest(
    alloc: Global,
    rest: &Tree,
    path: &Text,
    old: i64,
    id: i64,
    time: i64,
) -> Result<Tree, AllocError>
    ensures { IfOk result (λ after. after ≡ spec.changed_rest rest.now path.now old id time) }
{
    let mut members = rest.to_members()?;
    let snapshot_log = take_items(alloc, &mut members, "snapshot-log");
    let metadata_log = take_items(alloc, &mut members, "metadata-log");
    let refs = take_members(alloc, &mut members, "refs");
    let snapshot_log = with_last(snapshot_log, snapshot_entry(alloc, id, time)?)?;
    let metadata_log = with_last(metadata_log, metadata_entry(alloc, path.as_str(), old)?)?;
    let refs = with_main(alloc, refs, id)?;
    put_all(alloc, &mut members, snapshot_log, metadata_log, refs)?;
    Ok(Tree::from_members(members))
}

/// Puts in what the commit changed.
fn put_all(
    alloc: Global,
    members: &mut Members,
    snapshot_log: Vec<Value>,
    metadata_log: Vec<Value>,
    refs: Members,
) -> Result<(), AllocError>
    ensures ok { OnOk result (members_view members.new.entries
        ≡ with_fields (spec.fields_of (items_view snapshot_log.items)
        (items_view metadata_log.items) (members_view refs.entries))
        (members_view members.old.entries)) }
{
    put(alloc, members, "refs", Value::Object(refs))?;
    put(alloc, members, "metadata-log", Value::Array(metadata_log))?;
    put(alloc, members, "snapshot-log", Value::Array(snapshot_log))?;
    Ok(())
}
