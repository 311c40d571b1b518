//! The metadata after an upgrade to version 3.

ghost use Rattle.std.specs.Prelude.{◌≡◌, ◌≤ℤ◌, [], ◌∷◌, map, codes, IfOk};
ghost use Rattle.json_members.specs.Members.{without};
ghost use Rattle.metadata_reading.specs.Table.{IsTable};
ghost use Rattle.metadata_changes.specs.Others.{KeepsOthers, SnapshotsKeepOthers};
ghost use Rattle.metadata_changes.specs.Upgrade as spec;

use crate::logs::{metadata_entry, with_last};
use crate::numbers::larger;
use avro_wire::Text;
use json_members::{put, take, take_items};
use lists::{Copied, List};
use metadata_reading::TableMeta;
use serde_json::Value;
use snapshot_entries::{Snapshot, Snapshots, Tree};
use std::alloc::{AllocError, Global};

/// The metadata after an upgrade to version 3 at the moment `now`, in milliseconds from 1970-01-01
/// 00:00:00 UTC. It was last updated at `now`, or when the old metadata was, if that is later.
/// `path`: the path of the old metadata's file. An `Err` says that memory ran out.
/// Iceberg spec, "Row Lineage for Upgraded Tables".
pub fn upgraded(
    alloc: Global,
    meta: &TableMeta,
    path: &Text,
    now: i64,
) -> Result<TableMeta, AllocError>
    ensures changed { IfOk result (λ after. after ≡ spec.upgraded meta.now path.now now) }
    ensures table { IsTable meta.now → meta.now.version ≡ 2 → IfOk result IsTable }
    // The moment isn't before the old one, nor before `now`.
    ensures not_before { IfOk result (λ after. meta.now.last_updated ≤ℤ after.last_updated) }
    ensures reached { IfOk result (λ after. now ≤ℤ after.last_updated) }
    // What is carried stays, except the log of metadata files and what version 3 has in fields.
    ensures others { IfOk result (λ after. KeepsOthers
        (codes "metadata-log" ∷ codes "next-row-id" ∷ []) meta.now.rest after.rest) }
    ensures snapshots { IfOk result (λ after. SnapshotsKeepOthers
        (codes "first-row-id" ∷ codes "added-rows" ∷ []) meta.now.snapshots after.snapshots) }
{
    let after = changed(alloc, meta, path, now)?;
    Ok(after)
}

fn changed(alloc: Global, meta: &TableMeta, path: &Text, now: i64) -> Result<TableMeta, AllocError>
    ensures { IfOk result (λ after. after ≡ spec.upgraded meta.now path.now now) }
{
    let location = meta.location.copy(alloc)?;
    let columns = meta.columns.copy(alloc)?;
    let rest = changed_rest(alloc, &meta.rest, path, meta.last_updated)?;
    let snapshots = changed_snapshots(alloc, meta.snapshots.as_slice())?;
    Ok(TableMeta {
        version: 3,
        uuid: meta.uuid,
        location,
        last_sequence: meta.last_sequence,
        last_updated: larger(meta.last_updated, now),
        columns,
        schema_id: meta.schema_id,
        spec_id: meta.spec_id,
        next_row_id: Some(0),
        current: meta.current,
        snapshots,
        rest,
    })
}

/// The carried members after the upgrade. What was there is copied once, and then moved.
fn changed_rest(alloc: Global, rest: &Tree, path: &Text, old: i64) -> Result<Tree, AllocError>
    ensures { IfOk result (λ after. after ≡ spec.upgraded_rest rest.now path.now old) }
{
    let mut members = rest.to_members()?;
    let log = take_items(alloc, &mut members, "metadata-log");
    drop(take(&mut members, "next-row-id"));
    let log = with_last(log, metadata_entry(alloc, path.as_str(), old)?)?;
    put(alloc, &mut members, "metadata-log", Value::Array(log))?;
    Ok(Tree::from_members(members))
}

fn changed_snapshots(alloc: Global, snapshots: &[Snapshot]) -> Result<Snapshots, AllocError>
    ensures { IfOk result (λ after. after ≡ map spec.upgraded_snapshot snapshots.now) }
{
    let mut after = List::new(alloc);
    for snapshot in snapshots {
        after.push(changed_snapshot(alloc, snapshot)?)?;
    }
    Ok(after)
}

fn changed_snapshot(alloc: Global, snapshot: &Snapshot) -> Result<Snapshot, AllocError>
    ensures { IfOk result (λ after. after ≡ spec.upgraded_snapshot snapshot.now) }
{
    let rest = without_new(&snapshot.rest)?;
    Ok(Snapshot {
        id: snapshot.id,
        parent: snapshot.parent,
        sequence: snapshot.sequence,
        time: snapshot.time,
        list: snapshot.list.copy(alloc)?,
        schema_id: snapshot.schema_id,
        first_row_id: snapshot.first_row_id,
        added_rows: snapshot.added_rows,
        rest,
    })
}

/// The carried members without those that version 3 has in fields.
fn without_new(rest: &Tree) -> Result<Tree, AllocError>
    ensures { IfOk result (λ after. after ≡ without spec.new_in_snapshots rest.now) }
{
    let mut members = rest.to_members()?;
    drop(take(&mut members, "first-row-id"));
    drop(take(&mut members, "added-rows"));
    Ok(Tree::from_members(members))
}
