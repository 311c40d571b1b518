//! The JSON values of snapshots.

ghost use Rattle.std.specs.Prelude.{◌≡◌, map, option_map, IfOk};
ghost use Rattle.serde_json.specs.View.{view, members_view};
ghost use Rattle.json_members.specs.Members.{with_fields};
ghost use Rattle.json_members.specs.Values.{whole};
ghost use Rattle.snapshot_entries.specs.Printing as spec;

use crate::snapshot::Snapshot;
use json_members::{Members, put, put_some};
use serde_json::Value;
use std::alloc::{AllocError, Global};

/// The objects of the snapshots, in order. An `Err` says that memory ran out.
pub fn snapshot_values(alloc: Global, snapshots: &[Snapshot]) -> Result<Vec<Value>, AllocError>
    ensures exact { IfOk result (λ values. map view values.items
        ≡ map spec.snapshot_value snapshots.now) }
{
    let mut values = Vec::new(alloc);
    for snapshot in snapshots {
        values.push(Value::Object(snapshot_members(alloc, snapshot)?))?;
    }
    Ok(values)
}

fn snapshot_members(alloc: Global, snapshot: &Snapshot) -> Result<Members, AllocError>
    ensures { IfOk result (λ members. members_view members.entries
        ≡ with_fields (spec.snapshot_fields snapshot.now) snapshot.now.rest) }
{
    let mut members = last_members(alloc, snapshot)?;
    let parent = number_value(snapshot.parent);
    put_some(alloc, &mut members, "parent-snapshot-id", parent)?;
    let sequence = Value::from(snapshot.sequence);
    put(alloc, &mut members, "sequence-number", sequence)?;
    put(
        alloc,
        &mut members,
        "timestamp-ms",
        Value::from(snapshot.time),
    )?;
    put(alloc, &mut members, "snapshot-id", Value::from(snapshot.id))?;
    Ok(members)
}

/// The last fields, beside what is carried.
fn last_members(alloc: Global, snapshot: &Snapshot) -> Result<Members, AllocError>
    ensures { IfOk result (λ members. members_view members.entries
        ≡ with_fields (spec.last_fields snapshot.now) snapshot.now.rest) }
{
    let mut members = snapshot.rest.to_members()?;
    let list = Value::try_from_str(alloc, snapshot.list.as_str())?;
    put(alloc, &mut members, "manifest-list", list)?;
    let added_rows = number_value(snapshot.added_rows);
    put_some(alloc, &mut members, "added-rows", added_rows)?;
    let first_row_id = number_value(snapshot.first_row_id);
    put_some(alloc, &mut members, "first-row-id", first_row_id)?;
    let schema_id = number_value(snapshot.schema_id);
    put_some(alloc, &mut members, "schema-id", schema_id)?;
    Ok(members)
}

fn number_value(number: Option<i64>) -> Option<Value>
    ensures { option_map view result ≡ option_map whole number }
{
    match number {
        Some(number) => Some(Value::from(number)),
        None => None,
    }
}
