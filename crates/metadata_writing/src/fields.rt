//! The members of the metadata's object.

ghost use Rattle.std.specs.Prelude.{◌≡◌, option_map, Some, IfOk};
ghost use Rattle.uuid.specs.Text.{hyphenated_text, lower, parsed};
ghost use Rattle.serde_json.specs.Data.{string};
ghost use Rattle.serde_json.specs.View.{view, members_view};
ghost use Rattle.json_members.specs.Members.{with_fields};
ghost use Rattle.json_members.specs.Values.{whole};
ghost use Rattle.metadata_writing.specs.Printing as spec;

use json_members::{Members, put, put_some};
use metadata_reading::TableMeta;
use serde_json::Value;
use snapshot_entries::snapshot_values;
use std::alloc::{AllocError, Global};
use uuid::Uuid;

/// The members of the object, with the value of the table's id. An `Err` says that memory ran out.
pub fn meta_members(alloc: Global, meta: &TableMeta, uuid: Value) -> Result<Members, AllocError>
    ensures { view uuid ≡ string (hyphenated_text lower meta.now.uuid)
        → IfOk result (λ members. members_view members.entries
        ≡ with_fields (spec.meta_fields meta.now) meta.now.rest) }
{
    let mut members = number_members(alloc, meta)?;
    let location = Value::try_from_str(alloc, meta.location.as_str())?;
    put(alloc, &mut members, "location", location)?;
    put(alloc, &mut members, "table-uuid", uuid)?;
    put(
        alloc,
        &mut members,
        "format-version",
        Value::from(meta.version),
    )?;
    Ok(members)
}

/// The text of the table's id, in lower case with hyphens. An `Err` says that memory ran out.
pub fn uuid_value(alloc: Global, uuid: [u8; 16]) -> Result<Value, AllocError>
    ensures text { IfOk result (λ value. view value ≡ string (hyphenated_text lower uuid)) }
    ensures parses { parsed (hyphenated_text lower uuid) ≡ Some uuid }
{
    let mut buffer = Uuid::encode_buffer();
    let text = Uuid::from_bytes(uuid)
        .hyphenated()
        .encode_lower(&mut buffer);
    Value::try_from_str(alloc, text)
}

/// The needed numbers and what follows them, beside what is carried.
fn number_members(alloc: Global, meta: &TableMeta) -> Result<Members, AllocError>
    ensures { IfOk result (λ members. members_view members.entries
        ≡ with_fields (spec.number_fields meta.now) meta.now.rest) }
{
    let mut members = last_members(alloc, meta)?;
    let spec_id = Value::from(meta.spec_id);
    put(alloc, &mut members, "default-spec-id", spec_id)?;
    let schema_id = Value::from(meta.schema_id);
    put(alloc, &mut members, "current-schema-id", schema_id)?;
    let updated = Value::from(meta.last_updated);
    put(alloc, &mut members, "last-updated-ms", updated)?;
    let sequence = Value::from(meta.last_sequence);
    put(alloc, &mut members, "last-sequence-number", sequence)?;
    Ok(members)
}

/// The last fields, beside what is carried.
fn last_members(alloc: Global, meta: &TableMeta) -> Result<Members, AllocError>
    ensures { IfOk result (λ members. members_view members.entries
        ≡ with_fields (spec.last_fields meta.now) meta.now.rest) }
{
    let mut members = meta.rest.to_members()?;
    let current = number_value(meta.current);
    put_some(alloc, &mut members, "current-snapshot-id", current)?;
    let snapshots = snapshot_values(alloc, meta.snapshots.as_slice())?;
    put(alloc, &mut members, "snapshots", Value::Array(snapshots))?;
    let next_row_id = number_value(meta.next_row_id);
    put_some(alloc, &mut members, "next-row-id", next_row_id)?;
    Ok(members)
}

fn number_value(number: Option<i64>) -> Option<Value>
    ensures { option_map view result ≡ option_map whole number }
{
    match number {
        Some(number) => Some(Value::from(number)),
        None => None,
    }
}
