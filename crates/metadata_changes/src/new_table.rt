//! The metadata of a new table.

ghost use Rattle.std.specs.Prelude.{◌≡◌, ◌⊎◌, codes, IfOk, OnOk, pos};
ghost use Rattle.serde_json.specs.Data.{put as with_member, array, object, no_items};
ghost use Rattle.serde_json.specs.Data.{item, no_members};
ghost use Rattle.serde_json.specs.Find.{get_member};
ghost use Rattle.serde_json.specs.View.{members_view};
ghost use Rattle.json_members.specs.Members.{with_fields};
ghost use Rattle.row_types.specs.Columns.{IsColumns};
ghost use Rattle.metadata_reading.specs.Table.{IsTable};
ghost use Rattle.metadata_reading.specs.Version.{format};
ghost use Rattle.metadata_changes.specs.Fresh as spec;
ghost use Rattle.metadata_changes.specs.LastColumn.{IsLastColumnId};

use crate::numbers::larger;
use avro_wire::Text;
use json_members::{Members, put};
use lists::{Copied, List};
use metadata_reading::TableMeta;
use row_types::{Column, Columns};
use schema_columns::schema_members;
use serde_json::Value;
use snapshot_entries::Tree;
use std::alloc::{AllocError, Global};

/// The metadata of a new table without snapshots, made at the moment `now` in milliseconds from
/// 1970-01-01 00:00:00 UTC. An `Err` says that memory ran out.
/// Iceberg spec, "Table Metadata Fields".
pub fn fresh(
    alloc: Global,
    uuid: [u8; 16],
    version: u8,
    location: &Text,
    columns: &Columns,
    now: i64,
) -> Result<TableMeta, AllocError>
    requires version { (version ≡ 2) ⊎ (version ≡ 3) }
    ensures value { IfOk result
        (λ meta. meta ≡ spec.fresh uuid version location.now columns.now now) }
    ensures table { IfOk result IsTable }
    ensures last_column_id { IfOk result
        (λ meta. IsLastColumnId columns.now (get_member (codes "last-column-id") meta.rest)) }
{
    let meta = meta_of(alloc, uuid, version, location, columns, now)?;
    Ok(meta)
}

fn meta_of(
    alloc: Global,
    uuid: [u8; 16],
    version: u8,
    location: &Text,
    columns: &Columns,
    now: i64,
) -> Result<TableMeta, AllocError>
    ensures value { IfOk result
        (λ meta. meta ≡ spec.fresh uuid version location.now columns.now now) }
    ensures columns { IfOk result (λ _. IsColumns columns.now) }
{
    let location = location.copy(alloc)?;
    let members = members_of(alloc, columns.as_slice())?;
    Ok(TableMeta {
        version,
        uuid,
        location,
        last_sequence: 0,
        last_updated: now,
        columns: columns.copy(alloc)?,
        schema_id: 0,
        spec_id: 0,
        next_row_id: first_next(version),
        current: None,
        snapshots: List::new(alloc),
        rest: Tree::from_members(members),
    })
}

fn first_next(version: u8) -> Option<i64>
    ensures { result ≡ spec.first_next (format version) }
{
    if version == 3 { Some(0) } else { None }
}

/// The members that have no field.
fn members_of(alloc: Global, columns: &[Column]) -> Result<Members, AllocError>
    ensures { IfOk result (λ members. members_view members.entries
        ≡ with_fields (spec.fresh_fields columns.now) no_members) }
{
    let mut members = empty_lists(alloc, columns)?;
    put(
        alloc,
        &mut members,
        "last-partition-id",
        Value::from(999_i64),
    )?;
    let last = greatest(columns);
    put(alloc, &mut members, "last-column-id", Value::from(last))?;
    put(
        alloc,
        &mut members,
        "default-sort-order-id",
        Value::from(0_i64),
    )?;
    Ok(members)
}

fn empty_lists(alloc: Global, columns: &[Column]) -> Result<Members, AllocError>
    ensures { IfOk result (λ members. members_view members.entries
        ≡ with_fields (spec.empty_list_fields columns.now) no_members) }
{
    let mut members = lists(alloc, columns)?;
    put(
        alloc,
        &mut members,
        "snapshot-log",
        Value::Array(Vec::new(alloc)),
    )?;
    put(
        alloc,
        &mut members,
        "refs",
        Value::Object(Members::new(alloc)),
    )?;
    put(
        alloc,
        &mut members,
        "properties",
        Value::Object(Members::new(alloc)),
    )?;
    put(
        alloc,
        &mut members,
        "metadata-log",
        Value::Array(Vec::new(alloc)),
    )?;
    Ok(members)
}

fn lists(alloc: Global, columns: &[Column]) -> Result<Members, AllocError>
    ensures { IfOk result (λ members. members_view members.entries
        ≡ with_fields (spec.list_fields columns.now) no_members) }
{
    let mut members = Members::new(alloc);
    let order = empty(alloc, "order-id")?;
    put_list(alloc, &mut members, "sort-orders", order)?;
    let schema = schema_members(alloc, columns)?;
    put_list(alloc, &mut members, "schemas", schema)?;
    let partitions = empty(alloc, "spec-id")?;
    put_list(alloc, &mut members, "partition-specs", partitions)?;
    Ok(members)
}

/// Puts a list of one object at the name.
fn put_list(
    alloc: Global,
    members: &mut Members,
    name: &str,
    only: Members,
) -> Result<(), AllocError>
    ensures ok { OnOk result (members_view members.new.entries
        ≡ with_member name.now (array (item (object (members_view only.entries)) no_items))
        (members_view members.old.entries)) }
{
    let mut items = Vec::new(alloc);
    items.push(Value::Object(only))?;
    put(alloc, members, name, Value::Array(items))?;
    Ok(())
}

/// An object with a list of no fields, and the id 0 at the name.
fn empty(alloc: Global, name: &str) -> Result<Members, AllocError>
    ensures { IfOk result (λ members. members_view members.entries ≡ spec.empty_of name.now) }
{
    let mut members = Members::new(alloc);
    put(alloc, &mut members, name, Value::from(0_i64))?;
    put(alloc, &mut members, "fields", Value::Array(Vec::new(alloc)))?;
    Ok(members)
}

/// The greatest id of a column.
fn greatest(columns: &[Column]) -> i64
    ensures { result ≡ spec.greatest (pos 0) columns.now }
{
    let mut most = 0_i64;
    for column in columns {
        most = larger(most, i64::from(column.id));
    }
    most
}
