//! The metadata that a JSON text is.

ghost use Rattle.std.specs.Prelude.{◌≡◌, codes, Ok};
ghost use Rattle.serde_json.specs.Find.{get_member};
ghost use Rattle.serde_json.specs.View.{view, items_view, members_view};
ghost use Rattle.words.specs.Reading.{Gives};
ghost use Rattle.json_members.specs.Form.{items_in};
ghost use Rattle.metadata_reading.specs.Reading as spec;
ghost use Rattle.metadata_reading.specs.Refusal.{is_memory};
ghost use Rattle.metadata_reading.specs.Version as version_spec;

use crate::members::{
    current_members, first_members, last_members, number_members, partition_members,
    schema_members, uuid_members,
};
use crate::refusal::{MetaRefusal, wrong};
use crate::schemas::{check_current_schema, check_schemas, check_specs};
use json_members::{
    Members, Version, check_all, long_of, member, missing, number_at, number_or_0, text_at,
};
use serde_json::Value;
use snapshot_entries::{check_ids, has_snapshot};
use std::alloc::Global;
use uuid::Uuid;

/// Which members a version of the format has.
pub fn format_of(version: u8) -> Version
    ensures { result ≡ version_spec.format version }
{
    if version == 3 {
        Version::Newer
    } else {
        Version::Older
    }
}

/// The version and the table's id, if no member has a fault.
#[tactic(auto, using(crate::proofs::ReadingSteps::head_is, crate::proofs::ReadingSteps::head_refused))]
pub fn head_of(alloc: Global, members: &Members) -> Result<(u8, [u8; 16]), MetaRefusal>
    ensures exact { Gives is_memory (λ head. head) result
        (spec.head_by (λ name. get_member name (members_view members.now.entries))) }
{
    let version = version_of(alloc, members)?;
    let uuid = uuid_at(alloc, members, version)?;
    Ok((version, uuid))
}

fn uuid_at(alloc: Global, members: &Members, version: u8) -> Result<[u8; 16], MetaRefusal>
    ensures exact { Gives is_memory (λ uuid. uuid) result (spec.uuid_by
        (version_spec.format version) (λ name. get_member name (members_view members.now.entries))) }
{
    checked_uuid(alloc, members, format_of(version))
}

/// The table's id, if no member has a fault.
fn checked_uuid(alloc: Global, members: &Members, version: Version) -> Result<[u8; 16], MetaRefusal>
    ensures exact { Gives is_memory (λ uuid. uuid) result
        (spec.uuid_by version (λ name. get_member name (members_view members.now.entries))) }
{
    check_all(alloc, members, uuid_members(), version)?;
    let uuid = uuid_of(alloc, members)?;
    check_members(alloc, members, version)?;
    Ok(uuid)
}

fn version_of(alloc: Global, members: &Members) -> Result<u8, MetaRefusal>
    ensures exact { Gives is_memory (λ version. version) result (version_spec.version_in
        (get_member (codes "format-version") (members_view members.now.entries))) }
{
    let Some(value) = member(members, "format-version") else {
        return Err(missing(alloc, "format-version").into());
    };
    let Some(number) = long_of(value) else {
        return Err(wrong(alloc, "format-version"));
    };
    if number == 2 {
        return Ok(2);
    }
    if number == 3 {
        return Ok(3);
    }
    Err(MetaRefusal::Version { n: number })
}

fn uuid_of(alloc: Global, members: &Members) -> Result<[u8; 16], MetaRefusal>
    ensures exact { Gives is_memory (λ uuid. uuid) result (version_spec.uuid_in
        (get_member (codes "table-uuid") (members_view members.now.entries))) }
{
    let Some(text) = text_at(members, "table-uuid") else {
        return Err(wrong(alloc, "table-uuid"));
    };
    match Uuid::parse_str(text) {
        Ok(uuid) => Ok(uuid.into_bytes()),
        Err(_) => Err(wrong(alloc, "table-uuid")),
    }
}

/// Checks all members after the table's id.
fn check_members(alloc: Global, members: &Members, version: Version) -> Result<(), MetaRefusal>
    ensures exact { Gives is_memory (λ _. tt) result
        (spec.members_by version (λ name. get_member name (members_view members.now.entries))) }
{
    check_schema_members(alloc, members, version)?;
    check_all(alloc, members, partition_members(), version)?;
    check_specs(alloc, items_at(members, "partition-specs"))?;
    check_snapshot_members(alloc, members, version)?;
    check_all(alloc, members, last_members(), version)?;
    Ok(())
}

/// Checks the members up to the schemas, and which of these is the current one.
fn check_schema_members(
    alloc: Global,
    members: &Members,
    version: Version,
) -> Result<(), MetaRefusal>
    ensures exact { Gives is_memory (λ _. tt) result
        (spec.schemas_by version (λ name. get_member name (members_view members.now.entries))) }
{
    check_all(alloc, members, first_members(), version)?;
    let schemas = items_at(members, "schemas");
    check_schemas(alloc, schemas)?;
    check_all(alloc, members, schema_members(), version)?;
    check_current_schema(alloc, number_or_0(members, "current-schema-id"), schemas)
}

/// Checks the members up to the snapshots, and which of these is the current one.
fn check_snapshot_members(
    alloc: Global,
    members: &Members,
    version: Version,
) -> Result<(), MetaRefusal>
    ensures exact { Gives is_memory (λ _. tt) result
        (spec.snapshots_by version (λ name. get_member name (members_view members.now.entries))) }
{
    check_all(alloc, members, number_members(), version)?;
    let snapshots = items_at(members, "snapshots");
    check_ids(alloc, snapshots)?;
    check_all(alloc, members, current_members(), version)?;
    check_current(alloc, current_at(members), snapshots)
}

/// Checks that some snapshot has the id, if there is one.
fn check_current(alloc: Global, id: Option<i64>, items: &[Value]) -> Result<(), MetaRefusal>
    ensures exact { Gives is_memory (λ _. tt) result
        (spec.current_checked id (items_view items.now)) }
{
    let Some(id) = id else {
        return Ok(());
    };
    if has_snapshot(items, id) {
        return Ok(());
    }
    Err(wrong(alloc, "current-snapshot-id"))
}

/// The id of the current snapshot. `None`: it is missing, null or -1.
pub fn current_at(members: &Members) -> Option<i64>
    ensures { result ≡ spec.current_in
        (get_member (codes "current-snapshot-id") (members_view members.now.entries)) }
{
    let id = number_at(members, "current-snapshot-id")?;
    if id == -1 { None } else { Some(id) }
}

/// The items of a list, borrowed. A member that is missing, or is no list, has no items.
pub fn items_at<'v>(members: &'v Members, name: &str) -> &'v [Value]
    ensures { items_view result.now
        ≡ items_in (get_member name.now (members_view members.now.entries)) }
{
    match member(members, name) {
        Some(Value::Array(items)) => items.as_slice(),
        _ => &[],
    }
}
