//! The metadata of a JSON text.

ghost use Rattle.std.specs.Prelude.{◌≡◌, ◌∷◌, [], codes, Ok, IfErr, IfOk};
ghost use Rattle.std.specs.Bool.{OnFalse};
ghost use Rattle.serde_json.specs.Find.{get_member, as_object};
ghost use Rattle.serde_json.specs.View.{view, members_view};
ghost use Rattle.words.specs.Reading.{Gives};
ghost use Rattle.json_members.specs.Members.{without};
ghost use Rattle.json_members.specs.Values.{text_or_empty};
ghost use Rattle.metadata_reading.specs.declared.meta.TableMeta.{TableMeta as Meta};
ghost use Rattle.metadata_reading.specs.Cause.{IsMetaCause};
ghost use Rattle.metadata_reading.specs.Members.{known};
ghost use Rattle.metadata_reading.specs.Reading as spec;
ghost use Rattle.metadata_reading.specs.Refusal.{is_memory};
ghost use Rattle.metadata_reading.specs.Relation.{IsMetaText};
ghost use Rattle.metadata_reading.specs.Table.{IsTable};
ghost use Rattle.metadata_reading.specs.Version.{format};

use crate::braces::has_too_many_braces;
use crate::members::members as all_members;
use crate::meta::TableMeta;
use crate::reading::{current_at, format_of, head_of, items_at};
use crate::refusal::{MetaRefusal, wrong};
use crate::schemas::{are_unpartitioned, columns_of, is_none};
use avro_wire::Text;
use json_members::{
    Members, Version, is_whole, leave_out_fields, number_or_0, number_since, parse, take_items,
    text_at,
};
use row_types::Columns;
use serde_json::Value;
use snapshot_entries::{Snapshot, Snapshots, Tree, has_keys, read_snapshots};
use std::alloc::Global;

/// The metadata of a JSON text in UTF-8. A member that is named twice counts as its last. Members
/// that have no field are moved into `rest`, and printed as they were read.
///
/// The checks run in the order of docs/FORMATS.md, "Table metadata". A text of more than 1,000,000
/// opening braces, counted in strings too, is answered with `Memory`. Iceberg spec, "Table Metadata
/// and Snapshots", and Appendix C.
pub fn read_meta(alloc: Global, bytes: &[u8]) -> Result<TableMeta, MetaRefusal>
    // It is the metadata of the text, and that of each text that has metadata is read.
    ensures found { IfOk result (IsMetaText bytes.now) }
    ensures only { (meta : Meta) → IsMetaText bytes.now meta
        → Gives is_memory (λ meta. meta) result (Ok meta) }
    // Its printed text is read as it.
    ensures table { IfOk result IsTable }
    // Which refusal comes, and why.
    ensures exact { Gives is_memory (λ meta. meta) result (spec.meta_of_text bytes.now) }
    ensures cause { IfErr result (λ e. OnFalse (is_memory e) (IsMetaCause bytes.now e)) }
{
    if has_too_many_braces(bytes) {
        return Err(MetaRefusal::Memory);
    }
    meta_of_text(alloc, bytes)
}

/// The metadata of a text.
fn meta_of_text(alloc: Global, text: &[u8]) -> Result<TableMeta, MetaRefusal>
    ensures exact { Gives is_memory (λ meta. meta) result (spec.meta_of_text text.now) }
{
    match parse(alloc, text)? {
        Some(value) => meta_of_value(alloc, value),
        None => Err(MetaRefusal::NotJson),
    }
}

fn meta_of_value(alloc: Global, value: Value) -> Result<TableMeta, MetaRefusal>
    ensures exact { Gives is_memory (λ meta. meta) result (spec.meta_of_whole (view value)) }
{
    if !is_whole(&value) {
        return Err(MetaRefusal::Fraction);
    }
    meta_of_object(alloc, value)
}

fn meta_of_object(alloc: Global, value: Value) -> Result<TableMeta, MetaRefusal>
    ensures exact { Gives is_memory (λ meta. meta) result
        (spec.object_or_wrong (as_object (view value))) }
{
    match value {
        Value::Object(members) => meta_of(alloc, members),
        _ => Err(wrong(alloc, "")),
    }
}

fn meta_of(alloc: Global, members: Members) -> Result<TableMeta, MetaRefusal>
    ensures exact { Gives is_memory (λ meta. meta) result
        (spec.meta_of (members_view members.entries)) }
{
    let mut members = members;
    let (version, uuid) = head_of(alloc, &members)?;
    let location = location_of(alloc, &members)?;
    let (snapshots, columns) = parts_of(alloc, &mut members, format_of(version))?;
    Ok(record_of(members, (version, uuid), location, (snapshots, columns)))
}

/// The table's location, in memory of its own.
fn location_of(alloc: Global, members: &Members) -> Result<Text, MetaRefusal>
    ensures exact { Gives is_memory (λ text. text) result
        (Ok (text_or_empty (get_member (codes "location") (members_view members.now.entries)))) }
{
    match text_at(members, "location") {
        Some(text) => Ok(Text::from_str(alloc, text)?),
        None => Ok(Text::from_str(alloc, "")?),
    }
}

/// The snapshots, which are taken out of the members, and the columns.
#[tactic(auto, using(crate::proofs::MetadataSteps::parts_is, crate::proofs::MetadataSteps::parts_refused))]
fn parts_of(
    alloc: Global,
    members: &mut Members,
    version: Version,
) -> Result<(Snapshots, Columns), MetaRefusal>
    ensures exact { Gives is_memory (λ parts. parts) result
        (spec.parts_by version (λ name. get_member name (members_view members.old.entries))) }
    ensures left { members_view members.new.entries
        ≡ without (codes "snapshots" ∷ []) (members_view members.old.entries) }
{
    let last = number_or_0(members, "last-sequence-number");
    let items = take_items(alloc, members, "snapshots");
    let snapshots = read_snapshots(alloc, version, last, items)?;
    let columns = checked_columns(alloc, members, snapshots.as_slice())?;
    Ok((snapshots, columns))
}

/// The columns, if nothing is encrypted or partitioned.
fn checked_columns(
    alloc: Global,
    members: &Members,
    snapshots: &[Snapshot],
) -> Result<Columns, MetaRefusal>
    ensures exact { Gives is_memory (λ columns. columns) result (spec.columns_by
        (λ name. get_member name (members_view members.now.entries)) snapshots.now) }
{
    if !is_none(items_at(members, "encryption-keys")) || has_keys(snapshots) {
        return Err(MetaRefusal::Encrypted);
    }
    if !are_unpartitioned(items_at(members, "partition-specs")) {
        return Err(MetaRefusal::Partitioned);
    }
    let id = number_or_0(members, "current-schema-id");
    columns_of(alloc, id, items_at(members, "schemas"))
}

/// The record of the members, once the snapshots are taken out of them.
fn record_of(
    members: Members,
    head: (u8, [u8; 16]),
    location: Text,
    parts: (Snapshots, Columns),
) -> TableMeta
    ensures { result ≡ spec.record_of (λ name. get_member name (members_view members.entries))
        (without (known (format head.0)) (members_view members.entries)) head location parts }
{
    let mut members = members;
    let (version, uuid) = head;
    let (snapshots, columns) = parts;
    let last_sequence = number_or_0(&members, "last-sequence-number");
    let last_updated = number_or_0(&members, "last-updated-ms");
    let schema_id = number_or_0(&members, "current-schema-id");
    let spec_id = number_or_0(&members, "default-spec-id");
    let next_row_id = number_since(format_of(version), &members, "next-row-id");
    let current = current_at(&members);
    leave_out_fields(&mut members, all_members(), format_of(version));
    TableMeta {
        version,
        uuid,
        location,
        last_sequence,
        last_updated,
        columns,
        schema_id,
        spec_id,
        next_row_id,
        current,
        snapshots,
        rest: Tree::from_members(members),
    }
}
