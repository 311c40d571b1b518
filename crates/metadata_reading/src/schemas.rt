//! The schemas and the partition specs of a table.

ghost use Rattle.std.specs.Prelude.{◌≡◌, option_and_then, option_map};
ghost use Rattle.serde_json.specs.Find.{as_object, get};
ghost use Rattle.serde_json.specs.View.{view, items_view, members_view};
ghost use Rattle.json_members.specs.Form.{items_in};
ghost use Rattle.words.specs.Reading.{Gives};
ghost use Rattle.metadata_reading.specs.Refusal.{is_memory};
ghost use Rattle.metadata_reading.specs.Schemas as spec;

use crate::refusal::{MetaRefusal, column_refusal, wrong};
use json_members::{Members, long_of};
use row_types::Columns;
use schema_columns::read_columns;
use serde_json::Value;
use std::alloc::Global;

/// Checks that all items are objects with a number `schema-id`.
pub fn check_schemas(alloc: Global, items: &[Value]) -> Result<(), MetaRefusal>
    ensures exact { Gives is_memory (λ _. tt) result
        (spec.schemas_checked (items_view items.now)) }
{
    if are_schemas(items) {
        return Ok(());
    }
    Err(wrong(alloc, "schemas"))
}

/// Checks that some schema has the id.
pub fn check_current_schema(alloc: Global, id: i64, items: &[Value]) -> Result<(), MetaRefusal>
    ensures exact { Gives is_memory (λ _. tt) result
        (spec.current_schema_checked id (items_view items.now)) }
{
    if schema_of(id, items).is_some() {
        return Ok(());
    }
    Err(wrong(alloc, "current-schema-id"))
}

/// The columns of the first schema that has the id.
pub fn columns_of(alloc: Global, id: i64, items: &[Value]) -> Result<Columns, MetaRefusal>
    ensures exact { Gives is_memory (λ columns. columns) result
        (spec.schema_columns (spec.schema_of id (items_view items.now))) }
{
    match schema_of(id, items) {
        Some(schema) => match read_columns(alloc, schema) {
            Ok(columns) => Ok(columns),
            Err(refusal) => Err(column_refusal(alloc, refusal)),
        },
        None => Err(wrong(alloc, "current-schema-id")),
    }
}

/// Checks that all items are objects with a number `spec-id` and a list `fields`.
pub fn check_specs(alloc: Global, items: &[Value]) -> Result<(), MetaRefusal>
    ensures exact { Gives is_memory (λ _. tt) result (spec.specs_checked (items_view items.now)) }
{
    if are_specs(items) {
        return Ok(());
    }
    Err(wrong(alloc, "partition-specs"))
}

/// Whether no partition spec has a field.
pub fn are_unpartitioned(items: &[Value]) -> bool
    ensures { result ≡ spec.are_unpartitioned (items_view items.now) }
{
    for item in items {
        if has_fields(item) {
            return false;
        }
    }
    true
}

fn are_schemas(items: &[Value]) -> bool
    ensures { result ≡ spec.are_schemas (items_view items.now) }
{
    for item in items {
        if number_of(item, "schema-id").is_none() {
            return false;
        }
    }
    true
}

/// The members of the first schema that has the id. `None`: none has it.
fn schema_of(id: i64, items: &[Value]) -> Option<&Members>
    ensures { option_map (λ schema. members_view schema.now.entries) result
        ≡ spec.schema_of id (items_view items.now) }
{
    match find_schema(id, items) {
        Some(schema) => schema.as_object(),
        None => None,
    }
}

/// The first schema that has the id, borrowed. `None`: none has it.
pub fn find_schema(id: i64, items: &[Value]) -> Option<&Value>
    ensures { option_and_then as_object (option_map (λ schema. view schema.now) result)
        ≡ spec.schema_of id (items_view items.now) }
{
    for item in items {
        if number_of(item, "schema-id") == Some(id) {
            return Some(item);
        }
    }
    None
}

fn are_specs(items: &[Value]) -> bool
    ensures { result ≡ spec.are_specs (items_view items.now) }
{
    for item in items {
        if !is_spec(item) {
            return false;
        }
    }
    true
}

fn is_spec(item: &Value) -> bool
    ensures { result ≡ spec.is_spec (view item.now) }
{
    if number_of(item, "spec-id").is_none() {
        return false;
    }
    match item.get("fields") {
        Some(fields) => fields.is_array(),
        None => false,
    }
}

/// Whether the list `fields` of the item has items.
fn has_fields(item: &Value) -> bool
    ensures { result ≡ spec.has_fields (view item.now) }
{
    !is_none(items_of(item, "fields"))
}

/// Whether there are no items.
pub fn is_none(items: &[Value]) -> bool
    ensures { result ≡ spec.are_none (items_view items.now) }
{
    items.is_empty()
}

/// The items of the list at the name, borrowed. A value that has no such list has no items.
fn items_of<'v>(value: &'v Value, name: &str) -> &'v [Value]
    ensures { items_view result.now ≡ items_in (get name.now (view value.now)) }
{
    match value.get(name) {
        Some(Value::Array(items)) => items.as_slice(),
        _ => &[],
    }
}

/// The number at the name. `None`: the value is no object, or has no number there.
fn number_of(value: &Value, name: &str) -> Option<i64>
    ensures { result ≡ spec.number_of name.now (view value.now) }
{
    match value.get(name) {
        Some(number) => long_of(number),
        None => None,
    }
}
