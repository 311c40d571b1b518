//! The columns of a schema.

ghost use Rattle.std.specs.Prelude.{◌≡◌, [], Ok, Err, IfErr, IfOk, List, option_map};
ghost use Rattle.std.specs.Bool.{OnFalse};
ghost use Rattle.serde_json.specs.View.{view, items_view, members_view};
ghost use Rattle.words.specs.Reading.{Gives, never};
ghost use Rattle.row_types.specs.declared.column.Column.{Column as AColumn};
ghost use Rattle.schema_columns.specs.Cause.{IsSchemaCause};
ghost use Rattle.schema_columns.specs.Reading as spec;
ghost use Rattle.schema_columns.specs.Refusal.{is_memory};
ghost use Rattle.schema_columns.specs.Relation.{IsSchema};
ghost use Rattle.row_types.specs.Columns.{IsColumns};

use crate::column::{column_in, kind_in, name_in};
use crate::members::members as column_members;
use crate::refusal::ColumnRefusal;
use avro_wire::Text;
use json_members::{Members, Version, each_right, member};
use row_types::{Column, Columns};
use serde_json::Value;
use std::alloc::Global;

/// The columns of a schema's object.
pub fn read_columns(alloc: Global, schema: &Members) -> Result<Columns, ColumnRefusal>
    // They are those of the schema, and those of each schema of a table are read.
    ensures found { IfOk result (IsSchema (members_view schema.now.entries)) }
    ensures only { (columns : List AColumn) → IsSchema (members_view schema.now.entries) columns
        → Gives is_memory (λ read. read) result (Ok columns) }
    // Which refusal comes, and why.
    ensures exact { Gives is_memory (λ read. read) result
        (spec.columns_in (members_view schema.now.entries)) }
    ensures cause { IfErr result (λ e.
        OnFalse (is_memory e) (IsSchemaCause (members_view schema.now.entries) e)) }
{
    columns_in(alloc, schema)
}

fn columns_in(alloc: Global, schema: &Members) -> Result<Columns, ColumnRefusal>
    ensures exact { Gives is_memory (λ read. read) result
        (spec.columns_in (members_view schema.now.entries)) }
    ensures right { IfOk result IsColumns }
{
    match fields_in(schema) {
        Some(items) => columns_of_items(alloc, items),
        None => Err(ColumnRefusal::Fields),
    }
}

/// The items of the list `fields`. `None`: there is no such list.
fn fields_in(schema: &Members) -> Option<&[Value]>
    ensures { option_map (λ items. items_view items.now) result
        ≡ spec.fields_found (members_view schema.now.entries) }
{
    match member(schema, "fields") {
        Some(Value::Array(items)) => Some(items.as_slice()),
        _ => None,
    }
}

fn columns_of_items(alloc: Global, items: &[Value]) -> Result<Columns, ColumnRefusal>
    ensures exact { Gives is_memory (λ read. read) result
        (spec.columns_of_items (items_view items.now)) }
    ensures right { IfOk result IsColumns }
{
    let list = checked_columns(alloc, items)?;
    table_columns(list)
}

/// The columns of the items, if each is a column that rowline can use.
fn checked_columns(alloc: Global, items: &[Value]) -> Result<Vec<Column>, ColumnRefusal>
    ensures exact { Gives is_memory (λ list. list.items) result
        (spec.checked_columns (items_view items.now)) }
{
    each_right(alloc, "fields", items, column_members(), Version::Older)?;
    check_kinds(alloc, items)?;
    columns_from(alloc, items)
}

/// The list as the columns of a table.
fn table_columns(list: Vec<Column>) -> Result<Columns, ColumnRefusal>
    ensures exact { Gives never (λ read. read) result (spec.table_columns list.items) }
    ensures right { IfOk result IsColumns }
{
    match Columns::from_list(list) {
        Ok(columns) => Ok(columns),
        Err(_) => Err(ColumnRefusal::Fields),
    }
}

/// Checks that each column has a kind.
fn check_kinds(alloc: Global, items: &[Value]) -> Result<(), ColumnRefusal>
    ensures exact { Gives is_memory (λ _. tt) result
        (spec.kinds_checked (items_view items.now)) }
{
    for item in items {
        check_kind(alloc, item)?;
    }
    Ok(())
}

fn check_kind(alloc: Global, item: &Value) -> Result<(), ColumnRefusal>
    ensures exact { Gives is_memory (λ _. tt) result (spec.kind_checked (view item.now)) }
{
    let Some(members) = item.as_object() else {
        return Err(ColumnRefusal::ColumnType {
            name: Text::from_str(alloc, "")?,
        });
    };
    if kind_in(members).is_some() {
        return Ok(());
    }
    Err(ColumnRefusal::ColumnType {
        name: Text::from_str(alloc, name_in(members))?,
    })
}

/// The columns of the items, which are objects.
fn columns_from(alloc: Global, items: &[Value]) -> Result<Vec<Column>, ColumnRefusal>
    ensures exact { Gives is_memory (λ list. list.items) result
        (spec.columns_from [] (items_view items.now)) }
{
    let mut list = Vec::new(alloc);
    for item in items {
        list.push(column_of(alloc, item)?)?;
    }
    Ok(list)
}

fn column_of(alloc: Global, item: &Value) -> Result<Column, ColumnRefusal>
    ensures exact { Gives is_memory (λ column. column) result (spec.column_of (view item.now)) }
{
    match item.as_object() {
        Some(members) => column_in(alloc, members),
        None => Err(ColumnRefusal::Fields),
    }
}
