//! The JSON object of columns.

ghost use Rattle.std.specs.Prelude.{◌≡◌, map, IfOk};
ghost use Rattle.serde_json.specs.Data.{object, no_members};
ghost use Rattle.serde_json.specs.View.{view, members_view};
ghost use Rattle.json_members.specs.Members.{with_fields};
ghost use Rattle.schema_columns.specs.Printing as spec;

use json_members::{Members, put};
use row_types::Column;
use serde_json::Value;
use std::alloc::{AllocError, Global};

/// The members of the object of a new table's schema. An `Err` says that memory ran out.
pub fn schema_members(alloc: Global, columns: &[Column]) -> Result<Members, AllocError>
    ensures { IfOk result (λ schema. members_view schema.entries ≡ spec.schema_of columns.now) }
{
    let mut schema = Members::new(alloc);
    put(
        alloc,
        &mut schema,
        "type",
        Value::try_from_str(alloc, "struct")?,
    )?;
    put(alloc, &mut schema, "schema-id", Value::from(0_i64))?;
    let values = column_values(alloc, columns)?;
    put(alloc, &mut schema, "fields", Value::Array(values))?;
    Ok(schema)
}

fn column_values(alloc: Global, columns: &[Column]) -> Result<Vec<Value>, AllocError>
    ensures { IfOk result (λ values. map view values.items
        ≡ map spec.column_value columns.now) }
{
    let mut values = Vec::new(alloc);
    for column in columns {
        values.push(Value::Object(column_members(alloc, column)?))?;
    }
    Ok(values)
}

fn column_members(alloc: Global, column: &Column) -> Result<Members, AllocError>
    ensures { IfOk result (λ members. members_view members.entries
        ≡ with_fields (spec.column_fields column.now) no_members) }
{
    let mut members = Members::new(alloc);
    let word = Value::try_from_str(alloc, column.kind.word())?;
    put(alloc, &mut members, "type", word)?;
    put(
        alloc,
        &mut members,
        "required",
        Value::from(column.required),
    )?;
    let name = Value::try_from_str(alloc, column.name.as_str())?;
    put(alloc, &mut members, "name", name)?;
    put(alloc, &mut members, "id", Value::from(column.id))?;
    Ok(members)
}
