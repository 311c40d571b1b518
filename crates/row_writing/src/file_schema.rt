//! The schema of a file that is written.

ghost use Rattle.std.specs.Prelude.{◌≡◌, ◌++◌, true, if◌then◌else◌, IfOk, OnOk, map};
ghost use Rattle.std.specs.List.{list_all};
ghost use Rattle.row_types.specs.declared.column.Kind.TheVariants.{Long};
ghost use Rattle.avro_schema.specs.Printable.{begins_name as begins, goes_on_name as goes_on, is_avro_name as avro_name};
ghost use Rattle.avro_cells.specs.Kind.{written_type as type_of, optional_type as type_beside_null};
ghost use Rattle.row_writing.specs.Writing.{field_of as field_with, field_name as name_of, column_field as field_of_column, is_plain_name as plain_name, are_plain_names as plain_names, lineage_fields, row_id_name, last_updated_name, file_schema as schema_of_file};

use avro_cells::{optional_type, written_type};
use avro_wire::Text;
use lists::{Copied, List};
use row_types::Column;
use schema_tree::{Field, Logical, Schema};
use sharing::Shared;
use std::alloc::{AllocError, Global};
use stored_rows::{LAST_UPDATED_FIELD, ROW_ID_FIELD};

/// The name of the field of row ids. Iceberg spec, "Reserved Field IDs".
const ROW_ID_NAME: &str = "_row_id";

/// The name of the field of last changes. Iceberg spec, "Reserved Field IDs".
const LAST_UPDATED_NAME: &str = "_last_updated_sequence_number";

/// The schema of a file of rows: a field for each column, and where there is lineage those of row
/// ids and of last changes. docs/FORMATS.md, "Data files".
pub fn file_schema(alloc: Global, columns: &[Column], lineage: bool) -> Result<Schema, AllocError>
    ensures { IfOk result (λ schema. schema ≡ schema_of_file columns.now lineage) }
{
    let mut fields = column_fields(alloc, columns)?;
    if lineage {
        push_lineage(alloc, &mut fields)?;
    }
    let name = Shared::new(alloc, Text::from_str(alloc, "row")?)?;
    Ok(Schema::Rec {
        name,
        fields: Shared::new(alloc, List::from_vec(fields))?,
    })
}

/// The columns' fields.
fn column_fields(alloc: Global, columns: &[Column]) -> Result<Vec<Field>, AllocError>
    ensures { IfOk result (λ fields.
        fields.items ≡ map (field_of_column (plain_names columns.now)) columns.now) }
{
    let plain = are_plain_names(columns);
    let mut fields = Vec::new(alloc);
    for column in columns {
        fields.push(column_field(alloc, plain, column)?)?;
    }
    Ok(fields)
}

/// A column's field.
fn column_field(alloc: Global, plain: bool, column: &Column) -> Result<Field, AllocError>
    ensures { IfOk result (λ field. field ≡ field_of_column plain column.now) }
{
    let schema = column_type(alloc, column)?;
    let name = field_name(alloc, plain, column)?;
    Ok(Field {
        name: Shared::new(alloc, name)?,
        id: Some(column.id),
        schema,
    })
}

/// The type of a column's field: bare where the column is required, else beside null.
fn column_type(alloc: Global, column: &Column) -> Result<Schema, AllocError>
    ensures { IfOk result (λ schema. schema ≡ (if column.now.required
        then type_of column.now.kind else type_beside_null (type_of column.now.kind))) }
{
    let schema = written_type(column.kind);
    if column.required {
        return Ok(schema);
    }
    optional_type(alloc, schema)
}

/// The name of a column's field: its own where all are plain, else `f` and its id.
fn field_name(alloc: Global, plain: bool, column: &Column) -> Result<Text, AllocError>
    ensures { IfOk result (λ name. name ≡ name_of plain column.now) }
{
    if plain {
        return column.name.copy(alloc);
    }
    let id = column.id;
    Ok(Text::from_string(format!(in alloc; "f{id}")?))
}

/// Adds the fields of row ids and of last changes.
fn push_lineage(alloc: Global, fields: &mut Vec<Field>) -> Result<(), AllocError>
    ensures { OnOk result (fields.new.items ≡ fields.old.items ++ lineage_fields true) }
{
    fields.push(lineage_field(alloc, ROW_ID_NAME, ROW_ID_FIELD)?)?;
    fields.push(lineage_field(alloc, LAST_UPDATED_NAME, LAST_UPDATED_FIELD)?)?;
    Ok(())
}

/// A field of a long that may be absent.
fn lineage_field(alloc: Global, name: &str, id: i32) -> Result<Field, AllocError>
    ensures { IfOk result (λ field.
        field ≡ field_with name.now id (type_beside_null (type_of Long))) }
{
    let schema = optional_type(alloc, Schema::Long(Logical::Plain))?;
    let name = Text::from_str(alloc, name)?;
    Ok(Field {
        name: Shared::new(alloc, name)?,
        id: Some(id),
        schema,
    })
}

/// Whether all names can stand in a schema as they are.
fn are_plain_names(columns: &[Column]) -> bool
    ensures { result ≡ plain_names columns.now }
{
    columns
        .iter()
        .all(|column| is_plain_name(column.name.as_str()))
}

/// Whether the name can stand in a schema as it is.
fn is_plain_name(name: &str) -> bool
    ensures { result ≡ plain_name name.now }
{
    is_avro_name(name.as_bytes()) && name != ROW_ID_NAME && name != LAST_UPDATED_NAME
}

/// Whether the bytes are a name as the standard has them. Avro spec, "Names".
fn is_avro_name(name: &[u8]) -> bool
    ensures { result ≡ avro_name name.now }
{
    match name.split_first() {
        Some((first, rest)) => begins_name(*first) && all_go_on(rest),
        None => false,
    }
}

/// Whether the bytes may all stand after the first one of a name.
fn all_go_on(bytes: &[u8]) -> bool
    ensures { result ≡ list_all goes_on bytes.now }
{
    bytes.iter().all(|byte| goes_on_name(*byte))
}

/// Whether a name may begin with the byte.
fn begins_name(byte: u8) -> bool
    ensures { result ≡ begins byte }
{
    byte.is_ascii_alphabetic() || byte == b'_'
}

/// Whether the byte may stand after the first one of a name.
fn goes_on_name(byte: u8) -> bool
    ensures { result ≡ goes_on byte }
{
    begins_name(byte) || byte.is_ascii_digit()
}
