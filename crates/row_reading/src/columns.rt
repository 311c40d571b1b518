//! The columns of a file, by its own schema.

ghost use Rattle.std.specs.Prelude.{◌≡◌, ◌≤◌, [], length, All, IfOk};
ghost use Rattle.words.specs.Reading.{Gives, never};
ghost use Rattle.schema_tree.specs.declared.schema.Field.{out-Field};
ghost use Rattle.row_types.specs.Columns.{first_fault, has_name, has_wrong_name as wrong_name};
ghost use Rattle.stored_rows.specs.Refusal.{is_memory};
ghost use Rattle.avro_cells.specs.Kind.{nullable};
ghost use Rattle.fields.specs.Wanted.{fields_of};
ghost use Rattle.stored_rows.specs.Field.{find};
ghost use Rattle.row_reading.specs.File.{opened};
ghost use Rattle.stored_rows.specs.Stored.{IsHeld};
ghost use Rattle.row_reading.specs.Columns.{column_of_type, with_field, columns_from, checked, schema_columns};
ghost use Rattle.row_reading.specs.Columns.{file_columns_of};
ghost use Rattle.row_reading.specs.Fault.{id_of};

use crate::opening::open_file;
use avro_cells::{kind_of, nullable};
use avro_container::Walk;
use fields::fields_of;
use lists::Copied;
use row_types::{Column, Columns, ColumnsRefusal};
use schema_tree::{Field, Schema};
use std::alloc::Global;
use stored_rows::RowRefusal;

/// The first id that is the standard's own. Iceberg spec, "Reserved Field IDs".
const FIRST_RESERVED_ID: i32 = 2_147_483_448;

/// The most columns of a table.
const MOST_COLUMNS: usize = 200;

/// The most bytes of a column's name.
const MOST_NAME_BYTES: usize = 255;

/// The columns of the file: one for each field, in their order, but for those of a reserved id. A
/// column is required where null may not stand.
///
/// A file that can't be opened is refused first; then the first field that has no id (`Kind` with
/// the id 0) or whose type holds no cells (`Kind`); then that there is no column or that there are
/// more than 200 (`Kind` with the id 0), the first wrong id, and the first column with a wrong
/// name. docs/FORMATS.md, "Data files".
#[tactic(auto, unfolding(crate::specs::Columns::file_columns_of, crate::specs::Columns::columns_in))]
pub fn file_columns(alloc: Global, bytes: &[u8]) -> Result<Columns, RowRefusal>
    ensures exact { Gives is_memory (λ columns. columns) result (file_columns_of bytes.now) }
    // Each of them can be read from the file: it has a field, whose type is one of its kind.
    ensures readable { IfOk result (λ columns. IfOk (opened bytes.now) (λ file.
        All (λ column. IsHeld column (find column.id (fields_of file.1))) columns)) }
{
    opened_columns(alloc, open_file(alloc, bytes)?)
}

/// The columns of a file that was opened.
fn opened_columns(alloc: Global, file: (Walk<'_>, Schema)) -> Result<Columns, RowRefusal>
    ensures exact { Gives is_memory (λ columns. columns) result
        (schema_columns file.entry.1) }
{
    own_columns(alloc, &file.1)
}

/// The columns of a file with the schema.
pub fn own_columns(alloc: Global, schema: &Schema) -> Result<Columns, RowRefusal>
    ensures exact { Gives is_memory (λ columns. columns) result
        (schema_columns schema.now) }
{
    let list = take_columns(alloc, fields_of(schema))?;
    checked(list)
}

/// The columns of the fields.
#[tactic(auto, using(crate::proofs::ColumnsLemmas::fields_steps))]
fn take_columns(alloc: Global, fields: &[Field]) -> Result<Vec<Column>, RowRefusal>
    ensures exact { Gives is_memory (λ columns. columns.items) result (columns_from [] fields.now) }
{
    let mut columns = Vec::new(alloc);
    for field in fields {
        take_field(alloc, &mut columns, field)?;
    }
    Ok(columns)
}

/// Adds the field's column, if it is one.
fn take_field(alloc: Global, columns: &mut Vec<Column>, field: &Field) -> Result<(), RowRefusal>
    ensures exact { Gives is_memory (λ _. columns.new.items) result
        (with_field columns.old.items field.now (out-Field field.now).id) }
{
    let Some(id) = field.id else {
        return Err(RowRefusal::Kind { id: 0 });
    };
    if id >= FIRST_RESERVED_ID {
        return Ok(());
    }
    columns.push(column_of(alloc, id, field)?)?;
    Ok(())
}

/// The column of a field with the id.
fn column_of(alloc: Global, id: i32, field: &Field) -> Result<Column, RowRefusal>
    ensures exact { Gives is_memory (λ column. column) result
        (column_of_type id (out-Field field.now).name (nullable (out-Field field.now).schema)) }
{
    let Some(found) = nullable(&field.schema) else {
        return Err(RowRefusal::Kind { id });
    };
    let Some(kind) = kind_of(found.schema) else {
        return Err(RowRefusal::Kind { id });
    };
    Ok(Column {
        id,
        name: field.name.get().copy(alloc)?,
        kind,
        required: !found.has_null,
    })
}

/// The columns, if they are those of a table.
#[tactic(auto, using(crate::proofs::ColumnsLemmas::checks))]
fn checked(list: Vec<Column>) -> Result<Columns, RowRefusal>
    ensures exact { Gives never (λ columns. columns) result (checked list.items) }
{
    if list.len() > MOST_COLUMNS {
        return Err(RowRefusal::Kind { id: 0 });
    }
    // A refused name doesn't tell whose it is.
    let wrongly_named = id_of_wrong_name(&list);
    match Columns::from_list(list) {
        Ok(columns) => Ok(columns),
        Err(ColumnsRefusal::Id { id }) => Err(RowRefusal::Kind { id }),
        Err(ColumnsRefusal::Name { .. }) => Err(RowRefusal::Kind { id: wrongly_named }),
        Err(_) => Err(RowRefusal::Kind { id: 0 }),
    }
}

/// The id of the first column with a wrong name; 0 if there is none.
fn id_of_wrong_name(columns: &[Column]) -> i32
    ensures { result ≡ id_of (first_fault wrong_name [] columns.now) }
{
    for place in 0..columns.len() {
        if has_wrong_name(&columns[..place], &columns[place]) {
            return columns[place].id;
        }
    }
    0
}

/// Whether the column's name is empty, too long, or that of a column before it.
fn has_wrong_name(before: &[Column], column: &Column) -> bool
    ensures { result ≡ wrong_name before.now column.now }
{
    let name = column.name.as_str();
    name.is_empty() || name.len() > MOST_NAME_BYTES || has_name(before, name)
}

/// Whether some column has the name.
fn has_name(columns: &[Column], name: &str) -> bool
    ensures { result ≡ has_name columns.now name.now }
{
    columns.iter().any(|column| column.name.as_str() == name)
}
