//! What a row is, as a record of the fields of its columns.

ghost use Rattle.std.specs.Prelude.{◌≡◌, ◌≤◌, true, length, map, Ok, IfOk};
ghost use Rattle.row_types.specs.CellRef.{lent_cell};
ghost use Rattle.fields.specs.Wanted.{fields_of};
ghost use Rattle.fields.specs.Record.{is_memory, IsLayout};
ghost use Rattle.stored_rows.specs.declared.refusal.RowRefusal.TheVariants.{Rest};
ghost use Rattle.stored_rows.specs.Field.{check_fields};
ghost use Rattle.row_reading.specs.Wanted.{number_wanted, column_wanted, row_wanted, row_of_cells};
ghost use Rattle.row_reading.specs.Wanted.{field_refusal};

use fields::{Cells, FieldRefusal, Layout, Wanted, lay_out};
use records::FromCells;
use row_types::{CellRef, Column, Kind, StoredRow};
use schema_tree::Schema;
use std::alloc::{AllocError, Global};
use stored_rows::{LAST_UPDATED_FIELD, ROW_ID_FIELD, RowRefusal};

/// The rows of a data file as records: an id, a last change, and a cell for each column.
/// Avro spec, "Records".
#[derive(Drop)]
pub struct FileRow;

impl FromCells for FileRow {
    type Value = StoredRow;

    type Refusal = RowRefusal;

    ghost made = { row_of_cells };

    ghost refused = { field_refusal };

    ghost rest = { Rest };

    fn refuse(refusal: FieldRefusal) -> RowRefusal
        ensures { result ≡ field_refusal refusal }
    {
        match refusal {
            FieldRefusal::MissingField { id } => RowRefusal::Kind { id },
            FieldRefusal::NoValue(refusal) => RowRefusal::Datum(refusal),
            FieldRefusal::Memory => RowRefusal::Memory,
        }
    }

    fn refuse_rest(block: u64) -> RowRefusal
        ensures { result ≡ Rest block }
    {
        RowRefusal::Rest { block }
    }
}

/// How the rows of a file with the schema are read, if it has what the columns need.
pub fn row_layout(alloc: Global, schema: Schema, columns: &[Column]) -> Result<Layout, AllocError>
    requires readable { check_fields (fields_of schema) columns.now ≡ Ok tt }
    ensures right { IfOk result IsLayout }
    ensures schema { IfOk result (λ layout. layout.schema ≡ schema) }
    ensures wanted { IfOk result (λ layout. layout.wanted.items ≡ row_wanted columns.now) }
{
    let wanted = row_wanted(alloc, columns)?;
    match lay_out(alloc, schema, wanted) {
        Ok(layout) => Ok(layout),
        // No column is missing.
        Err(refusal) => Err(memory_of(refusal)),
    }
}

/// The refusal that memory ran out, which this one is.
fn memory_of(refusal: FieldRefusal) -> AllocError
    requires { is_memory refusal ≡ true }
{
    match refusal {
        FieldRefusal::Memory => AllocError,
        FieldRefusal::MissingField { .. } | FieldRefusal::NoValue(_) => unreachable!(),
    }
}

/// All that is wanted of a record: the id, the last change, and then each column.
fn row_wanted(alloc: Global, columns: &[Column]) -> Result<Vec<Wanted>, AllocError>
    ensures { IfOk result (λ wanted. wanted.items ≡ row_wanted columns.now) }
{
    let mut wanted = Vec::new(alloc);
    wanted.push(number_wanted(ROW_ID_FIELD))?;
    wanted.push(number_wanted(LAST_UPDATED_FIELD))?;
    for column in columns {
        wanted.push(column_wanted(column))?;
    }
    Ok(wanted)
}

/// A field of longs, which may be missing.
fn number_wanted(id: i32) -> Wanted
    ensures { result ≡ number_wanted id }
{
    Wanted {
        parent: None,
        id,
        kind: Kind::Long,
        required: false,
    }
}

/// The field of a column.
fn column_wanted(column: &Column) -> Wanted
    ensures { result ≡ column_wanted column.now }
{
    Wanted {
        parent: None,
        id: column.id,
        kind: column.kind,
        required: column.required,
    }
}

/// The id that the row has of its own.
pub fn own_id(cells: &Cells<'_>) -> Option<i64>
    requires { 2 ≤ length cells.now.wanted.items }
    ensures { result ≡ (row_of_cells (map lent_cell cells.now.wanted.items)).id }
{
    cells.wanted[0].number()
}

/// The last change that the row has of its own.
pub fn own_last(cells: &Cells<'_>) -> Option<i64>
    requires { 2 ≤ length cells.now.wanted.items }
    ensures { result ≡ (row_of_cells (map lent_cell cells.now.wanted.items)).last }
{
    cells.wanted[1].number()
}

/// The cells of the row, one for each column.
pub fn own_cells<'c, 'a>(cells: &'c Cells<'a>) -> &'c [CellRef<'a>]
    requires { 2 ≤ length cells.now.wanted.items }
    ensures { map lent_cell result.now
        ≡ (row_of_cells (map lent_cell cells.now.wanted.items)).cells }
{
    &cells.wanted[2..]
}
