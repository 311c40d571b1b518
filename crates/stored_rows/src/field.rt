//! The field of a column, and whether the fields are those of a table.

ghost use Rattle.std.specs.Prelude.{◌≡◌, ◌<◌, length, IfSome, MatchOption};
ghost use Rattle.std.specs.declared.option.Option.TheVariants.{None, Some};
ghost use Rattle.stored_rows.specs.Field.{is_this, find, is_missing, is_wrong, check_missing, check_kind, check_kinds, check_fields};

use crate::refusal::RowRefusal;
use avro_cells::is_allowed;
use row_types::{Column, Kind};
use schema_tree::{Field, Schema};

/// The id of the column of row ids. Iceberg spec, "Reserved Field IDs".
pub const ROW_ID_FIELD: i32 = 2_147_483_540;

/// The id of the column of the sequence numbers of last changes.
pub const LAST_UPDATED_FIELD: i32 = 2_147_483_539;

/// The first field with the id: its place, counted from 0, and its type. None: no field has it.
///
/// It walks over the fields. A table has at most 200 columns, so that all its look-ups together are
/// linear in the fields.
#[tactic(auto, using(crate::proofs::FieldLemmas::find_steps))]
pub fn find(id: i32, fields: &[Field]) -> Option<(usize, &Schema)>
    ensures value { MatchOption result (find id fields.now ≡ None)
        (λ found. find id fields.now ≡ Some (found.0, found.1.now)) }
    ensures within { IfSome result (λ found. found.0 < length fields.now) }
{
    for place in 0..fields.len() {
        if is_this(id, fields[place].id) {
            return Some((place, &fields[place].schema));
        }
    }
    None
}

/// Whether the id is there, and is this one.
fn is_this(id: i32, other: Option<i32>) -> bool
    ensures { result ≡ is_this id other }
{
    match other {
        Some(other) => other == id,
        None => false,
    }
}

/// Whether a table of these columns can be read from these fields: first, that each required column
/// is there; then, for each column that is there and then for each lineage column, that its cells
/// are read from the field's type. Iceberg spec, "Column Projection"; "Reserved Field IDs".
#[tactic(auto, unfolding(crate::specs::Field::check_fields))]
pub fn check_fields(fields: &[Field], columns: &[Column]) -> Result<(), RowRefusal>
    ensures { result ≡ check_fields fields.now columns.now }
{
    check_missing(fields, columns)?;
    check_kinds(fields, columns)?;
    check_kind(ROW_ID_FIELD, Kind::Long, fields)?;
    check_kind(LAST_UPDATED_FIELD, Kind::Long, fields)
}

/// Whether each required column is there.
#[tactic(auto, using(crate::proofs::FieldLemmas::missing_steps))]
fn check_missing(fields: &[Field], columns: &[Column]) -> Result<(), RowRefusal>
    ensures { result ≡ check_missing fields.now columns.now }
{
    for column in columns {
        if is_missing(fields, column) {
            return Err(RowRefusal::MissingColumn { id: column.id });
        }
    }
    Ok(())
}

/// Whether the column is required, and isn't there.
fn is_missing(fields: &[Field], column: &Column) -> bool
    ensures { result ≡ is_missing column.now (find column.now.id fields.now) }
{
    match find(column.id, fields) {
        Some(_) => false,
        None => column.required,
    }
}

/// Whether each column that is there can be read.
#[tactic(auto, using(crate::proofs::FieldLemmas::kinds_steps))]
fn check_kinds(fields: &[Field], columns: &[Column]) -> Result<(), RowRefusal>
    ensures { result ≡ check_kinds fields.now columns.now }
{
    for column in columns {
        check_column(fields, column)?;
    }
    Ok(())
}

/// Whether the column, if it is there, can be read.
fn check_column(fields: &[Field], column: &Column) -> Result<(), RowRefusal>
    ensures { result ≡ check_kind column.now.id column.now.kind fields.now }
{
    check_kind(column.id, column.kind, fields)
}

/// Whether the field with the id, if there is one, holds cells of the kind.
fn check_kind(id: i32, kind: Kind, fields: &[Field]) -> Result<(), RowRefusal>
    ensures { result ≡ check_kind id kind fields.now }
{
    match find(id, fields) {
        Some((_, schema)) if !is_allowed(kind, schema) => Err(RowRefusal::Kind { id }),
        _ => Ok(()),
    }
}
