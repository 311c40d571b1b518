//! What the reading of a file and what it stores have to do with each other.

ghost use Rattle.std.specs.Prelude.{◌≡◌, ℕ, ℤ, List, Option, Ok};
ghost use Rattle.row_types.specs.declared.column.Column.{Column};
ghost use Rattle.row_types.specs.declared.row.Row.{Row};
ghost use Rattle.row_types.specs.declared.row.StoredRow.{StoredRow};
ghost use Rattle.stored_rows.specs.Rows.{rows_from};
ghost use Rattle.stored_rows.specs.Stored.{StoresRows, ReadsRows, AreRead};
ghost use Rattle.row_reading.specs.File.{file_size, rows_of};
ghost use Rattle.row_reading.specs.Laws.{Laws};

/// A law, and no code: the rows that are read of a file are those that it stores, and the rows that
/// it stores are read.
pub fn reading_agrees()
    ensures found { (bytes : List ℕ) (columns : List Column) (first : Option ℤ) (sequence : ℤ)
        (told : Option ℤ) (rows : List Row) → rows_of bytes columns first sequence told ≡ Ok rows
        → ReadsRows bytes columns first sequence rows }
    ensures only { (bytes : List ℕ) (columns : List Column) (first : Option ℤ) (sequence : ℤ)
        (told : Option ℤ) (stored : List StoredRow) → StoresRows bytes columns stored
        → AreRead first told (file_size bytes stored)
        → rows_of bytes columns first sequence told ≡ Ok (rows_from first sequence 0 stored) }
{
    laws_below();
}

/// The laws of the layers below.
fn laws_below()
    ensures { Laws }
{
    avro_container::reading_agrees();
    avro_schema::reading_agrees();
    fields::record_agrees();
}
