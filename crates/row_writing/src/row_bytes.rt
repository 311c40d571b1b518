//! The bytes of a row that is written.

ghost use Rattle.std.specs.Prelude.{◌≡◌, [], ◌∷◌, ◌++◌, true, OnOk};
ghost use Rattle.std.specs.List.{All};
ghost use Rattle.row_types.specs.Fits.{fits_row};
ghost use Rattle.datum_tree.specs.Spelling.{flag_byte};
ghost use Rattle.row_writing.specs.RowBytes as spec;
ghost use Rattle.row_writing.specs.RowBytes.{cell_bytes, column_bytes, cells_bytes, number_bytes, lineage_bytes};
ghost use Rattle.row_writing.specs.Writing.{kept};
ghost use Rattle.row_writing.specs.Written.{IsLong, HasLongs, IsSizedCell, row_text, IsEncodedRow};

use avro_wire::{put_bytes, put_long};
use row_types::{Cell, Column, StoredRow};
use std::alloc::AllocError;

/// The byte before a null: the place 0, of the branch of nulls.
const NULL_BRANCH: u8 = 0;

/// The byte before another value: the place 1, of the branch of values.
const VALUE_BRANCH: u8 = 2;

/// Appends the row's bytes: those of its cells, and where there is lineage those of its id and of
/// its last change. They are an encoding of the row's value, but no value is made. An `Err` says
/// that memory ran out; `out` may have some of the bytes. docs/FORMATS.md, "Data files".
pub fn put_row(
    columns: &[Column],
    lineage: bool,
    row: &StoredRow,
    out: &mut Vec<u8>,
) -> Result<(), AllocError>
    requires fits { fits_row columns.now row.now.cells ≡ true }
    ensures ok { OnOk result
        (out.new.items ≡ out.old.items ++ row_text columns.now lineage row.now) }
    ensures encoded { OnOk result (IsEncodedRow columns.now lineage row.now) }
{
    put_cells(columns, row.cells.as_slice(), out)?;
    put_lineage(lineage, row, out)?;
    Ok(())
}

/// Puts the cells, one of each column.
fn put_cells(columns: &[Column], cells: &[Cell], out: &mut Vec<u8>) -> Result<(), AllocError>
    requires fits { fits_row columns.now cells.now ≡ true }
    ensures ok { OnOk result
        (out.new.items ≡ out.old.items ++ cells_bytes columns.now cells.now) }
    ensures sized { OnOk result (All IsSizedCell cells.now) }
{
    let mut place = 0;
    while place < columns.len() {
        put_column(columns[place].required, &cells[place], out)?;
        place += 1;
    }
    Ok(())
}

/// Puts a cell of a column: alone if the column is required, else after the byte of its branch.
fn put_column(required: bool, cell: &Cell, out: &mut Vec<u8>) -> Result<(), AllocError>
    ensures ok { OnOk result (out.new.items ≡ out.old.items ++ column_bytes required cell.now) }
    ensures sized { OnOk result (IsSizedCell cell.now) }
{
    if required {
        return put_cell(cell, out);
    }
    out.push(branch_byte(cell))?;
    put_cell(cell, out)
}

/// The byte of the branch that a cell is of.
fn branch_byte(cell: &Cell) -> u8
    ensures { result ≡ spec.branch_byte cell.now }
{
    match cell {
        Cell::Null => NULL_BRANCH,
        _ => VALUE_BRANCH,
    }
}

/// Puts a cell.
fn put_cell(cell: &Cell, out: &mut Vec<u8>) -> Result<(), AllocError>
    ensures ok { OnOk result (out.new.items ≡ out.old.items ++ cell_bytes cell.now) }
    ensures sized { OnOk result (IsSizedCell cell.now) }
{
    match cell {
        Cell::Null => Ok(()),
        Cell::Flag(flag) => put_flag(*flag, out),
        Cell::Num(number) => put_long(out, *number),
        Cell::Text(text) => put_bytes(out, text.as_str().as_bytes()),
        Cell::Bytes(bytes) => put_bytes(out, bytes.as_slice()),
    }
}

/// Puts a boolean.
fn put_flag(flag: bool, out: &mut Vec<u8>) -> Result<(), AllocError>
    ensures { OnOk result (out.new.items ≡ out.old.items ++ flag_byte flag ∷ []) }
{
    out.push(u8::from(flag))?;
    Ok(())
}

/// Puts the row's id and its last change where there is lineage.
fn put_lineage(lineage: bool, row: &StoredRow, out: &mut Vec<u8>) -> Result<(), AllocError>
    ensures ok { OnOk result (out.new.items ≡ out.old.items ++ lineage_bytes lineage row.now) }
    // The numbers that are put are of 64 bits.
    ensures longs { OnOk result (HasLongs (kept lineage row.now)) }
{
    if !lineage {
        return Ok(());
    }
    put_number(row.id, out)?;
    put_number(row.last, out)
}

/// Puts a number that may be absent.
fn put_number(number: Option<i64>, out: &mut Vec<u8>) -> Result<(), AllocError>
    ensures ok { OnOk result (out.new.items ≡ out.old.items ++ number_bytes number) }
    ensures long { IsLong number }
{
    match number {
        None => out.push(NULL_BRANCH)?,
        Some(number) => {
            out.push(VALUE_BRANCH)?;
            put_long(out, number)?;
        }
    }
    Ok(())
}
