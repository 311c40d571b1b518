//! Which cells may stand in which columns.

ghost use Rattle.std.specs.Prelude.{◌≡◌};
ghost use Rattle.row_types.specs.Fits.{fits as fits_in, has_number as kind_has_number};

use crate::cell::Cell;
use crate::column::{Column, Kind};

/// Whether the cell may stand in the column.
pub fn fits(column: &Column, cell: &Cell) -> bool
    ensures { result ≡ fits_in column.now cell.now }
{
    match cell {
        Cell::Null => !column.required,
        Cell::Flag(_) => column.kind == Kind::Boolean,
        Cell::Num(number) => has_number(column.kind, *number),
        Cell::Text(_) => column.kind == Kind::Text,
        Cell::Bytes(_) => column.kind == Kind::Bytes,
    }
}

/// Whether a column of the kind may hold the number.
fn has_number(kind: Kind, number: i64) -> bool
    ensures { result ≡ kind_has_number kind number }
{
    match kind {
        Kind::Int | Kind::Date => i32::try_from(number).is_ok(),
        Kind::Long | Kind::Time | Kind::Timestamp | Kind::Timestamptz => true,
        Kind::Boolean | Kind::Text | Kind::Bytes => false,
    }
}
