//! Columns and cells, made of what a table tells.

use avro_wire::{Bytes, Text};
use lists::List;
use row_types::{Cell, Cells, Column, Columns, Kind};
use std::alloc::{AllocError, Global};

/// A column: its id, its name, its kind, and whether it is required.
pub type ToldColumn = (i32, &'static str, Kind, bool);

/// A cell.
pub enum ToldCell {
    Null,
    Flag(bool),
    Num(i64),
    Text(&'static str),
    Bytes(&'static [u8]),
}

/// The column `1:long:optional:n`.
pub static ONE: [ToldColumn; 1] = [(1, "n", Kind::Long, false)];

/// The columns `10:long:required:n` and `11:string:optional:s`.
pub static TWO: [ToldColumn; 2] = [(10, "n", Kind::Long, true), (11, "s", Kind::Text, false)];

/// A column of each kind, which may be null.
pub static NINE: [ToldColumn; 9] = [
    (1, "boolean", Kind::Boolean, false),
    (2, "int", Kind::Int, false),
    (3, "long", Kind::Long, false),
    (4, "date", Kind::Date, false),
    (5, "time", Kind::Time, false),
    (6, "timestamp", Kind::Timestamp, false),
    (7, "timestamptz", Kind::Timestamptz, false),
    (8, "string", Kind::Text, false),
    (9, "binary", Kind::Bytes, false),
];

/// The columns that the table tells, which has no fault.
pub fn columns_of(alloc: Global, table: &[ToldColumn]) -> Result<Columns, AllocError> {
    match Columns::from_list(list_of(alloc, table)?) {
        Ok(columns) => Ok(columns),
        Err(_) => Err(AllocError),
    }
}

/// The list of the columns that the table tells.
fn list_of(alloc: Global, table: &[ToldColumn]) -> Result<Vec<Column>, AllocError> {
    let mut list = Vec::new(alloc);
    for told in table {
        list.push(Column {
            id: told.0,
            name: Text::from_str(alloc, told.1)?,
            kind: told.2,
            required: told.3,
        })?;
    }
    Ok(list)
}

/// The cells that the table tells.
pub fn cells_of(alloc: Global, table: &[ToldCell]) -> Result<Cells, AllocError> {
    let mut cells = List::new(alloc);
    for told in table {
        cells.push(cell_of(alloc, told)?)?;
    }
    Ok(cells)
}

/// The cell that the table tells.
fn cell_of(alloc: Global, told: &ToldCell) -> Result<Cell, AllocError> {
    match told {
        ToldCell::Null => Ok(Cell::Null),
        ToldCell::Flag(flag) => Ok(Cell::Flag(*flag)),
        ToldCell::Num(number) => Ok(Cell::Num(*number)),
        ToldCell::Text(text) => Ok(Cell::Text(Text::from_str(alloc, text)?)),
        ToldCell::Bytes(bytes) => Ok(Cell::Bytes(Bytes::from_slice(alloc, bytes)?)),
    }
}
