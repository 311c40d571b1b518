//! A cell of a row.

ghost use Rattle.std.specs.Prelude.{◌≡◌};
ghost use Rattle.row_types.specs.CellRef.{lent_cell};

use crate::cell_ref::CellRef;
use avro_wire::{Bytes, Text};
use lists::{Copied, List};
use std::alloc::{AllocError, Global};

/// What is in one column of a row.
#[derive(Drop)]
pub enum Cell {
    Null,
    Flag(bool),
    /// A number of any kind: an int, a long, days or microseconds.
    Num(i64),
    Text(Text),
    Bytes(Bytes),
}

/// The cells of a row, in the order of the columns.
pub type Cells = List<Cell>;

impl Cell {
    /// The cell, borrowed.
    pub fn lend(&self) -> CellRef<'_>
        ensures { lent_cell result ≡ self.now }
    {
        match self {
            Cell::Null => CellRef::Null,
            Cell::Flag(flag) => CellRef::Flag(*flag),
            Cell::Num(number) => CellRef::Num(*number),
            Cell::Text(text) => CellRef::Text(text.as_str()),
            Cell::Bytes(bytes) => CellRef::Bytes(bytes.as_slice()),
        }
    }
}

impl Copied for Cell {
    fn copy(&self, alloc: Global) -> Result<Cell, AllocError> {
        match self {
            Cell::Null => Ok(Cell::Null),
            Cell::Flag(flag) => Ok(Cell::Flag(*flag)),
            Cell::Num(number) => Ok(Cell::Num(*number)),
            Cell::Text(text) => Ok(Cell::Text(text.copy(alloc)?)),
            Cell::Bytes(bytes) => Ok(Cell::Bytes(bytes.copy(alloc)?)),
        }
    }
}
