//! A cell that borrows its text or its bytes.

ghost use Rattle.std.specs.Prelude.{◌≡◌, IfOk};
ghost use Rattle.row_types.specs.CellRef.{lent_cell, is_null as null_cell, number_of};

use crate::cell::Cell;
use avro_wire::{Bytes, Text};
use std::alloc::{AllocError, Global};

/// What is in one column of a row: a `Cell` whose text or bytes are borrowed.
#[derive(Clone, Copy)]
pub enum CellRef<'a> {
    Null,
    Flag(bool),
    /// A number of any kind: an int, a long, days or microseconds.
    Num(i64),
    Text(&'a str),
    Bytes(&'a [u8]),
}

impl<'a> CellRef<'a> {
    /// A cell of its own.
    pub fn to_cell(self, alloc: Global) -> Result<Cell, AllocError>
        ensures { IfOk result (λ cell. cell ≡ lent_cell self.entry) }
    {
        match self {
            CellRef::Null => Ok(Cell::Null),
            CellRef::Flag(flag) => Ok(Cell::Flag(flag)),
            CellRef::Num(number) => Ok(Cell::Num(number)),
            CellRef::Text(text) => Ok(Cell::Text(Text::from_str(alloc, text)?)),
            CellRef::Bytes(bytes) => Ok(Cell::Bytes(Bytes::from_slice(alloc, bytes)?)),
        }
    }

    /// Whether it is null.
    pub fn is_null(self) -> bool
        ensures { result ≡ null_cell (lent_cell self.entry) }
    {
        matches!(self, CellRef::Null)
    }

    /// The number; None if it is none.
    pub fn number(self) -> Option<i64>
        ensures { result ≡ number_of (lent_cell self.entry) }
    {
        match self {
            CellRef::Num(number) => Some(number),
            _ => None,
        }
    }
}
