//! The text of a cell as a part of a string.

ghost use Rattle.std.specs.Prelude.{◌≡◌, ◌≤◌, ◌++◌, length, IfOk, OnOk, OnErr};
ghost use Rattle.std.specs.Fmt.{signed_decimal};
ghost use Rattle.std.specs.Str.{IsUtf8};
ghost use Rattle.std.specs.String.{string_bytes};
ghost use Rattle.pieces.specs.Literal.{literal_text};
ghost use Rattle.row_types.specs.CellRef.{lent_cell};
ghost use Rattle.cell_text.specs.Cell.{cell_text, most_bytes as most_bytes_of};

use crate::cell::{most_bytes, put_cell};
use row_types::CellRef;
use std::alloc::{AllocError, Global};

/// Appends the text of the cell to `out`. An `Err` says that memory ran out, and leaves `out` as it
/// was.
pub fn push_cell(out: &mut String, cell: CellRef<'_>) -> Result<(), AllocError>
    ensures ok { OnOk result (string_bytes out.new
        ≡ string_bytes out.old ++ cell_text (lent_cell cell.entry)) }
    ensures unchanged { OnErr result (string_bytes out.new ≡ string_bytes out.old) }
{
    let mut room = zeros(*out.allocator(), most_bytes(cell))?;
    push_by(out, &mut room, cell)
}

/// `count` zero bytes.
fn zeros(alloc: Global, count: usize) -> Result<Vec<u8>, AllocError>
    ensures { IfOk result (λ room. length room.items ≡ count) }
{
    vec![in alloc; 0; count]
}

/// The same, by bytes that have room for the text.
fn push_by(out: &mut String, room: &mut [u8], cell: CellRef<'_>) -> Result<(), AllocError>
    requires fits { most_bytes_of (lent_cell cell) ≤ length room.old }
    ensures ok { OnOk result (string_bytes out.new
        ≡ string_bytes out.old ++ cell_text (lent_cell cell.entry)) }
    ensures unchanged { OnErr result (string_bytes out.new ≡ string_bytes out.old) }
{
    let end = put_cell(room, 0, cell);
    cell_is_utf8(cell);
    match str::from_utf8(&room[..end]) {
        Ok(text) => out.push_str(text),
        Err(_) => unreachable!(),
    }
}

/// A law: the text of a cell is UTF-8. It does nothing when it runs.
fn cell_is_utf8(cell: CellRef<'_>)
    ensures { IsUtf8 (cell_text (lent_cell cell.entry)) }
{
    match cell {
        CellRef::Null => {}
        CellRef::Flag(_) => {}
        CellRef::Num(number) => number_is_utf8(number),
        CellRef::Text(text) => literal_is_utf8(text),
        CellRef::Bytes(_) => {}
    }
}

/// So is a number in decimal.
fn number_is_utf8(number: i64)
    ensures { IsUtf8 (signed_decimal number) }
{}

/// So is a text between quotes.
fn literal_is_utf8(text: &str)
    ensures { IsUtf8 (literal_text text.now) }
{}
