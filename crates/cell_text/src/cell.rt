//! The text of a cell.

ghost use Rattle.std.specs.Prelude.{◌≡◌, ◌+◌, ◌-◌, ◌*◌, ◌^◌, ◌<◌, ◌≤◌, ◌++◌, length, take};
ghost use Rattle.pieces.specs.Literal.{literal_text};
ghost use Rattle.pieces.specs.HexLiteral.{hex_text};
ghost use Rattle.row_types.specs.CellRef.{lent_cell};
ghost use Rattle.cell_text.specs.Cell.{cell_text, most_bytes as most_bytes_of};

use crate::digits::put_digits;
use crate::escape::put_escaped;
use crate::piece::{put_number, put_piece};
use row_types::CellRef;

/// How many bytes the text of the cell takes at most, or the largest `usize` if that is more.
pub fn most_bytes(cell: CellRef<'_>) -> usize
    ensures exact { result < 2 ^ 64 - 1 → result ≡ most_bytes_of (lent_cell cell.entry) }
    ensures no_more { result ≤ most_bytes_of (lent_cell cell.entry) }
{
    match cell {
        CellRef::Null => 4,
        CellRef::Flag(_) => 5,
        CellRef::Num(_) => 20,
        CellRef::Text(text) => (2 * text.len()).saturating_add(2),
        CellRef::Bytes(bytes) => 2 * bytes.len() + 1,
    }
}

/// Puts the text of the cell at the place `at`, and returns the place after it.
pub fn put_cell(room: &mut [u8], at: usize, cell: CellRef<'_>) -> usize
    requires fits { at + most_bytes_of (lent_cell cell) ≤ length room.old }
    ensures put { take result room.new ≡ take at room.old ++ cell_text (lent_cell cell.entry) }
    ensures len { length room.new ≡ length room.old }
    ensures within { result ≤ at + most_bytes_of (lent_cell cell.entry) }
{
    match cell {
        CellRef::Null => put_piece(room, at, b"null"),
        CellRef::Flag(true) => put_piece(room, at, b"true"),
        CellRef::Flag(false) => put_piece(room, at, b"false"),
        CellRef::Num(number) => put_number(room, at, number),
        CellRef::Text(text) => put_literal(room, at, text.as_bytes()),
        CellRef::Bytes(bytes) => put_hex(room, at, bytes),
    }
}

/// Puts the text between quotes.
fn put_literal(room: &mut [u8], at: usize, text: &[u8]) -> usize
    requires { at + (2 * length text.now + 2) ≤ length room.old }
    ensures put { take result room.new ≡ take at room.old ++ literal_text text.now }
    ensures len { length room.new ≡ length room.old }
    ensures within { result ≤ at + (2 * length text.now + 2) }
{
    let start = put_piece(room, at, b"\"");
    let end = put_escaped(room, start, text);
    put_piece(room, end, b"\"")
}

/// Puts an x, and two hexadecimal digits for each byte.
fn put_hex(room: &mut [u8], at: usize, bytes: &[u8]) -> usize
    requires { at + (2 * length bytes.now + 1) ≤ length room.old }
    ensures put { take result room.new ≡ take at room.old ++ hex_text bytes.now }
    ensures len { length room.new ≡ length room.old }
    ensures within { result ≤ at + (2 * length bytes.now + 1) }
{
    let start = put_piece(room, at, b"x");
    put_digits(room, start, bytes)
}
