//! The line of a row, put into a slice.

ghost use Rattle.std.specs.Prelude.{◌≡◌, ◌+◌, ◌≤◌, ◌++◌, length, map, take};
ghost use Rattle.std.specs.Bool.{OnTrue};
ghost use Rattle.std.specs.Fmt.{signed_decimal};
ghost use Rattle.std.specs.List.{flat_map};
ghost use Rattle.pieces.specs.Number.{optional_text};
ghost use Rattle.row_pred.specs.Cells.{spaced_text, cells_text};
ghost use Rattle.row_types.specs.CellRef.{lent_cell};
ghost use Rattle.lineage_cli.specs.RowLine.{most_cells, most_line};
ghost use Rattle.lineage_cli.specs.Text.{spaced, row_line};

use cell_text::{most_bytes, put_cell, put_number, put_piece};
use row_types::CellRef;

/// How many bytes stand before the cells of a row at most: two numbers, each with a space.
pub const FRONT_BYTES: usize = 42;

/// Whether the line of a row with these cells surely fits into so many bytes.
pub fn line_fits(cells: &[CellRef<'_>], room: usize) -> bool
    ensures { OnTrue result (most_line (map lent_cell cells.now) ≤ room) }
{
    if room < FRONT_BYTES + 1 {
        return false;
    }
    let mut left = room - FRONT_BYTES - 1;
    for cell in cells {
        let most = most_bytes(*cell);
        if most >= left {
            return false;
        }
        left -= most + 1;
    }
    true
}

/// Puts the line of a row at the place `at`, and returns the place after it.
pub fn put_line(
    room: &mut [u8],
    at: usize,
    id: Option<i64>,
    last: i64,
    cells: &[CellRef<'_>],
) -> usize
    requires fits { at + most_line (map lent_cell cells.now) ≤ length room.old }
    ensures put { take result room.new ≡ take at room.old
        ++ row_line (record { id = id; last = last; cells = map lent_cell cells.now }) }
    ensures len { length room.new ≡ length room.old }
    ensures within { result ≤ at + most_line (map lent_cell cells.now) }
{
    let start = put_front(room, at, id, last);
    let end = put_cells(room, start, cells);
    put_piece(room, end, b"\n")
}

/// Puts what comes before the cells of a row: its id and its last change, each with a space.
#[inline(always)]
pub fn put_front(room: &mut [u8], at: usize, id: Option<i64>, last: i64) -> usize
    requires fits { at + 42 ≤ length room.old }
    ensures put { take result room.new ≡ take at room.old
        ++ (spaced (optional_text id) ++ spaced (signed_decimal last)) }
    ensures len { length room.new ≡ length room.old }
    ensures within { result ≤ at + 42 }
{
    let end = put_id(room, at, id);
    let start = put_piece(room, end, b" ");
    let end = put_number(room, start, last);
    put_piece(room, end, b" ")
}

/// Puts the id, or `-` if there is none.
#[inline(always)]
fn put_id(room: &mut [u8], at: usize, id: Option<i64>) -> usize
    requires fits { at + 20 ≤ length room.old }
    ensures put { take result room.new ≡ take at room.old ++ optional_text id }
    ensures len { length room.new ≡ length room.old }
    ensures within { result ≤ at + 20 }
{
    match id {
        None => put_piece(room, at, b"-"),
        Some(id) => put_number(room, at, id),
    }
}

/// Puts the cells, with a space between each two.
#[inline(always)]
fn put_cells(room: &mut [u8], at: usize, cells: &[CellRef<'_>]) -> usize
    requires fits { at + most_cells (map lent_cell cells.now) ≤ length room.old }
    ensures put { take result room.new ≡ take at room.old ++ cells_text (map lent_cell cells.now) }
    ensures len { length room.new ≡ length room.old }
    ensures within { result ≤ at + most_cells (map lent_cell cells.now) }
{
    let Some((first, others)) = cells.split_first() else {
        return at;
    };
    let end = put_cell(room, at, *first);
    put_others(room, end, others)
}

/// Puts the cells after another one, each with a space before it.
#[inline(always)]
fn put_others(room: &mut [u8], at: usize, cells: &[CellRef<'_>]) -> usize
    requires fits { at + most_cells (map lent_cell cells.now) ≤ length room.old }
    ensures put { take result room.new ≡ take at room.old
        ++ flat_map spaced_text (map lent_cell cells.now) }
    ensures len { length room.new ≡ length room.old }
    ensures within { result ≤ at + most_cells (map lent_cell cells.now) }
{
    let mut to = at;
    for cell in cells {
        let start = put_piece(room, to, b" ");
        to = put_cell(room, start, *cell);
    }
    to
}
