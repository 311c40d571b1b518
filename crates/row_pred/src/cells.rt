//! The cells of a row.

ghost use Rattle.std.specs.Prelude.{◌≡◌, ◌≤◌, ◌++◌, List, length, IfOk, OnOk, OnErr, Ok};
ghost use Rattle.std.specs.List.{flat_map};
ghost use Rattle.std.specs.String.{string_bytes};
ghost use Rattle.words.specs.Reading.{Gives};
ghost use Rattle.row_types.specs.declared.column.Column.{Column as AColumn};
ghost use Rattle.row_types.specs.Fits.{IsRow};
ghost use Rattle.row_pred.specs.Refusal.{is_memory};
ghost use Rattle.row_pred.specs.Cells.{spaced_text, cells_text};
ghost use Rattle.row_pred.specs.Cells.{next_at, cells_at, cells_of};

use crate::cell::{put_cell, take_cell};
use crate::refusal::PredRefusal;
use avro_wire::Text;
use lists::List;
use pieces::{take_end, take_gap};
use row_types::{Cell, Cells, Column, Columns};
use std::alloc::{AllocError, Global};

/// The row that the text is: a cell for each column, in their order. docs/FORMATS.md, "Rows".
pub fn read_cells(alloc: Global, text: &str, columns: &Columns) -> Result<Cells, PredRefusal>
    ensures exact { Gives is_memory (λ cells. cells) result (cells_of columns.now text.now) }
    // What is read fits the columns.
    ensures fits { IfOk result (λ cells. IsRow columns.now cells) }
{
    let (cells, after) = take_cells(alloc, text, 0, columns.as_slice())?;
    take_end(text, after)?;
    Ok(cells)
}

/// The text of the cells, in their order.
pub fn print_cells(alloc: Global, cells: &Cells) -> Result<Text, AllocError>
    ensures text { IfOk result (λ text. text ≡ cells_text cells.now) }
    // What is printed of a row is read as it.
    ensures reads_back { IfOk result (λ text. (columns : List AColumn) → IsRow columns cells.now
        → cells_of columns text ≡ Ok cells.now) }
{
    let mut out = String::new(alloc);
    put_each(&mut out, cells.as_slice())?;
    Ok(Text::from_string(out))
}

/// The row at `place`, a byte offset from 0: a cell for each column, in their order. Beside it
/// the place after it.
pub fn take_cells(
    alloc: Global,
    text: &str,
    place: usize,
    columns: &[Column],
) -> Result<(Cells, usize), PredRefusal>
    requires { place ≤ length text.now }
    ensures exact { Gives is_memory (λ read. read) result (cells_at columns.now text.now place) }
    ensures within { IfOk result (λ read. (place ≤ read.1) × (read.1 ≤ length text.now)) }
    // What is read fits the columns.
    ensures fits { IfOk result (λ read. IsRow columns.now read.0) }
{
    // A row has a cell for each column, so no room is left over.
    let mut cells = Vec::with_capacity(alloc, columns.len())?;
    let mut at = place;
    for column in columns {
        let start = next_cell(text, at, &cells)?;
        let (cell, after) = take_cell(alloc, text, start, column)?;
        cells.push(cell)?;
        at = after;
    }
    Ok((List::from_vec(cells), at))
}

/// Appends the text of the cells to `out`. An `Err` says that memory ran out, and leaves `out` as it
/// was.
pub fn put_cells(out: &mut String, cells: &[Cell]) -> Result<(), AllocError>
    ensures ok { OnOk result (string_bytes out.new ≡ string_bytes out.old ++ cells_text cells.now) }
    ensures unchanged { OnErr result (string_bytes out.new ≡ string_bytes out.old) }
{
    // The text is whole before it is appended, so that a failure appends no part of it.
    let mut text = String::new(*out.allocator());
    put_each(&mut text, cells)?;
    out.push_str(text.as_str())
}

/// Puts the text of the cells one by one. An `Err` may leave some of them.
fn put_each(out: &mut String, cells: &[Cell]) -> Result<(), AllocError>
    ensures { OnOk result (string_bytes out.new ≡ string_bytes out.old ++ cells_text cells.now) }
{
    let Some((first, others)) = cells.split_first() else {
        return Ok(());
    };
    put_cell(out, first)?;
    put_others(out, others)
}

/// Where the next cell begins after those before it: after a gap, where it is not the first.
fn next_cell(text: &str, place: usize, before: &Vec<Cell>) -> Result<usize, PredRefusal>
    requires { place ≤ length text.now }
    ensures exact { result ≡ next_at before.now.items text.now place }
    ensures within { IfOk result (λ after. (place ≤ after) × (after ≤ length text.now)) }
{
    if before.is_empty() {
        return Ok(place);
    }
    Ok(take_gap(text, place)?)
}

/// Puts the text of the cells after another one.
fn put_others(out: &mut String, cells: &[Cell]) -> Result<(), AllocError>
    ensures { OnOk result (string_bytes out.new
        ≡ string_bytes out.old ++ flat_map spaced_text cells.now) }
{
    for cell in cells {
        out.push_str(" ")?;
        put_cell(out, cell)?;
    }
    Ok(())
}
