//! One cell.

ghost use Rattle.std.specs.Prelude.{◌≡◌, ◌≤◌, ◌++◌, length, slice_get, Some, IfOk, OnOk, OnErr};
ghost use Rattle.std.specs.String.{string_bytes};
ghost use Rattle.std.specs.Option.{option_map};
ghost use Rattle.words.specs.Reading.{Gives, map_value};
ghost use Rattle.pieces.specs.Refusal.{is_memory as is_memory_of_piece};
ghost use Rattle.pieces.specs.Word.{one_of};
ghost use Rattle.pieces.specs.Number.{any_number_at};
ghost use Rattle.pieces.specs.Literal.{literal_at};
ghost use Rattle.pieces.specs.HexLiteral.{hex_at};
ghost use Rattle.cell_text.specs.Cell.{cell_text};
ghost use Rattle.row_pred.specs.Refusal.{is_memory};
ghost use Rattle.row_pred.specs.Cell.{cell_words, word_cell as cell_of_word};
ghost use Rattle.row_pred.specs.Cell.{begins_number as begins, any_cell_at, fitted as fitting};
ghost use Rattle.row_pred.specs.Cell.{cell_at};

use crate::refusal::PredRefusal;
use cell_text::push_cell;
use pieces::{PieceRefusal, stands, take_any_number, take_hex, take_literal, take_one_of};
use row_types::{Cell, Column, fits};
use std::alloc::{AllocError, Global};

/// The words of cells, and none else.
const WORDS: [&str; 3] = ["null", "true", "false"];

/// The cell of the column at `place`, a byte offset from 0, and the place after it.
pub fn take_cell(
    alloc: Global,
    text: &str,
    place: usize,
    column: &Column,
) -> Result<(Cell, usize), PredRefusal>
    requires { place ≤ length text.now }
    ensures exact { Gives is_memory (λ read. read) result (cell_at column.now text.now place) }
    ensures within { IfOk result (λ read. (place ≤ read.1) × (read.1 ≤ length text.now)) }
{
    let read = any_cell(alloc, text, place)?;
    fitted(column, place, read)
}

/// Appends the text of the cell to `out`. An `Err` says that memory ran out, and leaves `out` as it
/// was.
pub fn put_cell(out: &mut String, cell: &Cell) -> Result<(), AllocError>
    ensures ok { OnOk result (string_bytes out.new ≡ string_bytes out.old ++ cell_text cell.now) }
    ensures unchanged { OnErr result (string_bytes out.new ≡ string_bytes out.old) }
{
    push_cell(out, cell.lend())
}

/// The cell at `place`, whatever its column, and the place after it. `None`: a number that is not
/// of 64 bits.
fn any_cell(alloc: Global, text: &str, place: usize) -> Result<(Option<Cell>, usize), PieceRefusal>
    requires { place ≤ length text.now }
    ensures exact { Gives is_memory_of_piece (λ read. read) result (any_cell_at text.now place) }
    ensures within { IfOk result (λ read. (place ≤ read.1) × (read.1 ≤ length text.now)) }
{
    if stands(text.as_bytes(), place, b'"') {
        text_cell(alloc, text, place)
    } else if stands(text.as_bytes(), place, b'x') {
        bytes_cell(alloc, text, place)
    } else if begins_number(text.as_bytes(), place) {
        number_cell(text, place)
    } else {
        word_cell(text, place)
    }
}

/// A text between quotes.
fn text_cell(alloc: Global, text: &str, place: usize) -> Result<(Option<Cell>, usize), PieceRefusal>
    requires { place ≤ length text.now }
    ensures exact { Gives is_memory_of_piece (λ read. read) result
        (map_value (λ read. (Some (Cell.Text read.0), read.1)) (literal_at text.now place)) }
    ensures within { IfOk result (λ read. (place ≤ read.1) × (read.1 ≤ length text.now)) }
{
    let (content, after) = take_literal(alloc, text, place)?;
    Ok((Some(Cell::Text(content)), after))
}

/// Bytes in hexadecimal.
fn bytes_cell(
    alloc: Global,
    text: &str,
    place: usize,
) -> Result<(Option<Cell>, usize), PieceRefusal>
    requires { place ≤ length text.now }
    ensures exact { Gives is_memory_of_piece (λ read. read) result
        (map_value (λ read. (Some (Cell.Bytes read.0), read.1)) (hex_at text.now place)) }
    ensures within { IfOk result (λ read. (place ≤ read.1) × (read.1 ≤ length text.now)) }
{
    let (bytes, after) = take_hex(alloc, text, place)?;
    Ok((Some(Cell::Bytes(bytes)), after))
}

/// A number.
fn number_cell(text: &str, place: usize) -> Result<(Option<Cell>, usize), PieceRefusal>
    requires { place ≤ length text.now }
    ensures exact { result ≡
        map_value (λ read. (option_map Cell.Num read.0, read.1)) (any_number_at text.now place) }
    ensures within { IfOk result (λ read. (place ≤ read.1) × (read.1 ≤ length text.now)) }
{
    match take_any_number(text, place)? {
        (Some(number), after) => Ok((Some(Cell::Num(number)), after)),
        (None, after) => Ok((None, after)),
    }
}

/// Null, true or false.
fn word_cell(text: &str, place: usize) -> Result<(Option<Cell>, usize), PieceRefusal>
    requires { place ≤ length text.now }
    ensures exact { result ≡ map_value (λ read. (Some (cell_of_word read.0), read.1))
        (one_of cell_words text.now place) }
    ensures within { IfOk result (λ read. (place ≤ read.1) × (read.1 ≤ length text.now)) }
{
    let (index, after) = take_one_of(text, place, &WORDS)?;
    Ok((Some(cell_of(index)), after))
}

/// Whether a number begins at the place.
fn begins_number(bytes: &[u8], place: usize) -> bool
    ensures { result ≡ begins (slice_get bytes.now place) }
{
    place < bytes.len() && (bytes[place] == b'-' || bytes[place].is_ascii_digit())
}

/// The cell of a word, by its place among the words.
fn cell_of(index: usize) -> Cell
    ensures { result ≡ cell_of_word index }
{
    match index {
        0 => Cell::Null,
        1 => Cell::Flag(true),
        _ => Cell::Flag(false),
    }
}

/// The cell that began at `place`, if it may stand in the column.
fn fitted(
    column: &Column,
    place: usize,
    read: (Option<Cell>, usize),
) -> Result<(Cell, usize), PredRefusal>
    ensures exact { result ≡ fitting column.now place read }
    ensures within { IfOk result (λ cell. cell.1 ≡ read.1) }
{
    let (cell, after) = read;
    match cell {
        Some(Cell::Null) if column.required => Err(PredRefusal::NotNull { column: column.id }),
        Some(cell) if fits(column, &cell) => Ok((cell, after)),
        _ => Err(PredRefusal::Misfit {
            place: place as u64,
        }),
    }
}
