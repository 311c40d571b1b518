//! The line of the columns.

ghost use Rattle.std.specs.Prelude.{◌≡◌, ◌<◌, ◌≤◌, length, IfOk, IfSome};
ghost use Rattle.words.specs.Reading.{Gives, map_value};
ghost use Rattle.pieces.specs.Refusal.{is_memory as is_memory_of_piece};
ghost use Rattle.report.specs.Refusal.{is_memory};
ghost use Rattle.report.specs.Schema.{id_at, kind_at, null_words, required_at, before_colon, named_at, column_at, gap_or_end as or_end, columns_at, listed, schema_of};

use crate::refusal::LineRefusal;
use crate::start_line::word_and_gap;
use pieces::{PieceRefusal, take_byte, take_gap, take_literal, take_long, take_one_of};
use row_types::{Column, Columns, KIND_WORDS, Kind, kind_of_word};
use std::alloc::Global;

/// Whether null may not or may stand in a column.
const NULLS: [&str; 2] = ["required", "optional"];

/// The columns of a table, as the line tells them.
#[tactic(auto, unfolding(crate::specs::Schema::schema_of))]
pub fn schema_line(alloc: Global, line: &str) -> Result<Columns, LineRefusal>
    ensures { Gives is_memory (λ columns. columns) result (schema_of line.now) }
{
    let list = columns(alloc, line)?;
    Ok(Columns::from_list(list)?)
}

/// The columns of the line, which are its list alone.
fn columns(alloc: Global, line: &str) -> Result<Vec<Column>, PieceRefusal>
    ensures { Gives is_memory_of_piece (λ list. list.items) result (listed line.now) }
{
    let start = word_and_gap("schema", line)?;
    take_columns(alloc, line, start)
}

/// Columns from the place to the end of the line, with gaps between them.
fn take_columns(alloc: Global, line: &str, start: usize) -> Result<Vec<Column>, PieceRefusal>
    requires { start ≤ length line.now }
    ensures { Gives is_memory_of_piece (λ list. list.items) result
        (map_value (λ read. read.0) (columns_at line.now start)) }
{
    let mut list = Vec::new(alloc);
    let mut at = start;
    loop {
        let (column, after) = take_column(alloc, line, at)?;
        list.push(column)?;
        match gap_or_end(line, after)? {
            Some(next) => at = next,
            None => return Ok(list),
        }
    }
}

/// Whether the line ends at the place, or where the next column begins.
fn gap_or_end(line: &str, place: usize) -> Result<Option<usize>, PieceRefusal>
    requires { place ≤ length line.now }
    ensures exact { result ≡ or_end line.now place }
    ensures within { IfOk result (λ next. IfSome next (λ start.
        (place < start) × (start ≤ length line.now))) }
{
    if place == line.len() {
        return Ok(None);
    }
    Ok(Some(take_gap(line, place)?))
}

/// The column at the place, and the place after it.
fn take_column(alloc: Global, line: &str, place: usize) -> Result<(Column, usize), PieceRefusal>
    requires { place ≤ length line.now }
    ensures exact { Gives is_memory_of_piece (λ read. read) result (column_at line.now place) }
    ensures within { IfOk result (λ read. (place ≤ read.1) × (read.1 ≤ length line.now)) }
{
    let (id, start) = take_id(line, place)?;
    let (kind, start) = take_kind(line, start)?;
    let (required, start) = take_required(line, start)?;
    take_named(alloc, line, start, id, kind, required)
}

/// The id at the place, and the place behind the colon after it.
fn take_id(line: &str, place: usize) -> Result<(i32, usize), PieceRefusal>
    requires { place ≤ length line.now }
    ensures exact { result ≡ before_colon line.now (id_at line.now place) }
    ensures within { IfOk result (λ read. (place ≤ read.1) × (read.1 ≤ length line.now)) }
{
    let (id, after) = take_int(line, place)?;
    let start = take_byte(line, after, b':')?;
    Ok((id, start))
}

/// The number of 32 bits at the place, and the place after it.
fn take_int(line: &str, place: usize) -> Result<(i32, usize), PieceRefusal>
    requires { place ≤ length line.now }
    ensures exact { result ≡ id_at line.now place }
    ensures within { IfOk result (λ read. (place ≤ read.1) × (read.1 ≤ length line.now)) }
{
    let (id, after) = take_long(line, place)?;
    match i32::try_from(id) {
        Ok(id) => Ok((id, after)),
        Err(_) => Err(PieceRefusal::Syntax {
            place: place as u64,
        }),
    }
}

/// The kind at the place, and the place behind the colon after it.
fn take_kind(line: &str, place: usize) -> Result<(Kind, usize), PieceRefusal>
    requires { place ≤ length line.now }
    ensures exact { result ≡ before_colon line.now (kind_at line.now place) }
    ensures within { IfOk result (λ read. (place ≤ read.1) × (read.1 ≤ length line.now)) }
{
    let (kind, after) = kind_word(line, place)?;
    let start = take_byte(line, after, b':')?;
    Ok((kind, start))
}

/// The kind whose word stands at the place, and the place after it.
fn kind_word(line: &str, place: usize) -> Result<(Kind, usize), PieceRefusal>
    requires { place ≤ length line.now }
    ensures exact { result ≡ kind_at line.now place }
    ensures within { IfOk result (λ read. (place ≤ read.1) × (read.1 ≤ length line.now)) }
{
    let (index, after) = take_one_of(line, place, &KIND_WORDS)?;
    Ok((kind_of_word(index), after))
}

/// Whether a column is required, as the word at the place says, and the place behind the colon
/// after it.
fn take_required(line: &str, place: usize) -> Result<(bool, usize), PieceRefusal>
    requires { place ≤ length line.now }
    ensures exact { result ≡ before_colon line.now (required_at line.now place) }
    ensures within { IfOk result (λ read. (place ≤ read.1) × (read.1 ≤ length line.now)) }
{
    let (required, after) = required_word(line, place)?;
    let start = take_byte(line, after, b':')?;
    Ok((required, start))
}

/// Whether a column is required, as the word at the place says, and the place after it.
fn required_word(line: &str, place: usize) -> Result<(bool, usize), PieceRefusal>
    requires { place ≤ length line.now }
    ensures exact { result ≡ required_at line.now place }
    ensures within { IfOk result (λ read. (place ≤ read.1) × (read.1 ≤ length line.now)) }
{
    let (index, after) = take_one_of(line, place, &NULLS)?;
    Ok((index == 0, after))
}

/// The column whose name stands at the place, and the place after it.
fn take_named(
    alloc: Global,
    line: &str,
    place: usize,
    id: i32,
    kind: Kind,
    required: bool,
) -> Result<(Column, usize), PieceRefusal>
    requires { place ≤ length line.now }
    ensures exact { Gives is_memory_of_piece (λ read. read) result
        (named_at line.now id kind required place) }
    ensures within { IfOk result (λ read. (place ≤ read.1) × (read.1 ≤ length line.now)) }
{
    let (name, after) = take_literal(alloc, line, place)?;
    Ok((
        Column {
            id,
            name,
            kind,
            required,
        },
        after,
    ))
}
