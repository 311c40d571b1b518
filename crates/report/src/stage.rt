//! One line behind those that were read.

ghost use Rattle.std.specs.Prelude.{◌≡◌, IfOk};
ghost use Rattle.words.specs.Reading.{Gives};
ghost use Rattle.row_types.specs.RowMap.{row_at};
ghost use Rattle.report.specs.Refusal.{is_memory};
ghost use Rattle.report.specs.Rows.{joined, put_at as put_row_at};
ghost use Rattle.report.specs.Fits.{FitsPart};
ghost use Rattle.report.specs.Taken.{columns_line as a_columns_line, start_line as a_start_line, row_line as a_row_line, entry_line, rows_line as a_rows_line, entries_line as an_entries_line, reply_line as a_reply_line, part_read};

use crate::refusal::LineRefusal;
use crate::row_line::row_line;
use crate::schema_line::schema_line;
use crate::start_line::start_line;
use avro_wire::text_of;
use history_log::{Taker, read_entry};
use history_types::State;
use pieces::stands;
use row_types::{Cells, Columns, Row};
use std::alloc::Global;

/// What was read so far of a report whose entries are taken one by one.
#[derive(Drop)]
pub enum Part<T> {
    /// No line.
    Nothing,
    /// The columns.
    Schema(Columns),
    /// The columns, and the state at the start as far as its rows were read.
    Rows(Columns, State),
    /// The columns, and what took the entries, of which there is at least one.
    Entries(Columns, T),
    /// The same of the whole report, perhaps with replies behind it.
    Ended(Columns, T),
}

/// What was read with one line more.
#[tactic(auto, unfolding(crate::specs::Taken::part_read))]
pub fn read_line<T: Taker>(
    alloc: Global,
    part: Part<T>,
    line: &[u8],
) -> Result<Part<T>, LineRefusal>
    ensures exact { Gives is_memory (λ part. part) result
        (part_read T.begun T.more part line.now) }
    ensures fits { FitsPart T.fits part → IfOk result (FitsPart T.fits) }
{
    match part {
        Part::Nothing => columns_line(alloc, line),
        Part::Schema(columns) => first_state(alloc, columns, line),
        Part::Rows(columns, start) => rows_line(alloc, columns, start, line),
        Part::Entries(columns, taker) => entries_line(alloc, columns, taker, line),
        Part::Ended(columns, taker) => reply_line(columns, taker, line),
    }
}

/// The line of the columns.
fn columns_line<T: Taker>(alloc: Global, line: &[u8]) -> Result<Part<T>, LineRefusal>
    ensures exact { Gives is_memory (λ part. part) result (a_columns_line line.now) }
    ensures fits { IfOk result (FitsPart T.fits) }
{
    let Some(text) = text_of(line) else {
        return Err(LineRefusal::Wrong);
    };
    Ok(Part::Schema(schema_line(alloc, text)?))
}

/// The line behind that of the columns.
fn first_state<T: Taker>(
    alloc: Global,
    columns: Columns,
    line: &[u8],
) -> Result<Part<T>, LineRefusal>
    ensures exact { Gives is_memory (λ part. part) result (a_start_line columns line.now) }
    ensures fits { IfOk result (FitsPart T.fits) }
{
    let Some(text) = text_of(line) else {
        return Err(LineRefusal::Wrong);
    };
    let start = start_line(alloc, text)?;
    Ok(Part::Rows(columns, start))
}

/// A line behind the end: bytes of any kind behind the word.
fn reply_line<T: Taker>(columns: Columns, taker: T, line: &[u8]) -> Result<Part<T>, LineRefusal>
    ensures exact { result ≡ a_reply_line columns taker line.now }
    ensures fits { T.fits columns taker → IfOk result (FitsPart T.fits) }
{
    if line.starts_with(b"reply ") {
        Ok(Part::Ended(columns, taker))
    } else {
        Err(LineRefusal::Wrong)
    }
}

/// A line between the state at the start and the first entry, or that entry.
fn rows_line<T: Taker>(
    alloc: Global,
    columns: Columns,
    start: State,
    line: &[u8],
) -> Result<Part<T>, LineRefusal>
    ensures exact { Gives is_memory (λ part. part) result
        (a_rows_line T.begun T.more columns start line.now) }
    ensures fits { IfOk result (FitsPart T.fits) }
{
    let Some(text) = text_of(line) else {
        return Err(LineRefusal::Wrong);
    };
    if text == "end" {
        Ok(Part::Ended(columns, T::begin(alloc, start)))
    } else if stands(text.as_bytes(), 0, b'r') {
        add_row(alloc, columns, start, text)
    } else {
        add_entry(alloc, columns, T::begin(alloc, start), text)
    }
}

/// A line between the first entry and the end.
fn entries_line<T: Taker>(
    alloc: Global,
    columns: Columns,
    taker: T,
    line: &[u8],
) -> Result<Part<T>, LineRefusal>
    ensures exact { Gives is_memory (λ part. part) result
        (an_entries_line T.more columns taker line.now) }
    ensures fits { T.fits columns taker → IfOk result (FitsPart T.fits) }
{
    let Some(text) = text_of(line) else {
        return Err(LineRefusal::Wrong);
    };
    if text == "end" {
        Ok(Part::Ended(columns, taker))
    } else if stands(text.as_bytes(), 0, b'r') {
        Err(LineRefusal::Wrong)
    } else {
        add_entry(alloc, columns, taker, text)
    }
}

/// The line of a row, which stands before all entries.
fn add_row<T: Taker>(
    alloc: Global,
    columns: Columns,
    start: State,
    text: &str,
) -> Result<Part<T>, LineRefusal>
    ensures exact { Gives is_memory (λ part. part) result (a_row_line columns start text.now) }
    ensures fits { IfOk result (FitsPart T.fits) }
{
    let row = row_line(alloc, text, &columns)?;
    let start = join(start, row)?;
    Ok(Part::Rows(columns, start))
}

/// The state with one row more: at its id, which no row has, or behind the rows without id.
fn join(mut state: State, row: Row) -> Result<State, LineRefusal>
    ensures { Gives is_memory (λ state. state) result (joined state row row.id) }
{
    if let Some(id) = row.id {
        return put_at(state, id, row.last, row.cells);
    }
    state.unnamed.push((row.last, row.cells))?;
    Ok(state)
}

/// The state with a row at this id, which no row has.
fn put_at(mut state: State, id: i64, last: i64, cells: Cells) -> Result<State, LineRefusal>
    ensures { Gives is_memory (λ state. state) result
        (put_row_at state id (last, cells) (row_at state.rows id)) }
{
    let None = state.rows.get(id) else {
        return Err(LineRefusal::Wrong);
    };
    state.rows.insert(id, last, cells)?;
    Ok(state)
}

/// The line of an entry, which is taken.
fn add_entry<T: Taker>(
    alloc: Global,
    columns: Columns,
    taker: T,
    text: &str,
) -> Result<Part<T>, LineRefusal>
    ensures exact { Gives is_memory (λ part. part) result
        (entry_line T.more columns taker text.now) }
    ensures fits { T.fits columns taker → IfOk result (FitsPart T.fits) }
{
    let entry = read_entry(alloc, text, &columns)?;
    let taker = taker.take(entry)?;
    Ok(Part::Entries(columns, taker))
}
