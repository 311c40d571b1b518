//! Requests in a text.

ghost use Rattle.std.specs.Prelude.{◌≡◌, ◌<◌, ◌≤◌, ◌++◌, [], false, List, length, IfOk, IfSome, OnOk, OnErr, Ok};
ghost use Rattle.std.specs.List.{flat_map};
ghost use Rattle.std.specs.String.{string_bytes};
ghost use Rattle.words.specs.Reading.{Gives};
ghost use Rattle.row_types.specs.declared.column.Column.{Column as AColumn};
ghost use Rattle.history_types.specs.Fits.{FitsRequest};
ghost use Rattle.pieces.specs.Word.{gap_at, mark_at};
ghost use Rattle.history_log.specs.Refusal.{is_memory};
ghost use Rattle.history_log.specs.Request.{or_end, rows_at, is_repeated, path_at, paths_at, paths_or_end, request_behind, request_at, request_of, rows_text, next_row_text, next_path_text, request_text};

use crate::refusal::HistoryRefusal;
use avro_wire::Text;
use history_types::{Paths, Request};
use lists::{Distinct, List};
use pieces::{put_literal, take_end, take_gap, take_literal, take_mark, take_one_of};
use row_pred::{put_cells, take_cells};
use row_types::{CellRows, Cells, Column, Columns};
use std::alloc::{AllocError, Global};

/// The words that requests begin with.
const WORDS: [&str; 3] = ["append", "compact", "upgrade"];

/// The request that the text is, for a table of these columns. docs/FORMATS.md, "Requests".
pub fn read_request(alloc: Global, text: &str, columns: &Columns) -> Result<Request, HistoryRefusal>
    ensures exact { Gives is_memory (λ request. request) result (request_of columns.now text.now) }
    // What is read is about a table of these columns.
    ensures fits { IfOk result (λ request. FitsRequest columns.now request) }
{
    take_request(alloc, text, 0, columns)
}

/// The text of the request.
pub fn print_request(alloc: Global, request: &Request) -> Result<Text, AllocError>
    ensures text { IfOk result (λ text. text ≡ request_text request.now) }
    // What is printed of a request about a table is read as it.
    ensures reads_back { IfOk result (λ text. (columns : List AColumn)
        → FitsRequest columns request.now → request_of columns text ≡ Ok request.now) }
{
    let mut out = String::new(alloc);
    put_parts(&mut out, request)?;
    Ok(Text::from_string(out))
}

/// The request from `place`, a byte offset from 0, to the end of the text.
pub fn take_request(
    alloc: Global,
    text: &str,
    place: usize,
    columns: &Columns,
) -> Result<Request, HistoryRefusal>
    requires { place ≤ length text.now }
    ensures exact { Gives is_memory (λ request. request) result
        (request_at columns.now text.now place) }
    // What is read is about a table of these columns.
    ensures fits { IfOk result (λ request. FitsRequest columns.now request) }
{
    let (index, after) = take_one_of(text, place, &WORDS)?;
    take_behind(alloc, text, after, index, columns.as_slice())
}

/// Appends the text of the request to `out`. An `Err` says that memory ran out, and leaves `out` as
/// it was.
pub fn put_request(out: &mut String, request: &Request) -> Result<(), AllocError>
    ensures ok { OnOk result (string_bytes out.new
        ≡ string_bytes out.old ++ request_text request.now) }
    ensures unchanged { OnErr result (string_bytes out.new ≡ string_bytes out.old) }
{
    // The text is whole before it is appended, so that a failure appends no part of it.
    let mut text = String::new(*out.allocator());
    put_parts(&mut text, request)?;
    out.push_str(text.as_str())
}

/// Puts the text of the request part by part. An `Err` may leave some of the parts.
pub(crate) fn put_parts(out: &mut String, request: &Request) -> Result<(), AllocError>
    ensures { OnOk result (string_bytes out.new
        ≡ string_bytes out.old ++ request_text request.now) }
{
    match request {
        Request::Append(rows) => {
            out.push_str("append ")?;
            put_rows(out, rows.as_slice())
        }
        Request::Compact(paths) => {
            out.push_str("compact")?;
            put_paths(out, paths.as_slice())
        }
        Request::Upgrade => out.push_str("upgrade"),
    }
}

/// What follows the word of a request: `index` is the word's place among them.
fn take_behind(
    alloc: Global,
    text: &str,
    place: usize,
    index: usize,
    columns: &[Column],
) -> Result<Request, HistoryRefusal>
    requires { place ≤ length text.now }
    ensures exact { Gives is_memory (λ request. request) result
        (request_behind columns.now text.now (index, place)) }
{
    match index {
        0 => take_append(alloc, text, place, columns),
        1 => take_compact(alloc, text, place),
        _ => take_upgrade(text, place),
    }
}

/// An append, after its word.
fn take_append(
    alloc: Global,
    text: &str,
    place: usize,
    columns: &[Column],
) -> Result<Request, HistoryRefusal>
    requires { place ≤ length text.now }
    ensures exact { Gives is_memory (λ request. request) result
        (request_behind columns.now text.now (0, place)) }
{
    let start = take_gap(text, place)?;
    Ok(Request::Append(take_rows(alloc, text, start, columns)?))
}

/// A compaction, after its word.
fn take_compact(alloc: Global, text: &str, place: usize) -> Result<Request, HistoryRefusal>
    requires { place ≤ length text.now }
    ensures exact { Gives is_memory (λ request. request) result
        (request_behind [] text.now (1, place)) }
{
    let next = path_end(text, place)?;
    Ok(Request::Compact(take_paths_or_end(alloc, text, next)?))
}

/// An upgrade, after its word.
fn take_upgrade(text: &str, place: usize) -> Result<Request, HistoryRefusal>
    requires { place ≤ length text.now }
    ensures exact { Gives is_memory (λ request. request) result
        (request_behind [] text.now (2, place)) }
{
    take_end(text, place)?;
    Ok(Request::Upgrade)
}

/// The rows from `place` to the end of the text.
fn take_rows(
    alloc: Global,
    text: &str,
    place: usize,
    columns: &[Column],
) -> Result<CellRows, HistoryRefusal>
    requires { place ≤ length text.now }
    ensures exact { Gives is_memory (λ rows. rows) result (rows_at columns.now text.now place) }
{
    let mut rows = List::new(alloc);
    let mut at = place;
    'rows: loop {
        let (cells, after) = take_cells(alloc, text, at, columns)?;
        rows.push(cells)?;
        let Some(next) = row_end(text, after)? else {
            return Ok(rows);
        };
        at = next;
    }
}

/// Where the next row begins. `None`: the text ends.
fn row_end(text: &str, place: usize) -> Result<Option<usize>, HistoryRefusal>
    requires { place ≤ length text.now }
    ensures exact { result ≡ or_end (mark_at 59) text.now place }
    ensures within { IfOk result (λ next. IfSome next (λ start.
        (place < start) × (start ≤ length text.now))) }
{
    if place == text.len() {
        return Ok(None);
    }
    Ok(Some(take_mark(text, place, b';')?))
}

/// The paths from `next` to the end of the text. `None`: no path.
fn take_paths_or_end(
    alloc: Global,
    text: &str,
    next: Option<usize>,
) -> Result<Paths, HistoryRefusal>
    requires { IfSome next (λ start. start ≤ length text.now) }
    ensures exact { Gives is_memory (λ paths. paths) result (paths_or_end text.now next) }
{
    match next {
        Some(start) => take_paths(alloc, text, start),
        None => Ok(List::new(alloc)),
    }
}

/// The paths from `place` to the end of the text.
fn take_paths(alloc: Global, text: &str, place: usize) -> Result<Paths, HistoryRefusal>
    requires { place ≤ length text.now }
    ensures exact { Gives is_memory (λ paths. paths) result (paths_at text.now place) }
{
    let mut paths = Distinct::new(alloc);
    let mut at = place;
    'paths: loop {
        let (path, after) = take_path(alloc, text, at, &paths)?;
        paths.push(alloc, path)?;
        let Some(next) = path_end(text, after)? else {
            return Ok(paths.into_list());
        };
        at = next;
    }
}

/// The path at `place`, which is none of those before it, and the place after it.
fn take_path(
    alloc: Global,
    text: &str,
    place: usize,
    before: &Distinct<Text>,
) -> Result<(Text, usize), HistoryRefusal>
    requires { place ≤ length text.now }
    ensures exact { Gives is_memory (λ read. read) result (path_at text.now before.now place) }
    ensures within { IfOk result (λ read. (place ≤ read.1) × (read.1 ≤ length text.now)) }
    ensures fresh { IfOk result (λ read. is_repeated before.now read.0 ≡ false) }
{
    let (path, after) = take_literal(alloc, text, place)?;
    if before.has(path.as_str()) {
        return Err(HistoryRefusal::Syntax {
            place: (after - 1) as u64,
        });
    }
    Ok((path, after))
}

/// Where the next path begins. `None`: the text ends.
fn path_end(text: &str, place: usize) -> Result<Option<usize>, HistoryRefusal>
    requires { place ≤ length text.now }
    ensures exact { result ≡ or_end gap_at text.now place }
    ensures within { IfOk result (λ next. IfSome next (λ start.
        (place < start) × (start ≤ length text.now))) }
{
    if place == text.len() {
        return Ok(None);
    }
    Ok(Some(take_gap(text, place)?))
}

/// Appends the text of the rows to `out`.
fn put_rows(out: &mut String, rows: &[Cells]) -> Result<(), AllocError>
    ensures { OnOk result (string_bytes out.new ≡ string_bytes out.old ++ rows_text rows.now) }
{
    let Some((first, others)) = rows.split_first() else {
        return Ok(());
    };
    put_cells(out, first.as_slice())?;
    put_next_rows(out, others)
}

/// Puts the text of the rows after another one.
fn put_next_rows(out: &mut String, rows: &[Cells]) -> Result<(), AllocError>
    ensures { OnOk result (string_bytes out.new
        ≡ string_bytes out.old ++ flat_map next_row_text rows.now) }
{
    for row in rows {
        out.push_str(" ; ")?;
        put_cells(out, row.as_slice())?;
    }
    Ok(())
}

/// Puts the text of the paths after a word or another path.
fn put_paths(out: &mut String, paths: &[Text]) -> Result<(), AllocError>
    ensures { OnOk result (string_bytes out.new
        ≡ string_bytes out.old ++ flat_map next_path_text paths.now) }
{
    for path in paths {
        out.push_str(" ")?;
        put_literal(out, path.as_str())?;
    }
    Ok(())
}
