//! Entries in a text.

ghost use Rattle.std.specs.Prelude.{◌≡◌, ◌≤◌, ◌++◌, List, length, IfOk, OnOk, Ok};
ghost use Rattle.std.specs.String.{string_bytes};
ghost use Rattle.words.specs.Reading.{Gives};
ghost use Rattle.row_types.specs.declared.column.Column.{Column as AColumn};
ghost use Rattle.history_types.specs.Fits.{AreRuns, FitsEntry};
ghost use Rattle.history_log.specs.Refusal.{is_memory};
ghost use Rattle.history_log.specs.Entry.{before_gap, entry_of, entry_text};
ghost use Rattle.history_log.specs.EntryParts.{numbers_text, ids_text, start_at, numbers_at, ids_at};

use crate::refusal::HistoryRefusal;
use crate::request::{put_parts, take_request};
use crate::runs::{put_runs, take_runs};
use avro_wire::Text;
use history_types::{Entry, Runs};
use pieces::{
    PieceRefusal, put_optional_long, put_unsigned, take_gap, take_optional_long, take_unsigned,
    take_word,
};
use row_types::Columns;
use std::alloc::{AllocError, Global};

/// The entry that the text is, for a table of these columns. docs/FORMATS.md, "Entries".
pub fn read_entry(alloc: Global, text: &str, columns: &Columns) -> Result<Entry, HistoryRefusal>
    ensures exact { Gives is_memory (λ entry. entry) result (entry_of columns.now text.now) }
    // What is read is about a table of these columns.
    ensures fits { IfOk result (λ entry. FitsEntry columns.now entry) }
{
    let (who, seq, next, place) = take_numbers(text)?;
    let (named, given, place) = take_ids(alloc, text, place)?;
    let request = take_request(alloc, text, place, columns)?;
    Ok(Entry {
        who,
        request,
        seq,
        named,
        given,
        next,
    })
}

/// The text of the entry, without LF.
pub fn print_entry(alloc: Global, entry: &Entry) -> Result<Text, AllocError>
    ensures text { IfOk result (λ text. text ≡ entry_text entry.now) }
    // What is printed of an entry about a table is read as it.
    ensures reads_back { IfOk result (λ text. (columns : List AColumn)
        → FitsEntry columns entry.now → entry_of columns text ≡ Ok entry.now) }
{
    let mut out = String::new(alloc);
    put_numbers(&mut out, entry)?;
    put_ids(&mut out, entry)?;
    put_parts(&mut out, &entry.request)?;
    Ok(Text::from_string(out))
}

/// Whose commit it is, its sequence number and the next id, and the place of the runs.
#[tactic(auto, unfolding(crate::specs::EntryParts::numbers_at))]
fn take_numbers(text: &str) -> Result<(u64, Option<i64>, Option<i64>, usize), HistoryRefusal>
    ensures exact { result ≡ numbers_at text.now }
    ensures within { IfOk result (λ read. read.3 ≤ length text.now) }
{
    let start = take_start(text)?;
    let (who, at) = before_gap(text, take_unsigned(text, start))?;
    let (seq, at) = before_gap(text, take_optional_long(text, at))?;
    let (next, after) = before_gap(text, take_optional_long(text, at))?;
    Ok((who, seq, next, after))
}

/// The place after the word and the gap after it.
fn take_start(text: &str) -> Result<usize, PieceRefusal>
    ensures exact { result ≡ start_at text.now }
    ensures within { IfOk result (λ start. start ≤ length text.now) }
{
    let after = take_word(text, 0, "entry")?;
    take_gap(text, after)
}

/// The named and the given ids, and the place of the request.
#[tactic(auto, unfolding(crate::specs::EntryParts::ids_at))]
fn take_ids(alloc: Global, text: &str, place: usize) -> Result<(Runs, Runs, usize), HistoryRefusal>
    requires { place ≤ length text.now }
    ensures exact { Gives is_memory (λ read. read) result (ids_at text.now place) }
    ensures within { IfOk result (λ read. read.2 ≤ length text.now) }
    ensures fits { IfOk result (λ read. AreRuns read.0 × AreRuns read.1) }
{
    let (named, at) = before_gap(text, take_runs(alloc, text, place))?;
    let (given, after) = before_gap(text, take_runs(alloc, text, at))?;
    Ok((named, given, after))
}

/// What was read, and the place after the gap after it.
fn before_gap<X: Drop>(
    text: &str,
    read: Result<(X, usize), PieceRefusal>,
) -> Result<(X, usize), HistoryRefusal>
    requires { IfOk read (λ piece. piece.1 ≤ length text.now) }
    ensures exact { result ≡ before_gap text.now read }
    ensures within { IfOk result (λ piece. piece.1 ≤ length text.now) }
{
    let (piece, after) = read?;
    let start = take_gap(text, after)?;
    Ok((piece, start))
}

/// Appends the word and the numbers to `out`, each with a space after it.
fn put_numbers(out: &mut String, entry: &Entry) -> Result<(), AllocError>
    ensures { OnOk result (string_bytes out.new
        ≡ string_bytes out.old ++ numbers_text entry.now) }
{
    out.push_str("entry ")?;
    put_unsigned(out, entry.who)?;
    out.push_str(" ")?;
    put_optional_long(out, entry.seq)?;
    out.push_str(" ")?;
    put_optional_long(out, entry.next)?;
    out.push_str(" ")
}

/// Appends the named and the given ids to `out`, each with a space after them.
fn put_ids(out: &mut String, entry: &Entry) -> Result<(), AllocError>
    ensures { OnOk result (string_bytes out.new ≡ string_bytes out.old ++ ids_text entry.now) }
{
    put_runs(out, &entry.named)?;
    out.push_str(" ")?;
    put_runs(out, &entry.given)?;
    out.push_str(" ")
}
