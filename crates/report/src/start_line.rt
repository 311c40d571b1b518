//! The line of the state at the start, without its rows.

ghost use Rattle.std.specs.Prelude.{◌≡◌, ◌≤◌, codes, length, IfOk};
ghost use Rattle.report.specs.Start.{version_at, word_and_gap as behind_word, front_of, rest_of, numbers_of, start_of};

use crate::refusal::LineRefusal;
use history_types::State;
use lists::List;
use pieces::{
    PieceRefusal, take_end, take_gap, take_long, take_optional_long, take_unsigned, take_word,
};
use row_types::RowMap;
use std::alloc::Global;

/// The state that the line tells: its version, its sequence number and its next id. It has no rows.
#[tactic(auto, unfolding(crate::specs::Start::start_of))]
pub fn start_line(alloc: Global, line: &str) -> Result<State, LineRefusal>
    ensures { result ≡ start_of line.now }
{
    let (version, seq, next) = numbers(line)?;
    Ok(State {
        version,
        unnamed: List::new(alloc),
        rows: RowMap::new(alloc),
        next,
        seq,
    })
}

/// The place behind the word that the line begins with, and the gap after it.
pub fn word_and_gap(word: &str, line: &str) -> Result<usize, PieceRefusal>
    ensures exact { result ≡ behind_word word.now line.now }
    ensures within { IfOk result (λ start. start ≤ length line.now) }
{
    let after = take_word(line, 0, word)?;
    take_gap(line, after)
}

/// The numbers of the line.
fn numbers(line: &str) -> Result<(u8, i64, Option<i64>), PieceRefusal>
    ensures { result ≡ numbers_of line.now }
{
    let (version, start) = front(line)?;
    let (seq, next) = rest(line, start)?;
    Ok((version, seq, next))
}

/// The version of the line, and where what follows it begins.
fn front(line: &str) -> Result<(u8, usize), PieceRefusal>
    ensures exact { result ≡ front_of line.now }
    ensures within { IfOk result (λ read. read.1 ≤ length line.now) }
{
    let start = word_and_gap("start", line)?;
    let (version, after) = take_version(line, start)?;
    let start = take_gap(line, after)?;
    Ok((version, start))
}

/// The sequence number and the next id, which end the line.
fn rest(line: &str, start: usize) -> Result<(i64, Option<i64>), PieceRefusal>
    requires { start ≤ length line.now }
    ensures { result ≡ rest_of line.now start }
{
    let (seq, after) = take_long(line, start)?;
    let start = take_gap(line, after)?;
    let (next, after) = take_optional_long(line, start)?;
    take_end(line, after)?;
    Ok((seq, next))
}

/// The number of 8 bits at the place, and the place after it.
fn take_version(line: &str, place: usize) -> Result<(u8, usize), PieceRefusal>
    requires { place ≤ length line.now }
    ensures exact { result ≡ version_at line.now place }
    ensures within { IfOk result (λ read. read.1 ≤ length line.now) }
{
    let (version, after) = take_unsigned(line, place)?;
    match u8::try_from(version) {
        Ok(version) => Ok((version, after)),
        Err(_) => Err(PieceRefusal::Syntax {
            place: place as u64,
        }),
    }
}
