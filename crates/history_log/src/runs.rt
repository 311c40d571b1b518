//! Runs of ids in a text.

ghost use Rattle.std.specs.Prelude.{◌≡◌, ◌≤◌, ◌<◌, ◌++◌, ◌+ℤ◌, false, length, IfOk, OnOk};
ghost use Rattle.std.specs.List.{flat_map};
ghost use Rattle.std.specs.Ordering.{int_eq};
ghost use Rattle.std.specs.String.{string_bytes};
ghost use Rattle.words.specs.Reading.{Gives};
ghost use Rattle.history_types.specs.Fits.{IsRun, AreRuns};
ghost use Rattle.pieces.specs.Refusal.{is_memory as is_memory_of_piece};
ghost use Rattle.history_log.specs.Runs.{run_text, next_run_text, runs_text, goes_on, may_grow, stop_of, stop_past, first_at, plus_at, run_at, runs_at};

use history_types::{Run, Runs};
use lists::List;
use pieces::{
    Passed, PieceRefusal, is_absent, put_long, stands, take_byte, take_count, take_signed,
};
use std::alloc::{AllocError, Global};

/// The runs at `place`, a byte offset from 0, and the place after them.
pub fn take_runs(alloc: Global, text: &str, place: usize) -> Result<(Runs, usize), PieceRefusal>
    requires { place ≤ length text.now }
    ensures exact { Gives is_memory_of_piece (λ read. read) result (runs_at text.now place) }
    ensures within { IfOk result (λ read. (place ≤ read.1) × (read.1 ≤ length text.now)) }
    // What is read are runs in their one spelling.
    ensures fits { IfOk result (λ read. AreRuns read.0) }
{
    if is_absent(text.as_bytes(), place) {
        return Ok((List::new(alloc), place + 1));
    }
    let mut runs = List::new(alloc);
    let mut at = place;
    loop {
        let (run, after) = take_run(text, at, runs.as_slice())?;
        runs.push(run)?;
        if !stands(text.as_bytes(), after, b',') {
            return Ok((runs, after));
        }
        at = after + 1;
    }
}

/// Appends the text of the runs to `out`.
pub fn put_runs(out: &mut String, runs: &Runs) -> Result<(), AllocError>
    ensures { OnOk result (string_bytes out.new ≡ string_bytes out.old ++ runs_text runs.now) }
{
    let Some((first, others)) = runs.as_slice().split_first() else {
        return out.push_str("-");
    };
    put_run(out, first)?;
    put_others(out, others)
}

/// The run after those that were read.
fn take_run(text: &str, place: usize, read: &[Run]) -> Result<(Run, usize), PieceRefusal>
    requires { place ≤ length text.now }
    ensures exact { result ≡ run_at text.now read.now place }
    ensures within { IfOk result (λ run. (place ≤ run.1) × (run.1 ≤ length text.now)) }
    ensures fits { IfOk result (λ run. IsRun run.0) }
    ensures apart { IfOk result (λ run. goes_on read.now run.0.first ≡ false) }
{
    let (first, after) = take_first(text, place, read)?;
    let start = take_plus(text, after, read, first)?;
    let (count, end) = take_count(text, start)?;
    Ok((Run { first, count }, end))
}

/// The first id of a run after those that were read.
fn take_first(text: &str, place: usize, read: &[Run]) -> Result<(i64, usize), PieceRefusal>
    requires { place ≤ length text.now }
    ensures exact { result ≡ first_at text.now read.now place }
    ensures within { IfOk result (λ first. (place ≤ first.1) × (first.1 ≤ length text.now)) }
{
    match take_signed(text, place)? {
        Ok(first) => Ok(first),
        Err(passed) => Err(PieceRefusal::Syntax {
            place: stop_past(read, passed) as u64,
        }),
    }
}

/// Where a first id past 64 bits stops: at the digit that passes them, or where the id before that
/// digit does, if the run before goes on at it.
fn stop_past(read: &[Run], passed: Passed) -> usize
    ensures { result ≡ stop_past read.now passed }
{
    if goes_on(read, passed.front) {
        stop_of(passed.front, passed.place)
    } else {
        passed.place
    }
}

/// The place after the plus sign after a first id; no run begins where the one before it goes on.
fn take_plus(text: &str, place: usize, read: &[Run], first: i64) -> Result<usize, PieceRefusal>
    requires { place ≤ length text.now }
    ensures exact { result ≡ plus_at read.now first text.now place }
    ensures within { IfOk result (λ start. (place < start) × (start ≤ length text.now)) }
    ensures apart { IfOk result (λ start. goes_on read.now first ≡ false) }
{
    if goes_on(read, first) {
        return Err(PieceRefusal::Syntax {
            place: stop_of(first, place) as u64,
        });
    }
    take_byte(text, place, b'+')
}

/// Whether the last of the runs ends where the id follows.
fn goes_on(runs: &[Run], first: i64) -> bool
    ensures { result ≡ goes_on runs.now first }
{
    match runs.last() {
        None => false,
        Some(run) => ends_before(run, first),
    }
}

/// Whether the run ends where the id follows.
fn ends_before(run: &Run, first: i64) -> bool
    ensures { result ≡ int_eq (run.now.first +ℤ run.now.count) first }
{
    run.first.checked_add(run.count) == Some(first)
}

/// Where a first id stops at which the run before goes on: at the byte after it, or at its last
/// digit, where no digit may follow.
fn stop_of(first: i64, after: usize) -> usize
    ensures { result ≡ stop_of first after }
{
    if may_grow(first) {
        after
    } else {
        after.saturating_sub(1)
    }
}

/// Whether another digit may follow the id, which is of 64 bits then, too.
fn may_grow(first: i64) -> bool
    ensures { result ≡ may_grow first }
{
    first != 0 && -922_337_203_685_477_581 < first && first < 922_337_203_685_477_581
}

/// Appends the text of the run to `out`.
fn put_run(out: &mut String, run: &Run) -> Result<(), AllocError>
    ensures { OnOk result (string_bytes out.new ≡ string_bytes out.old ++ run_text run.now) }
{
    put_long(out, run.first)?;
    out.push_str("+")?;
    put_long(out, run.count)
}

/// Puts the text of the runs after another one.
fn put_others(out: &mut String, runs: &[Run]) -> Result<(), AllocError>
    ensures { OnOk result (string_bytes out.new
        ≡ string_bytes out.old ++ flat_map next_run_text runs.now) }
{
    for run in runs {
        out.push_str(",")?;
        put_run(out, run)?;
    }
    Ok(())
}
