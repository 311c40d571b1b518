//! Histories by hand, and what is said of them.

use crate::rows::all_made;
use crate::tables::{ONE, columns_of};
use history_log::{HistoryRefusal, Rule, audit};
use history_types::{Entries, Entry, Request, Run, Runs, State};
use lists::List;
use row_types::{Cell, CellRows, Cells, Columns, RowMap, Unnamed};
use std::alloc::{AllocError, Global};
use std::test::*;

/// The largest i64.
const MOST: i64 = i64::MAX;

/// What an entry asks; of an append how many rows.
#[derive(Clone, Copy)]
enum Asks {
    Append(i64),
    Compact,
    Upgrade,
}

use Asks::{Append, Compact, Upgrade};

/// Ids from the first number on, as many as the second says.
type Ids = (i64, i64);

/// What an entry has: what it asks, its sequence number, the ids that it names, those that it
/// gives, and the next one.
type Line = (
    Asks,
    Option<i64>,
    &'static [Ids],
    &'static [Ids],
    Option<i64>,
);

/// What a state has: the version, the next id, the sequence number, the last changes of the rows
/// without ids, and the ids and last changes of the others.
type Begin = (u8, Option<i64>, i64, &'static [i64], &'static [(i64, i64)]);

/// What an audit says.
enum Verdict {
    /// The history is legal. Behind it stand the version, how many rows there are with ids and
    /// without, the next id, and the sequence number.
    Legal(u8, usize, usize, Option<i64>, i64),
    /// The history is legal. The rows behind it have these ids, last changes and numbers.
    Rows(&'static [(i64, i64, i64)]),
    /// The first entry that breaks a rule, and the first rule that it breaks.
    Broken(u64, Rule),
}

use Verdict::{Broken, Legal, Rows};

/// A history, and what is said of it.
type Case = (Begin, &'static [Line], Verdict);

/// A new table of version 3.
const NEW: Begin = (3, Some(0), 0, &[], &[]);

/// Its first two rows.
const FIRST: Line = (Append(2), Some(1), &[], &[(0, 2)], Some(2));

/// A table of version 2 with one row.
const OLD: Begin = (2, None, 2, &[1], &[]);

/// The entry that makes it one of version 3.
const UPGRADE: Line = (Upgrade, None, &[], &[], Some(0));

/// The row gets an id, and a row is added.
const NAMED: Line = (Append(1), Some(3), &[(0, 1)], &[(1, 1)], Some(2));

/// A row of one cell.
fn cells_of(alloc: Global, number: i64) -> Result<Cells, AllocError> {
    let mut cells = List::new(alloc);
    cells.push(Cell::Num(number))?;
    Ok(cells)
}

/// So many rows, with the numbers from 0 on.
fn rows_of(alloc: Global, count: i64) -> Result<CellRows, AllocError> {
    let mut rows = List::new(alloc);
    for number in 0..count {
        rows.push(cells_of(alloc, number)?)?;
    }
    Ok(rows)
}

fn runs_of(alloc: Global, list: &[Ids]) -> Result<Runs, AllocError> {
    let mut runs = List::new(alloc);
    for ids in list {
        runs.push(Run {
            first: ids.0,
            count: ids.1,
        })?;
    }
    Ok(runs)
}

fn request_of(alloc: Global, asks: Asks) -> Result<Request, AllocError> {
    match asks {
        Append(count) => Ok(Request::Append(rows_of(alloc, count)?)),
        Compact => Ok(Request::Compact(List::new(alloc))),
        Upgrade => Ok(Request::Upgrade),
    }
}

fn entry_of(alloc: Global, line: &Line) -> Result<Entry, AllocError> {
    let (asks, seq, named, given, next) = *line;
    let named = runs_of(alloc, named)?;
    let given = runs_of(alloc, given)?;
    let request = request_of(alloc, asks)?;
    Ok(Entry {
        who: 1,
        request,
        seq,
        named,
        given,
        next,
    })
}

fn entries_of(alloc: Global, lines: &[Line]) -> Result<Entries, AllocError> {
    let mut entries = List::new(alloc);
    for line in lines {
        entries.push(entry_of(alloc, line)?)?;
    }
    Ok(entries)
}

/// Rows without ids, of these last changes; the number of each is its last change.
fn unnamed_of(alloc: Global, lasts: &[i64]) -> Result<Unnamed, AllocError> {
    let mut unnamed = List::new(alloc);
    for last in lasts {
        unnamed.push((*last, cells_of(alloc, *last)?))?;
    }
    Ok(unnamed)
}

/// Rows of these ids and last changes; the number of each is its id.
fn named_of(alloc: Global, ids: &[(i64, i64)]) -> Result<RowMap, AllocError> {
    let mut rows = RowMap::new(alloc);
    for row in ids {
        rows.insert(row.0, row.1, cells_of(alloc, row.0)?)?;
    }
    Ok(rows)
}

fn state_of(alloc: Global, begin: &Begin) -> Result<State, AllocError> {
    let (version, next, seq, lasts, ids) = *begin;
    let rows = named_of(alloc, ids)?;
    let unnamed = unnamed_of(alloc, lasts)?;
    Ok(State {
        version,
        unnamed,
        rows,
        next,
        seq,
    })
}

/// What is said of a history.
fn audited(
    alloc: Global,
    columns: &Columns,
    begin: &Begin,
    lines: &[Line],
) -> Result<State, HistoryRefusal> {
    let entries = entries_of(alloc, lines)?;
    let start = state_of(alloc, begin)?;
    audit(alloc, columns, start, &entries)
}

/// Whether the row has this last change, and one cell with this number.
fn is_row(row: &(i64, Cells), last: i64, number: i64) -> bool {
    match row.1.get(0) {
        Some(Cell::Num(found)) => row.0 == last && *found == number && row.1.len() == 1,
        _ => false,
    }
}

/// Whether the rows have these ids, last changes and numbers.
fn are_rows(rows: &RowMap, wanted: &[(i64, i64, i64)]) -> bool {
    let mut place = 0;
    for (id, row) in rows.iter() {
        if place >= wanted.len() {
            return false;
        }
        if wanted[place].0 != *id {
            return false;
        }
        if !is_row(row, wanted[place].1, wanted[place].2) {
            return false;
        }
        place += 1;
    }
    place == wanted.len()
}

/// Whether the audit says this.
fn is_said(audited: &Result<State, HistoryRefusal>, verdict: &Verdict) -> bool {
    match (audited, verdict) {
        (Ok(state), Legal(version, named, unnamed, next, seq)) => {
            state.version == *version
                && state.rows.len() == *named
                && state.unnamed.len() == *unnamed
                && state.next == *next
                && state.seq == *seq
        }
        (Ok(state), Rows(wanted)) => are_rows(&state.rows, wanted),
        (Err(HistoryRefusal::Illegal { entry, rule }), Broken(number, broken)) => {
            *entry == *number && *rule == *broken
        }
        _ => false,
    }
}

/// The number of the first history of which something else is said, counted from 0.
fn first_wrong(alloc: Global, cases: &[Case]) -> Result<Option<usize>, AllocError> {
    let columns = columns_of(alloc, &ONE)?;
    Ok(first_wrong_of(alloc, &columns, cases))
}

/// The same for these columns.
fn first_wrong_of(alloc: Global, columns: &Columns, cases: &[Case]) -> Option<usize> {
    for number in 0..cases.len() {
        if !is_case(alloc, columns, &cases[number]) {
            return Some(number);
        }
    }
    None
}

/// Whether the audit of the history says what the case says.
fn is_case(alloc: Global, columns: &Columns, case: &Case) -> bool {
    let audited = audited(alloc, columns, &case.0, case.1);
    is_said(&audited, &case.2)
}

/// Histories, one of each kind. Many more are computed from the definitions in `lineage_model`
/// (specs/Examples.antt).
static HISTORIES: [Case; 7] = [
    // Two appends.
    (
        NEW,
        &[FIRST, (Append(3), Some(2), &[], &[(2, 3)], Some(5))],
        Legal(3, 5, 0, Some(5), 2),
    ),
    // A compaction behind an upgrade and an append that names a row.
    (
        OLD,
        &[UPGRADE, NAMED, (Compact, Some(4), &[], &[], Some(2))],
        Legal(3, 2, 0, Some(2), 4),
    ),
    // A rule that is broken by the second entry.
    (
        OLD,
        &[UPGRADE, (Compact, Some(3), &[(0, 1)], &[], Some(1))],
        Broken(2, Rule::Unnamed),
    ),
    // A start that no history has.
    ((1, None, 0, &[], &[]), &[], Broken(0, Rule::Start)),
    // A run of more ids than there is time for.
    (
        NEW,
        &[(Append(1), Some(1), &[], &[(0, MOST), (0, MOST)], Some(MOST))],
        Broken(1, Rule::Given),
    ),
    // Runs of none.
    (
        NEW,
        &[(Append(1), Some(1), &[], &[(7, 0), (0, 1), (5, -3)], Some(1))],
        Legal(3, 1, 0, Some(1), 1),
    ),
    // A row that is named keeps its cells and its last change. Behind it stands a row that is added.
    (
        OLD,
        &[UPGRADE, (Append(1), Some(3), &[(4, 1)], &[(6, 1)], Some(7))],
        Rows(&[(4, 1, 1), (6, 3, 0)]),
    ),
];

#[test]
fn a_history_is_legal_up_to_its_first_fault(rt: HostRuntime) {
    all_made(&rt, first_wrong(rt.alloc(), &HISTORIES));
}
