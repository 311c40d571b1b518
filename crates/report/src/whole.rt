//! A report with all its entries.

ghost use Rattle.std.specs.Prelude.{◌≡◌, IfOk};
ghost use Rattle.words.specs.Reading.{Gives};
ghost use Rattle.report.specs.Refusal.{is_memory_of_report};
ghost use Rattle.report.specs.Fits.{FitsReport};
ghost use Rattle.report.specs.Report.{report_of};

use crate::reading::read_entries;
use crate::refusal::ReportRefusal;
use history_log::Taker;
use history_types::{Entries, Entry, State};
use lists::List;
use row_types::Columns;
use std::alloc::{AllocError, Global};

/// A history as its report tells it.
#[derive(Drop)]
pub struct Report {
    /// The columns of the table.
    pub columns: Columns,
    /// The state that the history begins with.
    pub start: State,
    /// What was committed, in order.
    pub entries: Entries,
}

/// The state that a history begins with, and its entries so far.
#[derive(Drop)]
pub struct History {
    pub start: State,
    pub entries: Entries,
}

/// The report that the bytes are, or the first line that is wrong. docs/FORMATS.md, "Reports".
pub fn read_report(alloc: Global, bytes: &[u8]) -> Result<Report, ReportRefusal>
    ensures exact { Gives is_memory_of_report (λ report. report) result (report_of bytes.now) }
    // Each entry that is read fits the columns that are read.
    ensures fits { IfOk result FitsReport }
{
    let (columns, history) = read_entries::<History>(alloc, bytes)?;
    Ok(Report {
        columns,
        start: history.start,
        entries: history.entries,
    })
}

impl Taker for History {
    ghost use Rattle.std.specs.Prelude.{All, List};
    ghost use Rattle.history_types.specs.Fits.{FitsEntry};
    ghost use Rattle.report.specs.History.{history_begun, history_more};

    ghost begun = { history_begun };

    ghost more = { history_more };

    ghost fits = { λ columns history. All (FitsEntry columns) history.entries };

    fn begin(alloc: Global, start: State) -> History {
        History {
            start,
            entries: List::new(alloc),
        }
    }

    fn take(self, entry: Entry) -> Result<History, AllocError> {
        let History { start, mut entries } = self;
        entries.push(entry)?;
        Ok(History { start, entries })
    }
}
