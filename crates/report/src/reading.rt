//! All lines of a report.

ghost use Rattle.std.specs.Prelude.{◌≡◌, IfOk};
ghost use Rattle.words.specs.Reading.{Gives, map_refusal, map_value};
ghost use Rattle.report.specs.Refusal.{is_memory_of_report};
ghost use Rattle.report.specs.Fits.{FitsPart};
ghost use Rattle.report.specs.Taken.{part_read, ended as ended_at, taken_by, part_behind};
ghost use Rattle.report.specs.Report.{at_line, report_of};

use crate::refusal::{LineRefusal, ReportRefusal};
use crate::stage::{Part, read_line};
use history_log::Taker;
use row_types::Columns;
use std::alloc::Global;

/// The columns of the report that the bytes are, and what took its entries, one by one; or the
/// first line that is wrong. docs/FORMATS.md, "Reports".
pub fn read_entries<T: Taker>(alloc: Global, bytes: &[u8]) -> Result<(Columns, T), ReportRefusal>
    ensures exact { Gives is_memory_of_report (λ read. read) result
        (map_value (taken_by T.begun T.more) (report_of bytes.now)) }
    // Each entry that was taken fits the columns.
    ensures fits { IfOk result (λ read. T.fits read.0 read.1) }
{
    let mut number = 1;
    let mut part: Part<T> = Part::Nothing;
    let mut start = 0;
    for at in 0..bytes.len() {
        if bytes[at] != b'\n' {
            continue;
        }
        part = numbered(alloc, number, part, &bytes[start..at])?;
        number += 1;
        start = at + 1;
    }
    finished(number, part, &bytes[start..bytes.len()])
}

/// What was read with one line more, which has this number.
fn numbered<T: Taker>(
    alloc: Global,
    number: u64,
    part: Part<T>,
    line: &[u8],
) -> Result<Part<T>, ReportRefusal>
    ensures exact { Gives is_memory_of_report (λ part. part) result
        (map_refusal (at_line number) (part_read T.begun T.more part line.now)) }
    ensures fits { FitsPart T.fits part → IfOk result (FitsPart T.fits) }
{
    match read_line(alloc, part, line) {
        Ok(part) => Ok(part),
        Err(LineRefusal::Wrong) => Err(ReportRefusal::Line { line: number }),
        Err(LineRefusal::Memory) => Err(ReportRefusal::Memory),
    }
}

/// What was read, where the end of the report was and no line is begun.
fn finished<T: Taker>(
    number: u64,
    part: Part<T>,
    rest: &[u8],
) -> Result<(Columns, T), ReportRefusal>
    ensures exact { result ≡ ended_at number part rest.now }
    ensures fits { FitsPart T.fits part → IfOk result (λ read. T.fits read.0 read.1) }
{
    match part {
        Part::Ended(columns, taker) if rest.is_empty() => Ok((columns, taker)),
        _ => Err(ReportRefusal::Line { line: number }),
    }
}
