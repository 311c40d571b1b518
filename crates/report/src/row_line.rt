//! The line of a row.

ghost use Rattle.std.specs.Prelude.{◌≡◌, ◌≤◌, length, IfOk, OnOk};
ghost use Rattle.words.specs.Reading.{Gives};
ghost use Rattle.report.specs.Refusal.{is_memory};
ghost use Rattle.report.specs.Rows.{row_numbers_of, row_cells_of, row_of};

use crate::refusal::LineRefusal;
use crate::start_line::word_and_gap;
use pieces::{PieceRefusal, take_end, take_gap, take_long, take_optional_long};
use row_pred::take_cells;
use row_types::{Cells, Columns, Row};
use std::alloc::Global;

/// The row that the line tells.
#[tactic(auto, unfolding(crate::specs::Rows::row_of))]
pub fn row_line(alloc: Global, line: &str, columns: &Columns) -> Result<Row, LineRefusal>
    ensures { Gives is_memory (λ row. row) result (row_of columns.now line.now) }
{
    let (id, last, start) = numbers(line)?;
    let cells = row_cells(alloc, line, start, columns)?;
    Ok(Row { id, last, cells })
}

/// The cells from the place to the end of the line.
fn row_cells(
    alloc: Global,
    line: &str,
    start: usize,
    columns: &Columns,
) -> Result<Cells, LineRefusal>
    requires { start ≤ length line.now }
    ensures { Gives is_memory (λ cells. cells) result (row_cells_of columns.now line.now start) }
{
    let (cells, after) = take_cells(alloc, line, start, columns.as_slice())?;
    take_end(line, after)?;
    Ok(cells)
}

/// The row's id and its last change, and where its cells begin.
fn numbers(line: &str) -> Result<(Option<i64>, i64, usize), PieceRefusal>
    ensures exact { result ≡ row_numbers_of line.now }
    ensures within { IfOk result (λ read. read.2 ≤ length line.now) }
{
    let start = word_and_gap("row", line)?;
    let (id, after) = take_optional_long(line, start)?;
    let start = take_gap(line, after)?;
    let (last, after) = take_long(line, start)?;
    let start = take_gap(line, after)?;
    Ok((id, last, start))
}
