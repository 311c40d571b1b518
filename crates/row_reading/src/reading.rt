//! Reading all rows of a file.

ghost use Rattle.std.specs.Prelude.{◌≡◌, ◌≤◌, List, length, map, Ok, IfOk};
ghost use Rattle.words.specs.Reading.{Gives};
ghost use Rattle.row_types.specs.declared.row.StoredRow.{StoredRow as AStoredRow};
ghost use Rattle.row_types.specs.CellRef.{lent_cell};
ghost use Rattle.limits.specs.Limits.{most_rows};
ghost use Rattle.stored_rows.specs.Refusal.{is_memory};
ghost use Rattle.stored_rows.specs.Row.{read_row};
ghost use Rattle.stored_rows.specs.Rows.{rows_from};
ghost use Rattle.stored_rows.specs.Stored.{StoresRows, ReadsRows, AreRead};
ghost use Rattle.row_reading.specs.File.{file_size, rows_of};
ghost use Rattle.row_reading.specs.Checking.{HaveIds, rows_read, all_rows};
ghost use Rattle.row_reading.specs.Checked.{rows_left, row_in, AreReady, AreUnchecked};

use crate::counts::check_numbers;
use crate::law::reading_agrees;
use crate::row::{FileRow, own_cells, own_id, own_last};
use crate::unchecked::unchecked_rows;
use fields::Cells as Slot;
use lists::List;
use objects::Objects;
use records::Records;
use row_types::{CellRef, Cells, Columns, Row, RowList};
use std::alloc::{AllocError, Global};
use stored_rows::{RowRefusal, row_id, row_last};

/// The rows of the file for a table of these columns, in the order of the file, each with its id
/// and its last change. What the arguments are and which refusal comes: `check_file`.
/// Iceberg spec, "Row Lineage"; "Column Projection".
pub fn read_rows(
    alloc: Global,
    bytes: &[u8],
    columns: &Columns,
    first: Option<i64>,
    sequence: i64,
    told: Option<i64>,
) -> Result<RowList, RowRefusal>
    // The rows are those that the file stores, and what it stores is read.
    ensures found { IfOk result (λ rows. ReadsRows bytes.now columns.now first sequence rows) }
    ensures only { (stored : List AStoredRow) → StoresRows bytes.now columns.now stored
        → AreRead first told (file_size bytes.now stored)
        → Gives is_memory (λ rows. rows) result (Ok (rows_from first sequence 0 stored)) }
    // Which refusal comes.
    ensures exact { Gives is_memory (λ rows. rows) result
        (rows_of bytes.now columns.now first sequence told) }
{
    reading_agrees();
    read_all(alloc, bytes, columns, first, sequence, told)
}

/// The same, by the reading of the bytes alone.
fn read_all(
    alloc: Global,
    bytes: &[u8],
    columns: &Columns,
    first: Option<i64>,
    sequence: i64,
    told: Option<i64>,
) -> Result<RowList, RowRefusal>
    ensures exact { Gives is_memory (λ rows. rows) result
        (rows_of bytes.now columns.now first sequence told) }
{
    let (mut rows, told_rows) = unchecked_rows(alloc, bytes, columns)?;
    read_unchecked(alloc, &mut rows, told_rows, first, sequence, told)
}

/// The rows, if they pass all checks. `told_rows`: how many rows the blocks say that they have.
fn read_unchecked(
    alloc: Global,
    rows: &mut Objects<'_, Records<FileRow>>,
    told_rows: u64,
    first: Option<i64>,
    sequence: i64,
    told: Option<i64>,
) -> Result<RowList, RowRefusal>
    requires unchecked { AreUnchecked rows.old.reader.layout rows.old.rest rows.old.slot
        told_rows }
    ensures exact { Gives is_memory (λ list. list) result
        (all_rows (rows_left rows.old.reader.layout rows.old.rest) first sequence told) }
{
    match check_numbers(told_rows, first, told) {
        Ok(()) => each_row(alloc, rows, first, sequence),
        // A row that is wrong is refused first.
        Err(refusal) => {
            rows.check()?;
            Err(refusal)
        }
    }
}

/// The rows that are left, each read once, or the first refusal.
fn each_row(
    alloc: Global,
    rows: &mut Objects<'_, Records<FileRow>>,
    first: Option<i64>,
    sequence: i64,
) -> Result<RowList, RowRefusal>
    requires ready { AreReady rows.old.reader.layout rows.old.rest rows.old.slot }
    requires few { length (rows_left rows.old.reader.layout rows.old.rest).objects ≤ most_rows }
    requires ids { HaveIds first
        (length (rows_left rows.old.reader.layout rows.old.rest).objects) }
    ensures exact { Gives is_memory (λ list. list) result
        (rows_read first sequence (rows_left rows.old.reader.layout rows.old.rest)) }
{
    let mut list = List::new(alloc);
    while rows.advance()? {
        let position = list.len() as u32;
        let row = row_of(alloc, rows.slot(), first, sequence, position)?;
        list.push(row)?;
    }
    Ok(list)
}

/// The row in the slot, which is at this position, as one of its own.
fn row_of(
    alloc: Global,
    slot: &Slot<'_>,
    first: Option<i64>,
    sequence: i64,
    position: u32,
) -> Result<Row, AllocError>
    requires lineage { 2 ≤ length slot.now.wanted.items }
    requires id { HaveIds first position }
    ensures { IfOk result (λ row. row ≡ read_row first sequence position (row_in slot.now)) }
{
    Ok(Row {
        id: row_id(first, own_id(slot), position),
        last: row_last(own_last(slot), sequence),
        cells: cells_of(alloc, own_cells(slot))?,
    })
}

/// The cells, as cells of their own.
fn cells_of(alloc: Global, lent: &[CellRef<'_>]) -> Result<Cells, AllocError>
    ensures { IfOk result (λ cells. cells ≡ map lent_cell lent.now) }
{
    let mut cells = List::new(alloc);
    for cell in lent {
        cells.push(cell.to_cell(alloc)?)?;
    }
    Ok(cells)
}
