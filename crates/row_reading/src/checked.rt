//! The rows of a file that was checked whole, shown one after the other.

ghost use Rattle.std.specs.Prelude.{◌≡◌, ◌≤◌, ◌∷◌, List, [], length, map, Ok, IfOk, OnOk};
ghost use Rattle.std.specs.declared.option.Option.TheVariants.{None};
ghost use Rattle.std.specs.Bool.{OnTrue, OnFalse};
ghost use Rattle.words.specs.Reading.{Gives};
ghost use Rattle.row_types.specs.CellRef.{lent_cell};
ghost use Rattle.row_types.specs.declared.column.Column.{Column as AColumn};
ghost use Rattle.row_types.specs.declared.row.StoredRow.{StoredRow as AStoredRow};
ghost use Rattle.limits.specs.Limits.{most_rows};
ghost use Rattle.stored_rows.specs.Refusal.{is_memory};
ghost use Rattle.stored_rows.specs.Rows.{rows_from};
ghost use Rattle.stored_rows.specs.Stored.{StoresRows, ReadsRows, AreRead};
ghost use Rattle.row_reading.specs.File.{file_size, rows_of};
ghost use Rattle.row_reading.specs.Columns.{file_columns_of};
ghost use Rattle.row_reading.specs.Checking.{check_all_rows, AreRight, all_rows};
ghost use Rattle.row_reading.specs.Checked.{rows_left, AreReady, AreUnchecked};
ghost use Rattle.row_reading.specs.OwnRows.{own_rows_of, ReadsOwnRows};

use crate::counts::check_numbers;
use crate::law::reading_agrees;
use crate::row::{FileRow, own_cells, own_id, own_last};
use crate::unchecked::{own_unchecked_rows, unchecked_rows};
use objects::Objects;
use records::Records;
use row_types::{CellRef, Columns};
use std::alloc::Global;
use std::marker::Model;
use stored_rows::{RowRefusal, row_id, row_last};

/// The rows of a file, all of which were checked, shown one after the other. Their texts and bytes
/// are borrowed from the file, and showing one takes no memory. Contracts see the row that is
/// shown, and the list of those after it.
#[derive(Drop)]
pub struct CheckedRows<'a> {
    rows: Objects<'a, Records<FileRow>>,
    first: Option<i64>,
    sequence: i64,
    /// How many rows were shown.
    position: u32,
    /// The id and the last change of the row that is shown.
    id: Option<i64>,
    last: i64,
}

impl<'a> Model for CheckedRows<'a> {
    ghost use Rattle.row_reading.specs.Checked.{Shown, shown_of, IsChecked};

    ghost Value = { Shown };

    ghost view = { λ r. shown_of r.rows.reader.layout r.rows.rest r.rows.slot
        r.first r.sequence r.position r.id r.last };

    ghost invariant = { λ r.
        IsChecked r.rows.reader.layout r.rows.rest r.rows.slot r.first r.position };
}

impl<'a> CheckedRows<'a> {
    /// Shows the next row, and answers whether there was one. What is shown before the first call
    /// is no row of the file.
    pub fn advance(&mut self) -> bool
        ensures shown { OnTrue result (self.old.left ≡ self.new.row ∷ self.new.left) }
        ensures end { OnFalse result ((self.old.left ≡ []) × (self.new ≡ self.old)) }
    {
        if !self.rows.advance_known() {
            return false;
        }
        self.id = row_id(self.first, own_id(self.rows.slot()), self.position);
        self.last = row_last(own_last(self.rows.slot()), self.sequence);
        self.position += 1;
        true
    }

    /// The id of the row that is shown. None: it has none.
    pub fn id(&self) -> Option<i64>
        ensures { result ≡ self.now.row.id }
    {
        self.id
    }

    /// The sequence number of its last change.
    pub fn last(&self) -> i64
        ensures { result ≡ self.now.row.last }
    {
        self.last
    }

    /// Its cells, one for each column.
    pub fn cells(&self) -> &[CellRef<'a>]
        ensures { map lent_cell result.now ≡ self.now.row.cells }
    {
        own_cells(self.rows.slot())
    }
}

/// Checks the file whole, for a table of these columns: its rows can be shown. `first`: the file's
/// first row id, None if it has none. `sequence`: its data sequence number. `told`: how many rows
/// the caller says that it has, None if it doesn't say.
///
/// The order of the refusals: those of the container and of the schema; `MissingColumn`; `Kind` of a
/// type; `Limit` of the rows; then, block by block, for each row its value and then `Kind` of a null,
/// and `Rest`; `RecordCount`; `IdsSpent`. docs/FORMATS.md, "Data files".
pub fn check_file<'a>(
    alloc: Global,
    bytes: &'a [u8],
    columns: &'a Columns,
    first: Option<i64>,
    sequence: i64,
    told: Option<i64>,
) -> Result<CheckedRows<'a>, RowRefusal>
    // The rows are those that the file stores, and what it stores is shown.
    ensures found { IfOk result (λ rows.
        ReadsRows bytes.now columns.now first sequence rows.left) }
    ensures only { (stored : List AStoredRow) → StoresRows bytes.now columns.now stored
        → AreRead first told (file_size bytes.now stored)
        → Gives is_memory (λ rows. rows.left) result (Ok (rows_from first sequence 0 stored)) }
    // Which refusal comes.
    ensures exact { Gives is_memory (λ rows. rows.left) result
        (rows_of bytes.now columns.now first sequence told) }
{
    reading_agrees();
    check_all(alloc, bytes, columns, first, sequence, told)
}

/// Checks the file whole, for the columns of its own schema: those of `file_columns`. `first`,
/// `sequence`: as for `check_file`. The file is opened once.
///
/// The order of the refusals: those of `file_columns`; then those of `check_file`.
pub fn check_own_rows<'a>(
    alloc: Global,
    bytes: &'a [u8],
    first: Option<i64>,
    sequence: i64,
) -> Result<CheckedRows<'a>, RowRefusal>
    // The rows are those that the file stores, and what it stores is shown.
    ensures found { IfOk result (λ rows. ReadsOwnRows bytes.now first sequence rows.left) }
    ensures only { (columns : List AColumn) (stored : List AStoredRow)
        → file_columns_of bytes.now ≡ Ok columns → StoresRows bytes.now columns stored
        → AreRead first None (file_size bytes.now stored)
        → Gives is_memory (λ rows. rows.left) result (Ok (rows_from first sequence 0 stored)) }
    // Which refusal comes.
    ensures exact { Gives is_memory (λ rows. rows.left) result
        (own_rows_of bytes.now first sequence) }
    // No more than a file may have.
    ensures few { IfOk result (λ rows. length rows.left ≤ most_rows) }
{
    reading_agrees();
    check_own(alloc, bytes, first, sequence)
}

/// What `check_file` answers.
fn check_all<'a>(
    alloc: Global,
    bytes: &'a [u8],
    columns: &Columns,
    first: Option<i64>,
    sequence: i64,
    told: Option<i64>,
) -> Result<CheckedRows<'a>, RowRefusal>
    ensures exact { Gives is_memory (λ rows. rows.left) result
        (rows_of bytes.now columns.now first sequence told) }
{
    let (rows, told_rows) = unchecked_rows(alloc, bytes, columns)?;
    show_checked(rows, told_rows, first, sequence, told)
}

/// What `check_own_rows` answers.
fn check_own<'a>(
    alloc: Global,
    bytes: &'a [u8],
    first: Option<i64>,
    sequence: i64,
) -> Result<CheckedRows<'a>, RowRefusal>
    ensures exact { Gives is_memory (λ rows. rows.left) result
        (own_rows_of bytes.now first sequence) }
    ensures few { IfOk result (λ rows. length rows.left ≤ most_rows) }
{
    let (rows, told_rows) = own_unchecked_rows(alloc, bytes)?;
    show_checked(rows, told_rows, first, sequence, None)
}

/// The rows, if they pass all checks. `told_rows`: how many rows the blocks say that they have.
fn show_checked<'a>(
    mut rows: Objects<'a, Records<FileRow>>,
    told_rows: u64,
    first: Option<i64>,
    sequence: i64,
    told: Option<i64>,
) -> Result<CheckedRows<'a>, RowRefusal>
    requires unchecked { AreUnchecked rows.reader.layout rows.rest rows.slot told_rows }
    ensures exact { Gives is_memory (λ rows. rows.left) result
        (all_rows (rows_left rows.entry.reader.layout rows.entry.rest) first sequence told) }
    ensures few { IfOk result (λ rows. length rows.left ≤ most_rows) }
{
    check_all_rows(&mut rows, told_rows, first, told)?;
    Ok(CheckedRows {
        rows,
        first,
        sequence,
        position: 0,
        id: None,
        last: sequence,
    })
}

/// Whether all rows of the file are right, as many as the caller says, and with ids that end in
/// time. None of them is shown then.
fn check_all_rows<'a>(
    rows: &mut Objects<'a, Records<FileRow>>,
    told_rows: u64,
    first: Option<i64>,
    told: Option<i64>,
) -> Result<(), RowRefusal>
    requires unchecked { AreUnchecked rows.old.reader.layout rows.old.rest rows.old.slot
        told_rows }
    ensures exact { result
        ≡ check_all_rows (rows_left rows.old.reader.layout rows.old.rest) first told }
    ensures ready { AreReady rows.new.reader.layout rows.new.rest rows.new.slot }
    ensures left { OnOk result (rows_left rows.new.reader.layout rows.new.rest
        ≡ rows_left rows.old.reader.layout rows.old.rest) }
    ensures right { OnOk result (AreRight (rows_left rows.new.reader.layout rows.new.rest) first) }
{
    rows.check()?;
    check_numbers(told_rows, first, told)?;
    rows.restart();
    Ok(())
}
