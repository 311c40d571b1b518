//! Reports as they are printed.

ghost use Rattle.std.specs.Prelude.{◌≡◌, ◌++◌, All, List, [], codes, decimal, IfOk, OnOk, Ok};
ghost use Rattle.std.specs.Fmt.{signed_decimal};
ghost use Rattle.std.specs.List.{flat_map};
ghost use Rattle.std.specs.String.{string_bytes};
ghost use Rattle.history_types.specs.declared.state.State.{State as AState};
ghost use Rattle.row_types.specs.KindWord.{kind_text};
ghost use Rattle.row_types.specs.Columns.{IsColumns};
ghost use Rattle.history_log.specs.Entry.{entry_text};
ghost use Rattle.report.specs.Schema.{schema_of};
ghost use Rattle.report.specs.Report.{report_of};
ghost use Rattle.report.specs.Printed.{required_text, column_text, next_column_text, schema_text, start_text, row_text, Told, lined, report_text, IsTold, IsReadBack, start_told};

use avro_wire::Text;
use history_log::print_entry;
use history_types::{Entries, Entry};
use pieces::{put_literal, put_long, put_optional_long, put_unsigned};
use row_pred::put_cells;
use row_types::{Column, Columns, Row, RowList};
use std::alloc::{AllocError, Global};

/// The text of the report that tells the columns, the state at the start by its version, its
/// sequence number, its next id and its rows, and the entries. docs/FORMATS.md, "Reports".
pub fn print_report(
    alloc: Global,
    columns: &Columns,
    version: u8,
    seq: i64,
    next: Option<i64>,
    rows: &RowList,
    entries: &Entries,
) -> Result<Text, AllocError>
    ensures text { IfOk result (λ text. text ≡ report_text
        (record {
          columns = columns.now;
          version = version;
          seq = seq;
          next = next;
          rows = rows.now;
          entries = entries.now;
        })) }
    // What is told is read again.
    ensures reads_back { IfOk result (λ text. (start : AState)
        → IsTold (record {
          columns = columns.now;
          version = version;
          seq = seq;
          next = next;
          rows = rows.now;
          entries = entries.now;
        })
        → start_told (record {
          columns = columns.now;
          version = version;
          seq = seq;
          next = next;
          rows = rows.now;
          entries = entries.now;
        }) ≡ Ok start
        → report_of text ≡ Ok (record {
          columns = columns.now;
          start = start;
          entries = entries.now;
        })) }
{
    let mut out = String::new(alloc);
    put_front(&mut out, columns, version, seq, next)?;
    put_rows(&mut out, rows.as_slice())?;
    put_entries(alloc, &mut out, entries.as_slice())?;
    out.push_str("end\n")?;
    Ok(Text::from_string(out))
}

/// The line of the columns, without LF.
pub fn print_columns(alloc: Global, columns: &Columns) -> Result<Text, AllocError>
    ensures text { IfOk result (λ text. text ≡ schema_text columns.now) }
    // What is printed of the columns is read as them.
    ensures reads_back { IfOk result (λ text. schema_of text ≡ Ok columns.now) }
{
    let mut out = String::new(alloc);
    put_schema(&mut out, columns.as_slice())?;
    Ok(Text::from_string(out))
}

/// Puts the lines of the columns and of the state at the start behind `out`.
fn put_front(
    out: &mut String,
    columns: &Columns,
    version: u8,
    seq: i64,
    next: Option<i64>,
) -> Result<(), AllocError>
    ensures { OnOk result (string_bytes out.new ≡ string_bytes out.old
        ++ (lined (schema_text columns.now) ++ lined (start_text version seq next))) }
{
    put_schema(out, columns.as_slice())?;
    out.push_str("\n")?;
    put_start(out, version, seq, next)?;
    out.push_str("\n")
}

/// Puts the line of the columns behind `out`, without LF.
fn put_schema(out: &mut String, columns: &[Column]) -> Result<(), AllocError>
    ensures { OnOk result (string_bytes out.new
        ≡ string_bytes out.old ++ schema_text columns.now) }
{
    out.push_str("schema")?;
    put_columns(out, columns)
}

/// Puts the columns behind `out`, each behind a space.
fn put_columns(out: &mut String, columns: &[Column]) -> Result<(), AllocError>
    ensures { OnOk result (string_bytes out.new
        ≡ string_bytes out.old ++ flat_map next_column_text columns.now) }
{
    for column in columns {
        out.push_str(" ")?;
        put_column(out, column)?;
    }
    Ok(())
}

/// Puts the column behind `out`.
fn put_column(out: &mut String, column: &Column) -> Result<(), AllocError>
    ensures { OnOk result (string_bytes out.new
        ≡ string_bytes out.old ++ column_text column.now) }
{
    put_id_and_kind(out, column)?;
    out.push_str(null_word(column.required))?;
    out.push_str(":")?;
    put_literal(out, column.name.as_str())
}

/// Puts the id and the kind of the column behind `out`, each with a colon behind it.
fn put_id_and_kind(out: &mut String, column: &Column) -> Result<(), AllocError>
    ensures { OnOk result (string_bytes out.new ≡ string_bytes out.old
        ++ (signed_decimal column.now.id
        ++ (codes ":" ++ (kind_text column.now.kind ++ codes ":")))) }
{
    put_long(out, i64::from(column.id))?;
    out.push_str(":")?;
    out.push_str(column.kind.word())?;
    out.push_str(":")
}

/// The word that says whether a column is required.
fn null_word(required: bool) -> &'static str
    ensures { result.now ≡ required_text required }
{
    if required { "required" } else { "optional" }
}

/// Puts the line of the state at the start behind `out`, without LF.
fn put_start(out: &mut String, version: u8, seq: i64, next: Option<i64>) -> Result<(), AllocError>
    ensures { OnOk result (string_bytes out.new
        ≡ string_bytes out.old ++ start_text version seq next) }
{
    out.push_str("start ")?;
    put_unsigned(out, u64::from(version))?;
    out.push_str(" ")?;
    put_long(out, seq)?;
    out.push_str(" ")?;
    put_optional_long(out, next)
}

/// Puts the lines of the rows behind `out`.
fn put_rows(out: &mut String, rows: &[Row]) -> Result<(), AllocError>
    ensures { OnOk result (string_bytes out.new
        ≡ string_bytes out.old ++ flat_map (λ row. lined (row_text row)) rows.now) }
{
    for row in rows {
        put_row(out, row)?;
        out.push_str("\n")?;
    }
    Ok(())
}

/// Puts the line of the row behind `out`, without LF.
fn put_row(out: &mut String, row: &Row) -> Result<(), AllocError>
    ensures { OnOk result (string_bytes out.new ≡ string_bytes out.old ++ row_text row.now) }
{
    out.push_str("row ")?;
    put_optional_long(out, row.id)?;
    out.push_str(" ")?;
    put_long(out, row.last)?;
    out.push_str(" ")?;
    put_cells(out, row.cells.as_slice())
}

/// Puts the lines of the entries behind `out`.
fn put_entries(alloc: Global, out: &mut String, entries: &[Entry]) -> Result<(), AllocError>
    ensures text { OnOk result (string_bytes out.new
        ≡ string_bytes out.old ++ flat_map (λ entry. lined (entry_text entry)) entries.now) }
    ensures reads_back { OnOk result (All IsReadBack entries.now) }
{
    for entry in entries {
        put_entry(alloc, out, entry)?;
        out.push_str("\n")?;
    }
    Ok(())
}

/// Puts the line of the entry behind `out`, without LF.
fn put_entry(alloc: Global, out: &mut String, entry: &Entry) -> Result<(), AllocError>
    ensures text { OnOk result (string_bytes out.new
        ≡ string_bytes out.old ++ entry_text entry.now) }
    ensures reads_back { OnOk result (IsReadBack entry.now) }
{
    let text = print_entry(alloc, entry)?;
    out.push_str(text.as_str())
}
