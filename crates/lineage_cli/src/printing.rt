//! Printing rows, one line each.

ghost use Rattle.std.specs.Prelude.{◌≡◌, ◌+◌, ◌*◌, ◌<◌, ◌≤◌, ◌++◌, [], length, map, IsErrOf};
ghost use Rattle.std.specs.Fmt.{signed_decimal};
ghost use Rattle.std.specs.List.{flat_map};
ghost use Rattle.lt_port.specs.Streams.{counts_after};
ghost use Rattle.pieces.specs.Number.{optional_text};
ghost use Rattle.pieces.specs.Literal.{literal_text};
ghost use Rattle.pieces.specs.HexLiteral.{hex_text};
ghost use Rattle.cell_text.specs.Cell.{cell_text, most_bytes as most_bytes_of};
ghost use Rattle.row_pred.specs.Cells.{spaced_text, cells_text};
ghost use Rattle.row_types.specs.CellRef.{lent_cell};
ghost use Rattle.lineage_cli.specs.Output.{Puts, Shows};
ghost use Rattle.lineage_cli.specs.Text.{spaced, part_text, row_line, lines};

use crate::output::{BUFFER_BYTES, Buffer, flush, make_room, put};
use crate::parts::{put_hex, put_literal};
use crate::row_line::{FRONT_BYTES, line_fits};
use cell_text::most_bytes;
use lt_port::{PortError, Sink};
use row_reading::CheckedRows;
use row_types::CellRef;

/// Writes a line for each of the rows, as they are shown, through one buffer.
pub fn print_rows<W: Sink>(out: &mut W, mut rows: CheckedRows<'_>) -> Result<(), PortError>
    ensures text { Puts (W.seen out.old).written (W.seen out.new).written result (lines rows.entry.left) }
    ensures counted { (W.seen out.new).counts ≡ counts_after result (W.seen out.old).counts }
{
    let mut buffer = Buffer::new();
    write_by(out, &mut buffer, &mut rows)
}

/// The same, through a buffer in which nothing waits.
fn write_by<W: Sink>(
    out: &mut W,
    buffer: &mut Buffer,
    rows: &mut CheckedRows<'_>,
) -> Result<(), PortError>
    requires { buffer.old ≡ [] }
    ensures text { Puts (W.seen out.old).written (W.seen out.new).written result (lines rows.old.left) }
    ensures counted { (W.seen out.new).counts ≡ counts_after result (W.seen out.old).counts }
{
    put_rows(out, buffer, rows)?;
    flush(out, buffer)
}

/// Puts a line for each of the rows that were not shown.
#[tactic(auto, using(crate::proofs::PrintLemmas::row_by_row))]
fn put_rows<W: Sink>(
    out: &mut W,
    buffer: &mut Buffer,
    rows: &mut CheckedRows<'_>,
) -> Result<(), PortError>
    ensures text { Shows (W.seen out.old).written buffer.old
        (W.seen out.new).written buffer.new result (lines rows.old.left) }
    ensures counted { (W.seen out.new).counts ≡ counts_after result (W.seen out.old).counts }
{
    while rows.advance() {
        put_row(out, buffer, rows)?;
    }
    Ok(())
}

/// Puts the line of the row that is shown.
fn put_row<W: Sink>(
    out: &mut W,
    buffer: &mut Buffer,
    rows: &CheckedRows<'_>,
) -> Result<(), PortError>
    ensures text { Shows (W.seen out.old).written buffer.old
        (W.seen out.new).written buffer.new result (row_line rows.now.row) }
    ensures counted { (W.seen out.new).counts ≡ counts_after result (W.seen out.old).counts }
{
    if line_fits(rows.cells(), buffer.room()) {
        buffer.push_line(rows.id(), rows.last(), rows.cells());
        return Ok(());
    }
    put_piece_by_piece(out, buffer, rows)
}

/// The same, piece by piece: what waits is written where there is no room for the next one.
#[inline(never)]
fn put_piece_by_piece<W: Sink>(
    out: &mut W,
    buffer: &mut Buffer,
    rows: &CheckedRows<'_>,
) -> Result<(), PortError>
    ensures text { Shows (W.seen out.old).written buffer.old
        (W.seen out.new).written buffer.new result (row_line rows.now.row) }
    ensures counted { (W.seen out.new).counts ≡ counts_after result (W.seen out.old).counts }
{
    put_front(out, buffer, rows.id(), rows.last())?;
    put_cells(out, buffer, rows.cells())?;
    put(out, buffer, b"\n")
}

/// Puts what comes before the cells of a row: its id and its last change, each with a space.
fn put_front<W: Sink>(
    out: &mut W,
    buffer: &mut Buffer,
    id: Option<i64>,
    last: i64,
) -> Result<(), PortError>
    ensures text { Shows (W.seen out.old).written buffer.old
        (W.seen out.new).written buffer.new result
        (spaced (optional_text id) ++ spaced (signed_decimal last)) }
    ensures counted { (W.seen out.new).counts ≡ counts_after result (W.seen out.old).counts }
{
    make_room(out, buffer, FRONT_BYTES)?;
    buffer.push_front(id, last);
    Ok(())
}

/// Puts the cells, with a space between each two.
fn put_cells<W: Sink>(
    out: &mut W,
    buffer: &mut Buffer,
    cells: &[CellRef<'_>],
) -> Result<(), PortError>
    ensures text { Shows (W.seen out.old).written buffer.old
        (W.seen out.new).written buffer.new result (cells_text (map lent_cell cells.now)) }
    ensures counted { (W.seen out.new).counts ≡ counts_after result (W.seen out.old).counts }
{
    let Some((first, others)) = cells.split_first() else {
        return Ok(());
    };
    put_cell(out, buffer, b"", *first)?;
    put_others(out, buffer, others)
}

/// Puts the cells after another one, each with a space before it.
#[tactic(auto, using(crate::proofs::PrintLemmas::cell_by_cell))]
fn put_others<W: Sink>(
    out: &mut W,
    buffer: &mut Buffer,
    cells: &[CellRef<'_>],
) -> Result<(), PortError>
    ensures text { Shows (W.seen out.old).written buffer.old
        (W.seen out.new).written buffer.new result
        (flat_map spaced_text (map lent_cell cells.now)) }
    ensures counted { (W.seen out.new).counts ≡ counts_after result (W.seen out.old).counts }
{
    for cell in cells {
        put_cell(out, buffer, b" ", *cell)?;
    }
    Ok(())
}

/// Puts what comes before the cell, which is a space or nothing, and the cell.
pub fn put_cell<W: Sink>(
    out: &mut W,
    buffer: &mut Buffer,
    before: &[u8],
    cell: CellRef<'_>,
) -> Result<(), PortError>
    requires { length before.now ≤ 1 }
    ensures text { Shows (W.seen out.old).written buffer.old
        (W.seen out.new).written buffer.new result
        (before.now ++ cell_text (lent_cell cell.entry)) }
    ensures counted { (W.seen out.new).counts ≡ counts_after result (W.seen out.old).counts }
{
    let most = most_bytes(cell);
    if most >= BUFFER_BYTES {
        return put_long(out, buffer, before, cell);
    }
    make_room(out, buffer, most + 1)?;
    buffer.push(before);
    buffer.push_cell(cell);
    Ok(())
}

/// The same for a cell that may be longer than the buffer.
#[inline(never)]
fn put_long<W: Sink>(
    out: &mut W,
    buffer: &mut Buffer,
    before: &[u8],
    cell: CellRef<'_>,
) -> Result<(), PortError>
    requires before { length before.now ≤ 1 }
    requires long { BUFFER_BYTES ≤ most_bytes_of (lent_cell cell) }
    ensures text { Shows (W.seen out.old).written buffer.old
        (W.seen out.new).written buffer.new result
        (before.now ++ cell_text (lent_cell cell.entry)) }
    ensures counted { (W.seen out.new).counts ≡ counts_after result (W.seen out.old).counts }
{
    put(out, buffer, before)?;
    match cell {
        CellRef::Text(text) => put_literal(out, buffer, text.as_bytes()),
        CellRef::Bytes(bytes) => put_hex(out, buffer, bytes),
        CellRef::Null | CellRef::Flag(_) | CellRef::Num(_) => unreachable!(),
    }
}
