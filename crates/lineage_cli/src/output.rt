//! Writing text to a sink: whole pieces, and through one buffer.

ghost use Rattle.std.specs.Prelude.{◌≡◌, ◌+◌, ◌*◌, ◌≤◌, ℕ, List, [], ◌++◌, length, map, take, OnOk};
ghost use Rattle.std.specs.Fmt.{signed_decimal};
ghost use Rattle.lt_port.specs.Streams.{counts_after};
ghost use Rattle.cell_text.specs.Cell.{cell_text, most_bytes as most_bytes_of};
ghost use Rattle.row_types.specs.CellRef.{lent_cell};
ghost use Rattle.lineage_cli.specs.Output.{Puts, Moves, Shows};
ghost use Rattle.pieces.specs.Number.{optional_text};
ghost use Rattle.lineage_cli.specs.RowLine.{most_line};
ghost use Rattle.lineage_cli.specs.Text.{spaced, row_line, part_text};

use crate::row_line::{FRONT_BYTES, put_front, put_line};
use cell_text::{put_cell, put_digits, put_escaped, put_piece};
use lt_port::{PortError, Sink};
use row_types::CellRef;
use std::marker::Model;

/// How many bytes wait in a buffer at most.
pub const BUFFER_BYTES: usize = 65_536;

/// How bytes are printed that may be longer than the buffer: as they are, as the text between quotes,
/// or as hexadecimal digits.
#[derive(Clone, Copy)]
pub enum Form {
    Plain,
    Escaped,
    Digits,
}

/// The bytes that wait to be written. They are on the stack, so making a buffer takes no memory that
/// may run out. Contracts see the list of them.
#[derive(Drop)]
pub struct Buffer {
    room: [u8; BUFFER_BYTES],
    /// How many bytes of the room wait.
    used: usize,
}

impl Model for Buffer {
    ghost use Rattle.std.specs.Prelude.{◌≡◌, ◌≤◌, ℕ, List, length, take};
    ghost use Rattle.lineage_cli.specs.declared.output.TheConstants.{BUFFER_BYTES};

    ghost Value = { List ℕ };

    ghost view = { λ b. take b.used b.room };

    ghost invariant = { λ b. (b.used ≤ length b.room) × (length b.room ≡ BUFFER_BYTES) };
}

impl Buffer {
    /// A buffer in which nothing waits.
    pub fn new() -> Buffer
        ensures { result ≡ [] }
    {
        Buffer {
            room: [0; BUFFER_BYTES],
            used: 0,
        }
    }

    /// Appends the piece to what waits.
    #[inline(always)]
    pub fn push(&mut self, piece: &[u8])
        requires fits { length self.old + length piece.now ≤ BUFFER_BYTES }
        ensures put { self.new ≡ self.old ++ piece.now }
    {
        self.used = put_piece(&mut self.room, self.used, piece);
    }

    /// How many bytes more may wait.
    #[inline(always)]
    pub fn room(&self) -> usize
        ensures { length self.now + result ≡ BUFFER_BYTES }
    {
        BUFFER_BYTES - self.used
    }

    /// Appends the line of a row to what waits.
    #[inline(always)]
    pub fn push_line(&mut self, id: Option<i64>, last: i64, cells: &[CellRef<'_>])
        requires fits { length self.old + most_line (map lent_cell cells.now) ≤ BUFFER_BYTES }
        ensures put { self.new ≡ self.old
            ++ row_line (record { id = id; last = last; cells = map lent_cell cells.now }) }
    {
        self.used = put_line(&mut self.room, self.used, id, last, cells);
    }

    /// Appends what comes before the cells of a row to what waits.
    pub fn push_front(&mut self, id: Option<i64>, last: i64)
        requires fits { length self.old + FRONT_BYTES ≤ BUFFER_BYTES }
        ensures put { self.new ≡ self.old
            ++ (spaced (optional_text id) ++ spaced (signed_decimal last)) }
    {
        self.used = put_front(&mut self.room, self.used, id, last);
    }

    /// Appends the cell to what waits.
    #[inline(always)]
    pub fn push_cell(&mut self, cell: CellRef<'_>)
        requires fits { length self.old + most_bytes_of (lent_cell cell) ≤ BUFFER_BYTES }
        ensures put { self.new ≡ self.old ++ cell_text (lent_cell cell.entry) }
    {
        self.used = put_cell(&mut self.room, self.used, cell);
    }

    /// Appends a part of the bytes, in this form, to what waits.
    pub fn push_part(&mut self, form: Form, part: &[u8])
        requires fits { length self.old + 2 * length part.now ≤ BUFFER_BYTES }
        ensures put { self.new ≡ self.old ++ part_text form part.now }
    {
        self.used = match form {
            Form::Plain => put_piece(&mut self.room, self.used, part),
            Form::Escaped => put_escaped(&mut self.room, self.used, part),
            Form::Digits => put_digits(&mut self.room, self.used, part),
        };
    }
}

/// Writes the piece, all of it.
pub fn write_all<W: Sink>(out: &mut W, piece: &[u8]) -> Result<(), PortError>
    ensures text { Puts (W.seen out.old).written (W.seen out.new).written result piece.now }
    ensures counted { (W.seen out.new).counts ≡ counts_after result (W.seen out.old).counts }
{
    let mut at = 0;
    while at < piece.len() {
        at += out.write(&piece[at..])?;
    }
    Ok(())
}

/// Appends the piece to what waits in the buffer. What waits is written first if there is no room
/// for the piece.
pub fn put<W: Sink>(out: &mut W, buffer: &mut Buffer, piece: &[u8]) -> Result<(), PortError>
    requires fits { length piece.now ≤ BUFFER_BYTES }
    ensures text { Shows (W.seen out.old).written buffer.old
        (W.seen out.new).written buffer.new result piece.now }
    ensures counted { (W.seen out.new).counts ≡ counts_after result (W.seen out.old).counts }
{
    make_room(out, buffer, piece.len())?;
    buffer.push(piece);
    Ok(())
}

/// Writes what waits in the buffer if there is no room for so many bytes more.
#[inline(always)]
pub fn make_room<W: Sink>(out: &mut W, buffer: &mut Buffer, size: usize) -> Result<(), PortError>
    requires fits { size ≤ BUFFER_BYTES }
    ensures text { Moves (W.seen out.old).written (W.seen out.new).written buffer.new
        result buffer.old }
    ensures room { OnOk result (length buffer.new + size ≤ BUFFER_BYTES) }
    ensures counted { (W.seen out.new).counts ≡ counts_after result (W.seen out.old).counts }
{
    if size > BUFFER_BYTES - buffer.used {
        return flush(out, buffer);
    }
    Ok(())
}

/// Writes what waits in the buffer.
#[inline(never)]
pub fn flush<W: Sink>(out: &mut W, buffer: &mut Buffer) -> Result<(), PortError>
    ensures text { Puts (W.seen out.old).written (W.seen out.new).written result buffer.old }
    ensures emptied { OnOk result (buffer.new ≡ []) }
    ensures counted { (W.seen out.new).counts ≡ counts_after result (W.seen out.old).counts }
{
    write_all(out, &buffer.room[..buffer.used])?;
    buffer.used = 0;
    Ok(())
}
