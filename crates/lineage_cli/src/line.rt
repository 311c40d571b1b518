//! Putting the text of a refusal.

ghost use Rattle.std.specs.Prelude.{◌≡◌, ◌++◌, codes, decimal};
ghost use Rattle.std.specs.Fmt.{signed_decimal};
ghost use Rattle.lt_port.specs.Streams.{counts_after};
ghost use Rattle.refusal_text.specs.Detail.{detail_text};
ghost use Rattle.refusal_text.specs.Told.{told_text, spaced};
ghost use Rattle.lineage_cli.specs.Output.{Shows};

use crate::output::{Buffer, put};
use crate::parts::put_plain;
use crate::printing::put_cell;
use lt_port::{PortError, Sink};
use refusal_text::{Detail, Told};
use row_types::CellRef;

/// Puts the text.
pub fn put_told<W: Sink>(out: &mut W, buffer: &mut Buffer, told: Told<'_>) -> Result<(), PortError>
    ensures text { Shows (W.seen out.old).written buffer.old
        (W.seen out.new).written buffer.new result (told_text told.entry) }
    ensures counted { (W.seen out.new).counts ≡ counts_after result (W.seen out.old).counts }
{
    put_word(out, buffer, told.word)?;
    put_detail(out, buffer, told.detail)
}

/// Puts a space and the word, or nothing if the word is empty.
fn put_word<W: Sink>(out: &mut W, buffer: &mut Buffer, word: &str) -> Result<(), PortError>
    ensures text { Shows (W.seen out.old).written buffer.old
        (W.seen out.new).written buffer.new result (spaced word.now) }
    ensures counted { (W.seen out.new).counts ≡ counts_after result (W.seen out.old).counts }
{
    if word.is_empty() {
        return Ok(());
    }
    put_spaced(out, buffer, word.as_bytes())
}

/// Puts what follows the word.
fn put_detail<W: Sink>(
    out: &mut W,
    buffer: &mut Buffer,
    detail: Detail<'_>,
) -> Result<(), PortError>
    ensures text { Shows (W.seen out.old).written buffer.old
        (W.seen out.new).written buffer.new result (detail_text detail.entry) }
    ensures counted { (W.seen out.new).counts ≡ counts_after result (W.seen out.old).counts }
{
    match detail {
        Detail::Nothing => Ok(()),
        Detail::Number(number) => put_natural(out, buffer, number),
        Detail::Id(id) => put_id(out, buffer, id),
        Detail::Numbers(first, second) => put_numbers(out, buffer, first, second),
        Detail::Hex(bytes) => put_cell(out, buffer, b" ", CellRef::Bytes(bytes.as_slice())),
        Detail::Quoted(text) => put_cell(out, buffer, b" ", CellRef::Text(text.as_str())),
        Detail::Named(number, name) => put_named(out, buffer, number, name),
    }
}

/// Puts two numbers, each with a space before it.
fn put_numbers<W: Sink>(
    out: &mut W,
    buffer: &mut Buffer,
    first: i64,
    second: i64,
) -> Result<(), PortError>
    ensures text { Shows (W.seen out.old).written buffer.old
        (W.seen out.new).written buffer.new result
        (codes " " ++ (signed_decimal first ++ (codes " " ++ signed_decimal second))) }
    ensures counted { (W.seen out.new).counts ≡ counts_after result (W.seen out.old).counts }
{
    put_number(out, buffer, first)?;
    put_number(out, buffer, second)
}

/// Puts a number and a name, each with a space before it.
fn put_named<W: Sink>(
    out: &mut W,
    buffer: &mut Buffer,
    number: u64,
    name: &str,
) -> Result<(), PortError>
    ensures text { Shows (W.seen out.old).written buffer.old
        (W.seen out.new).written buffer.new result
        (codes " " ++ (decimal number ++ (codes " " ++ name.now))) }
    ensures counted { (W.seen out.new).counts ≡ counts_after result (W.seen out.old).counts }
{
    put_natural(out, buffer, number)?;
    put_spaced(out, buffer, name.as_bytes())
}

/// Puts a space and a number without sign.
fn put_natural<W: Sink>(out: &mut W, buffer: &mut Buffer, number: u64) -> Result<(), PortError>
    ensures text { Shows (W.seen out.old).written buffer.old
        (W.seen out.new).written buffer.new result (codes " " ++ decimal number) }
    ensures counted { (W.seen out.new).counts ≡ counts_after result (W.seen out.old).counts }
{
    let mut digits = itoa::Buffer::new();
    put_spaced(out, buffer, digits.format(number).as_bytes())
}

/// Puts a space and the id of a column.
fn put_id<W: Sink>(out: &mut W, buffer: &mut Buffer, id: i32) -> Result<(), PortError>
    ensures text { Shows (W.seen out.old).written buffer.old
        (W.seen out.new).written buffer.new result (codes " " ++ signed_decimal id) }
    ensures counted { (W.seen out.new).counts ≡ counts_after result (W.seen out.old).counts }
{
    let mut digits = itoa::Buffer::new();
    put_spaced(out, buffer, digits.format(id).as_bytes())
}

/// Puts a space and a number.
fn put_number<W: Sink>(out: &mut W, buffer: &mut Buffer, number: i64) -> Result<(), PortError>
    ensures text { Shows (W.seen out.old).written buffer.old
        (W.seen out.new).written buffer.new result (codes " " ++ signed_decimal number) }
    ensures counted { (W.seen out.new).counts ≡ counts_after result (W.seen out.old).counts }
{
    let mut digits = itoa::Buffer::new();
    put_spaced(out, buffer, digits.format(number).as_bytes())
}

/// Puts a space and the piece.
fn put_spaced<W: Sink>(out: &mut W, buffer: &mut Buffer, piece: &[u8]) -> Result<(), PortError>
    ensures text { Shows (W.seen out.old).written buffer.old
        (W.seen out.new).written buffer.new result (codes " " ++ piece.now) }
    ensures counted { (W.seen out.new).counts ≡ counts_after result (W.seen out.old).counts }
{
    put(out, buffer, b" ")?;
    put_plain(out, buffer, piece)
}
