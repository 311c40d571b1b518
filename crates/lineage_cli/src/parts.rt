//! Putting bytes that may be longer than the buffer, part by part.

ghost use Rattle.std.specs.Prelude.{◌≡◌, ◌*◌, ◌<◌, ◌≤◌, ◌++◌, length};
ghost use Rattle.lt_port.specs.Streams.{counts_after};
ghost use Rattle.pieces.specs.Literal.{literal_text};
ghost use Rattle.pieces.specs.HexLiteral.{hex_text};
ghost use Rattle.lineage_cli.specs.Output.{Shows};
ghost use Rattle.lineage_cli.specs.Text.{part_text};

use crate::output::{Buffer, Form, make_room, put};
use lt_port::{PortError, Sink};

/// How many bytes are put at a time.
const PART_BYTES: usize = 16_384;

/// Puts the bytes as they are.
pub fn put_plain<W: Sink>(out: &mut W, buffer: &mut Buffer, bytes: &[u8]) -> Result<(), PortError>
    ensures text { Shows (W.seen out.old).written buffer.old
        (W.seen out.new).written buffer.new result bytes.now }
    ensures counted { (W.seen out.new).counts ≡ counts_after result (W.seen out.old).counts }
{
    put_parts(out, buffer, Form::Plain, bytes)
}

/// Puts the text between quotes.
pub fn put_literal<W: Sink>(out: &mut W, buffer: &mut Buffer, text: &[u8]) -> Result<(), PortError>
    ensures text { Shows (W.seen out.old).written buffer.old
        (W.seen out.new).written buffer.new result (literal_text text.now) }
    ensures counted { (W.seen out.new).counts ≡ counts_after result (W.seen out.old).counts }
{
    put(out, buffer, b"\"")?;
    put_parts(out, buffer, Form::Escaped, text)?;
    put(out, buffer, b"\"")
}

/// Puts an x, and two hexadecimal digits for each byte.
pub fn put_hex<W: Sink>(out: &mut W, buffer: &mut Buffer, bytes: &[u8]) -> Result<(), PortError>
    ensures text { Shows (W.seen out.old).written buffer.old
        (W.seen out.new).written buffer.new result (hex_text bytes.now) }
    ensures counted { (W.seen out.new).counts ≡ counts_after result (W.seen out.old).counts }
{
    put(out, buffer, b"x")?;
    put_parts(out, buffer, Form::Digits, bytes)
}

/// Puts the bytes in this form, part by part.
#[tactic(auto, using(crate::proofs::PrintLemmas::begun_none))]
fn put_parts<W: Sink>(
    out: &mut W,
    buffer: &mut Buffer,
    form: Form,
    bytes: &[u8],
) -> Result<(), PortError>
    ensures text { Shows (W.seen out.old).written buffer.old
        (W.seen out.new).written buffer.new result (part_text form bytes.now) }
    ensures counted { (W.seen out.new).counts ≡ counts_after result (W.seen out.old).counts }
{
    let mut rest = bytes;
    while rest.len() > 0 {
        let (part, behind) = next_part(rest);
        put_part(out, buffer, form, part)?;
        rest = behind;
    }
    Ok(())
}

/// The bytes of the next part, and those after it.
fn next_part(bytes: &[u8]) -> (&[u8], &[u8])
    requires { 0 < length bytes.now }
    ensures whole { bytes.now ≡ result.0.now ++ result.1.now }
    ensures short { length result.0.now ≤ PART_BYTES }
    ensures fewer { length result.1.now < length bytes.now }
{
    bytes.split_at(bytes.len().min(PART_BYTES))
}

/// Puts one part.
fn put_part<W: Sink>(
    out: &mut W,
    buffer: &mut Buffer,
    form: Form,
    part: &[u8],
) -> Result<(), PortError>
    requires { length part.now ≤ PART_BYTES }
    ensures text { Shows (W.seen out.old).written buffer.old
        (W.seen out.new).written buffer.new result (part_text form part.now) }
    ensures counted { (W.seen out.new).counts ≡ counts_after result (W.seen out.old).counts }
{
    make_room(out, buffer, 2 * part.len())?;
    buffer.push_part(form, part);
    Ok(())
}
