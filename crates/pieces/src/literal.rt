//! Texts between quotes.

ghost use Rattle.std.specs.Prelude.{◌≡◌, ◌+◌, ◌<◌, ◌≤◌, ℕ, List, [], ◌∷◌, ◌++◌, Ok, Err, Some, None, true, false, length, drop, slice_index, slice_range, IfOk, OnOk, OnErr, IfSome, MatchOption, MatchResult};
ghost use Rattle.std.specs.List.{flat_map};
ghost use Rattle.std.specs.Str.{IsCharBoundary};
ghost use Rattle.std.specs.String.{string_bytes};
ghost use Rattle.words.specs.Reading.{Gives};
ghost use Rattle.pieces.specs.Refusal.{is_memory};
ghost use Rattle.pieces.specs.Word.{byte_at};
ghost use Rattle.pieces.specs.Literal.{escape as escape_of, unescaped as unescaped_of, literal_text, rest_at, literal_at};
ghost use Rattle.pieces.specs.Plain.{is_plain as plain};

use crate::refusal::PieceRefusal;
use crate::word::take_byte;
use avro_wire::Text;
use std::alloc::{AllocError, Global};

/// The text that the literal at `place` stands for, and the place after its closing quote.
pub fn take_literal(alloc: Global, text: &str, place: usize) -> Result<(Text, usize), PieceRefusal>
    requires { place ≤ length text.now }
    ensures exact { Gives is_memory (λ read. read) result (literal_at text.now place) }
    ensures within { IfOk result (λ read. (place ≤ read.1) × (read.1 ≤ length text.now)) }
{
    let start = take_byte(text, place, b'"')?;
    let mut content = String::new(alloc);
    let after = take_rest(&mut content, text, start)?;
    Ok((Text::from_string(content), after))
}

/// Appends the text between quotes to `out`. An `Err` says that memory ran out, and leaves `out` as
/// it was.
pub fn put_literal(out: &mut String, text: &str) -> Result<(), AllocError>
    ensures ok { OnOk result
        (string_bytes out.new ≡ string_bytes out.old ++ literal_text text.now) }
    ensures unchanged { OnErr result (string_bytes out.new ≡ string_bytes out.old) }
{
    // The literal is whole before it is appended, so that a failure appends no part of it.
    let mut literal = String::new(*out.allocator());
    put_quoted(&mut literal, text)?;
    out.push_str(literal.as_str())
}

/// The refusal of what stops at `place`.
pub(crate) fn stops_at(place: usize) -> PieceRefusal
    ensures { result ≡ PieceRefusal.Syntax place }
{
    PieceRefusal::Syntax {
        place: place as u64,
    }
}

/// Appends the text of a literal that goes on at `start` to `content`: the place after its
/// closing quote.
fn take_rest(content: &mut String, text: &str, start: usize) -> Result<usize, PieceRefusal>
    requires inside { start ≤ length text.now }
    requires boundary { IsCharBoundary text.now start }
    ensures exact { Gives is_memory (λ after. (string_bytes content.new, after)) result
        (rest_at false (string_bytes content.old) (drop start text.now) start) }
    ensures within { IfOk result (λ after. (start ≤ after) × (after ≤ length text.now)) }
{
    let bytes = text.as_bytes();
    let mut at = start;
    'runs: loop {
        let end = plain_end(bytes, at);
        content.push_str(&text[at..end])?;
        let Some(other) = take_stop(bytes, end)? else {
            return Ok(end + 1);
        };
        content.push(other)?;
        at = end + 2;
    }
}

/// The place of the first byte from `start` on that doesn't stand for itself, or the end.
fn plain_end(bytes: &[u8], start: usize) -> usize
    requires { start ≤ length bytes.now }
    ensures from { start ≤ result }
    ensures within { result ≤ length bytes.now }
    ensures stops { result < length bytes.now → plain (slice_index bytes.now result) ≡ false }
    ensures read { (content : List ℕ) → rest_at false content (drop start bytes.now) start
        ≡ rest_at false (content ++ slice_range bytes.now start result)
        (drop result bytes.now) result }
{
    for at in start..bytes.len() {
        if !is_plain(bytes[at]) {
            return at;
        }
    }
    bytes.len()
}

/// Whether the byte stands for itself in a literal.
fn is_plain(byte: u8) -> bool
    ensures { result ≡ plain byte }
{
    !matches!(byte, b'"' | b'\\' | b'\n' | b'\r' | b'\t')
}

/// What a byte that doesn't stand for itself stands for: None for the closing quote, or the
/// character of an escape.
fn take_stop(bytes: &[u8], place: usize) -> Result<Option<char>, PieceRefusal>
    requires inside { place ≤ length bytes.now }
    requires stops { place < length bytes.now → plain (slice_index bytes.now place) ≡ false }
    ensures within { IfOk result (λ stop. MatchOption stop (place < length bytes.now)
        (λ other. (place + 1 < length bytes.now)
        × (unescaped_of (slice_index bytes.now (place + 1)) ≡ Some other))) }
    ensures read { (content : List ℕ) → MatchResult result
        (λ stop. MatchOption stop
        (rest_at false content (drop place bytes.now) place ≡ Ok (content, place + 1))
        (λ other. rest_at false content (drop place bytes.now) place
        ≡ rest_at false (content ++ other ∷ []) (drop (place + 2) bytes.now) (place + 2)))
        (λ refusal. rest_at false content (drop place bytes.now) place ≡ Err refusal) }
{
    if place == bytes.len() {
        return Err(stops_at(place));
    }
    let byte = bytes[place];
    if byte == b'\\' {
        return Ok(Some(take_escaped(bytes, place + 1)?));
    }
    if byte == b'"' {
        Ok(None)
    } else {
        Err(stops_at(place))
    }
}

/// The character that the byte after a backslash stands for.
fn take_escaped(bytes: &[u8], place: usize) -> Result<char, PieceRefusal>
    requires { place ≤ length bytes.now }
    ensures within { IfOk result (λ other. (place < length bytes.now)
        × (unescaped_of (slice_index bytes.now place) ≡ Some other)) }
    ensures read { (content : List ℕ) → MatchResult result
        (λ other. rest_at true content (drop place bytes.now) place
        ≡ rest_at false (content ++ other ∷ []) (drop (place + 1) bytes.now) (place + 1))
        (λ refusal. rest_at true content (drop place bytes.now) place ≡ Err refusal) }
{
    if place == bytes.len() {
        return Err(stops_at(place));
    }
    match unescaped(bytes[place]) {
        Some(other) => Ok(other),
        None => Err(stops_at(place)),
    }
}

/// The character that the byte stands for after a backslash.
fn unescaped(byte: u8) -> Option<char>
    ensures { result ≡ unescaped_of byte }
{
    match byte {
        b'"' => Some('"'),
        b'\\' => Some('\\'),
        b'n' => Some('\n'),
        b'r' => Some('\r'),
        b't' => Some('\t'),
        _ => None,
    }
}

/// Puts the text between quotes. An `Err` may leave a part of it.
fn put_quoted(out: &mut String, text: &str) -> Result<(), AllocError>
    ensures { OnOk result (string_bytes out.new ≡ string_bytes out.old ++ literal_text text.now) }
{
    out.push_str("\"")?;
    put_escaped(out, text)?;
    out.push_str("\"")
}

/// Puts the text as it is in a literal, without the quotes.
fn put_escaped(out: &mut String, text: &str) -> Result<(), AllocError>
    ensures { OnOk result (string_bytes out.new
        ≡ string_bytes out.old ++ flat_map escape_of text.now) }
{
    let bytes = text.as_bytes();
    let mut plain = 0;
    for at in 0..bytes.len() {
        if let Some(escaped) = escape(bytes[at]) {
            out.push_str(&text[plain..at])?;
            out.push_str(escaped)?;
            plain = at + 1;
        }
    }
    out.push_str(&text[plain..])
}

/// What stands for the byte in a literal, where that isn't the byte itself.
fn escape(byte: u8) -> Option<&'static str>
    ensures ascii { IfSome result (λ _. byte < 128) }
    ensures value { MatchOption result (escape_of byte ≡ byte ∷ [])
        (λ text. escape_of byte ≡ text.now) }
{
    match byte {
        b'"' => Some("\\\""),
        b'\\' => Some("\\\\"),
        b'\n' => Some("\\n"),
        b'\r' => Some("\\r"),
        b'\t' => Some("\\t"),
        _ => None,
    }
}
