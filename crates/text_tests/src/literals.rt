//! Literals and hexadecimal bytes by hand.

use avro_wire::Bytes;
use pieces::{PieceRefusal, put_literal, take_hex, take_literal};
use row_pred::put_cell;
use row_types::Cell;
use std::alloc::{AllocError, Global};
use std::test::*;

/// A text, a place in it, and the text of the literal there with the place after it; or the place
/// of the refusal.
type Line = (&'static str, usize, Result<(&'static str, usize), u64>);

static LITERALS: [Line; 24] = [
    (r#""""#, 0, Ok(("", 2))),
    (r#""abc""#, 0, Ok(("abc", 5))),
    (r#""snö\n\"\\""#, 0, Ok(("snö\n\"\\", 12))),
    (r#""\n\r\t\"\\""#, 0, Ok(("\n\r\t\"\\", 12))),
    (r#""\\n""#, 0, Ok(("\\n", 5))),
    ("\"\u{7f}\0/'\"", 0, Ok(("\u{7f}\0/'", 6))),
    (r#""語\t€😀""#, 0, Ok(("語\t€😀", 14))),
    // A literal ends at its closing quote.
    (r#""a"b""#, 0, Ok(("a", 3))),
    (r#"x="ö\"" y"#, 2, Ok(("ö\"", 8))),
    (r#""a""b""#, 3, Ok(("b", 6))),
    // A text that is no literal is refused at the first such byte.
    ("", 0, Err(0)),
    ("abc", 0, Err(0)),
    ("'a'", 0, Err(0)),
    ("\"abc", 0, Err(4)),
    ("\"", 0, Err(1)),
    ("\"a\\", 0, Err(3)),
    (r#""a\q""#, 0, Err(3)),
    (r#""\N""#, 0, Err(2)),
    (r#""a\/b""#, 0, Err(3)),
    (r#""\u0041""#, 0, Err(2)),
    ("\"a\nb\"", 0, Err(2)),
    ("\"\rb\"", 0, Err(1)),
    ("\"ab\tc\"", 0, Err(3)),
    ("\"\\\n\"", 0, Err(2)),
];

/// Whether the literal at the place is read as the line says.
fn is_read(alloc: Global, line: &Line) -> bool {
    if line.1 > line.0.len() {
        return false;
    }
    match (take_literal(alloc, line.0, line.1), line.2) {
        (Ok(read), Ok(wanted)) => read.0.as_str() == wanted.0 && read.1 == wanted.1,
        (Err(PieceRefusal::Syntax { place }), Err(wanted)) => place == wanted,
        _ => false,
    }
}

/// The number of the first line that is read otherwise, counted from 0.
fn first_wrong(alloc: Global, lines: &[Line]) -> Option<usize> {
    for number in 0..lines.len() {
        if !is_read(alloc, &lines[number]) {
            return Some(number);
        }
    }
    None
}

/// Literals, and the texts that are printed as them.
static PRINTED: [(&str, &str); 7] = [
    (r#""""#, ""),
    (r#""abc""#, "abc"),
    (r#""snö\n\"\\""#, "snö\n\"\\"),
    (r#""\n\r\t\"\\""#, "\n\r\t\"\\"),
    (r#""\\n""#, "\\n"),
    ("\"\u{7f}\0/'\"", "\u{7f}\0/'"),
    (r#""語\t€😀""#, "語\t€😀"),
];

/// The number of the first text that is printed otherwise, counted from 0.
fn first_printed_otherwise(
    alloc: Global,
    lines: &[(&str, &str)],
) -> Result<Option<usize>, AllocError> {
    for number in 0..lines.len() {
        let mut out = String::new(alloc);
        put_literal(&mut out, lines[number].1)?;
        if out.as_str() != lines[number].0 {
            return Ok(Some(number));
        }
    }
    Ok(None)
}

#[test]
fn a_literal_stands_for_its_text_and_is_printed_so(rt: HostRuntime) -> Result<(), Fail> {
    assert_eq!(rt; first_wrong(rt.alloc(), &LITERALS), None);
    assert_eq!(rt; first_printed_otherwise(rt.alloc(), &PRINTED)?, None);
    Ok(())
}

/// A text, and the bytes that the pairs of digits stand for with the place after them; or the place
/// of the refusal.
type Told = (&'static str, Result<(&'static [u8], usize), u64>);

static PAIRS: [Told; 19] = [
    ("x", Ok((&[], 1))),
    ("x00ff", Ok((&[0x00, 0xff], 5))),
    (
        "x0123456789abcdef",
        Ok((&[0x01, 0x23, 0x45, 0x67, 0x89, 0xab, 0xcd, 0xef], 17)),
    ),
    ("x7f80", Ok((&[0x7f, 0x80], 5))),
    // The bytes end before what is no digit.
    ("xG", Ok((&[], 1))),
    ("xFF", Ok((&[], 1))),
    ("x0a ", Ok((&[0x0a], 3))),
    ("x0a:1", Ok((&[0x0a], 3))),
    // Half a byte is refused behind its digit.
    ("", Err(0)),
    ("00", Err(0)),
    ("X00", Err(0)),
    ("x1", Err(2)),
    ("x1G", Err(2)),
    ("x1A", Err(2)),
    ("x00f", Err(4)),
    ("x0 ", Err(2)),
    ("x0/", Err(2)),
    ("x0`", Err(2)),
    ("x0g", Err(2)),
];

/// Whether the text is read as the line says.
fn are_pairs(alloc: Global, line: &Told) -> bool {
    match (take_hex(alloc, line.0, 0), line.1) {
        (Ok(read), Ok(wanted)) => read.0.as_slice() == wanted.0 && read.1 == wanted.1,
        (Err(PieceRefusal::Syntax { place }), Err(wanted)) => place == wanted,
        _ => false,
    }
}

/// The number of the first text that is read otherwise, counted from 0.
fn first_wrong_pairs(alloc: Global, lines: &[Told]) -> Option<usize> {
    for number in 0..lines.len() {
        if !are_pairs(alloc, &lines[number]) {
            return Some(number);
        }
    }
    None
}

/// Bytes, and the texts that they are printed as.
static PRINTED_BYTES: [(&str, &[u8]); 4] = [
    ("x", &[]),
    ("x00ff", &[0x00, 0xff]),
    (
        "x0123456789abcdef",
        &[0x01, 0x23, 0x45, 0x67, 0x89, 0xab, 0xcd, 0xef],
    ),
    ("x7f80", &[0x7f, 0x80]),
];

/// The number of the first bytes that are printed otherwise, counted from 0.
fn first_bytes_printed_otherwise(
    alloc: Global,
    lines: &[(&str, &[u8])],
) -> Result<Option<usize>, AllocError> {
    for number in 0..lines.len() {
        let mut out = String::new(alloc);
        let cell = Cell::Bytes(Bytes::from_slice(alloc, lines[number].1)?);
        put_cell(&mut out, &cell)?;
        if out.as_str() != lines[number].0 {
            return Ok(Some(number));
        }
    }
    Ok(None)
}

#[test]
fn pairs_of_digits_are_bytes_and_are_printed_so(rt: HostRuntime) -> Result<(), Fail> {
    assert_eq!(rt; first_wrong_pairs(rt.alloc(), &PAIRS), None);
    assert_eq!(rt;
        first_bytes_printed_otherwise(rt.alloc(), &PRINTED_BYTES)?,
        None
    );
    Ok(())
}
