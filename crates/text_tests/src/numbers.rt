//! Numbers by hand, and each function that takes or puts them once.

use pieces::{
    Passed, PieceRefusal, Signed, put_long, put_optional_long, put_unsigned, take_any_number,
    take_count, take_long, take_optional_long, take_signed, take_unsigned,
};
use std::alloc::{AllocError, Global};
use std::test::*;

/// A text, and the number without sign that it begins with, with the place after it; or the place
/// of the refusal.
type Unsigned = (&'static str, Result<(u64, usize), u64>);

static WITHOUT_SIGN: [Unsigned; 9] = [
    ("0", Ok((0, 1))),
    ("01", Ok((0, 1))),
    ("70 ", Ok((70, 2))),
    ("18446744073709551615", Ok((18_446_744_073_709_551_615, 20))),
    ("18446744073709551616", Err(19)),
    ("184467440737095516150", Err(20)),
    ("", Err(0)),
    ("x", Err(0)),
    ("-1", Err(0)),
];

/// The number of the first text that is taken otherwise, counted from 0.
fn first_wrong_unsigned(lines: &[Unsigned]) -> Option<usize> {
    for number in 0..lines.len() {
        let is_right = match (take_unsigned(lines[number].0, 0), lines[number].1) {
            (Ok(read), Ok(wanted)) => read.0 == wanted.0 && read.1 == wanted.1,
            (Err(PieceRefusal::Syntax { place }), Err(wanted)) => place == wanted,
            _ => false,
        };
        if !is_right {
            return Some(number);
        }
    }
    None
}

/// What numbers with a sign are taken.
#[derive(Clone, Copy)]
enum Form {
    /// From 1.
    Count,
    /// Of 64 bits.
    Long,
    /// Of 64 bits, or of more, which is none.
    Any,
    /// Of 64 bits, or a minus sign alone, which is none.
    Optional,
}

/// What is taken of a text: the number and the place after it, or the place of the refusal.
type Line = (Form, &'static str, Result<(Option<i64>, usize), u64>);

static WITH_SIGN: [Line; 29] = [
    (Form::Count, "1", Ok((Some(1), 1))),
    (
        Form::Count,
        "9223372036854775807",
        Ok((Some(9_223_372_036_854_775_807), 19)),
    ),
    (Form::Count, "9223372036854775808", Err(18)),
    (Form::Count, "0", Err(0)),
    (Form::Count, "-1", Err(0)),
    (Form::Count, "", Err(0)),
    (Form::Long, "0,", Ok((Some(0), 1))),
    (Form::Long, "-5,", Ok((Some(-5), 2))),
    (
        Form::Long,
        "9223372036854775807",
        Ok((Some(9_223_372_036_854_775_807), 19)),
    ),
    (Form::Long, "9223372036854775808", Err(18)),
    (
        Form::Long,
        "-9223372036854775808",
        Ok((Some(-9_223_372_036_854_775_808), 20)),
    ),
    (Form::Long, "-9223372036854775809", Err(19)),
    (Form::Long, "-0", Err(1)),
    (Form::Long, "-", Err(1)),
    (Form::Long, "", Err(0)),
    (Form::Any, "12", Ok((Some(12), 2))),
    (
        Form::Any,
        "-9223372036854775808",
        Ok((Some(-9_223_372_036_854_775_808), 20)),
    ),
    (Form::Any, "99999999999999999999", Ok((None, 20))),
    (Form::Any, "-99999999999999999999 1", Ok((None, 21))),
    (Form::Any, "-0", Err(1)),
    (Form::Any, "", Err(0)),
    (Form::Optional, "-", Ok((None, 1))),
    (Form::Optional, "-x", Ok((None, 1))),
    (Form::Optional, "-0", Ok((None, 1))),
    (Form::Optional, "-5", Ok((Some(-5), 2))),
    (Form::Optional, "0", Ok((Some(0), 1))),
    (Form::Optional, "-9223372036854775809", Err(19)),
    (Form::Optional, "x", Err(0)),
    (Form::Optional, "", Err(0)),
];

/// What is taken of the text.
fn taken(form: Form, text: &str) -> Result<(Option<i64>, usize), PieceRefusal> {
    match form {
        Form::Count => some(take_count(text, 0)),
        Form::Long => some(take_long(text, 0)),
        Form::Any => take_any_number(text, 0),
        Form::Optional => take_optional_long(text, 0),
    }
}

/// A number that is there.
fn some(read: Result<(i64, usize), PieceRefusal>) -> Result<(Option<i64>, usize), PieceRefusal> {
    let (number, after) = read?;
    Ok((Some(number), after))
}

/// Whether the line's text is taken as it says.
fn is_taken(line: &Line) -> bool {
    match (taken(line.0, line.1), line.2) {
        (Ok(read), Ok(wanted)) => read.0 == wanted.0 && read.1 == wanted.1,
        (Err(PieceRefusal::Syntax { place }), Err(wanted)) => place == wanted,
        _ => false,
    }
}

/// The number of the first line that is taken otherwise, counted from 0.
fn first_wrong(lines: &[Line]) -> Option<usize> {
    for number in 0..lines.len() {
        if !is_taken(&lines[number]) {
            return Some(number);
        }
    }
    None
}

#[test]
fn a_number_has_64_bits_and_one_spelling(rt: HostRuntime) {
    assert_eq!(rt; first_wrong_unsigned(&WITHOUT_SIGN), None);
    assert_eq!(rt; first_wrong(&WITH_SIGN), None);
}

/// A text, and the number of any size that it begins with.
type OfAnySize = (&'static str, Result<Signed, PieceRefusal>);

static PASSING: [OfAnySize; 7] = [
    ("12", Ok(Ok((12, 2)))),
    (
        "-9223372036854775808",
        Ok(Ok((-9_223_372_036_854_775_808, 20))),
    ),
    (
        "9223372036854775808,",
        Ok(Err(Passed {
            front: 922_337_203_685_477_580,
            place: 18,
            after: 19,
        })),
    ),
    (
        "922337203685477580700",
        Ok(Err(Passed {
            front: 9_223_372_036_854_775_807,
            place: 19,
            after: 21,
        })),
    ),
    (
        "-9223372036854775809",
        Ok(Err(Passed {
            front: -922_337_203_685_477_580,
            place: 19,
            after: 20,
        })),
    ),
    (
        "-92233720368547758080",
        Ok(Err(Passed {
            front: -9_223_372_036_854_775_808,
            place: 20,
            after: 21,
        })),
    ),
    ("-0", Err(PieceRefusal::Syntax { place: 1 })),
];

/// The number of the first text that is taken otherwise, counted from 0.
fn first_wrong_signed(lines: &[OfAnySize]) -> Option<usize> {
    for number in 0..lines.len() {
        if take_signed(lines[number].0, 0) != lines[number].1 {
            return Some(number);
        }
    }
    None
}

#[test]
fn a_number_past_64_bits_tells_what_stands_before_the_digit(rt: HostRuntime) {
    assert_eq!(rt; first_wrong_signed(&PASSING), None);
}

/// The least number with a sign, the largest one without, a number that is there, and none.
fn printed(alloc: Global) -> Result<String, AllocError> {
    let mut out = String::new(alloc);
    put_long(&mut out, -9_223_372_036_854_775_808)?;
    out.push_str(" ")?;
    put_unsigned(&mut out, 18_446_744_073_709_551_615)?;
    out.push_str(" ")?;
    put_optional_long(&mut out, Some(-70))?;
    out.push_str(" ")?;
    put_optional_long(&mut out, None)?;
    Ok(out)
}

#[test]
fn numbers_are_printed_in_decimal(rt: HostRuntime) -> Result<(), Fail> {
    assert_eq!(rt;
        printed(rt.alloc())?.as_str(),
        "-9223372036854775808 18446744073709551615 -70 -"
    );
    Ok(())
}
