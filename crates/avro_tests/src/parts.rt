//! The parts of a value, as tables name them.

use avro_datum::Datum;
use avro_wire::Text;

/// A part of a value. A value is a list of parts: its own, and behind it those of what it holds.
pub enum Part {
    Null,
    Flag(bool),
    Num(i64),
    Raw(&'static [u8]),
    Str(&'static str),
    /// The place of a branch. Its value comes next.
    Branch(u32),
    /// How many fields there are. Their values come next.
    Rec(usize),
    /// How many items there are. They come next.
    Array(usize),
    /// How many pairs there are. They come next, each a text and a value.
    Map(usize),
}

/// Whether the part is the value's own.
fn is_own(datum: &Datum, part: &Part) -> bool {
    match part {
        Part::Null => match datum {
            Datum::Null => true,
            _ => false,
        },
        Part::Flag(wanted) => match datum {
            Datum::Flag(flag) => *flag == *wanted,
            _ => false,
        },
        Part::Num(wanted) => match datum {
            Datum::Num(number) => *number == *wanted,
            _ => false,
        },
        Part::Raw(wanted) => match datum {
            Datum::Raw(bytes) => bytes.as_slice() == *wanted,
            _ => false,
        },
        Part::Str(wanted) => match datum {
            Datum::Str(text) => text.as_str() == *wanted,
            _ => false,
        },
        Part::Branch(wanted) => match datum {
            Datum::Branch(place, _) => *place == *wanted,
            _ => false,
        },
        Part::Rec(wanted) => match datum {
            Datum::Rec(values) => values.len() == *wanted,
            _ => false,
        },
        Part::Array(wanted) => match datum {
            Datum::Array(items) => items.len() == *wanted,
            _ => false,
        },
        Part::Map(wanted) => match datum {
            Datum::Map(pairs) => pairs.len() == *wanted,
            _ => false,
        },
    }
}

/// Where the parts of the value end, of those from `at` on. `None`: they are those of another value.
#[cycle(pass)]
fn pass_value(datum: &Datum, parts: &[Part], at: usize) -> Option<usize> {
    if at >= parts.len() || !is_own(datum, &parts[at]) {
        return None;
    }
    match datum {
        Datum::Branch(_, inside) => pass_value(inside.get(), parts, at + 1),
        Datum::Rec(values) => pass_values(values.as_slice(), parts, at + 1),
        Datum::Array(items) => pass_values(items.as_slice(), parts, at + 1),
        Datum::Map(pairs) => pass_pairs(pairs.as_slice(), parts, at + 1),
        _ => Some(at + 1),
    }
}

/// Where the parts of the values end, of those from `at` on.
#[cycle(pass)]
fn pass_values(values: &[Datum], parts: &[Part], at: usize) -> Option<usize> {
    let mut at = at;
    for value in values {
        at = pass_value(value, parts, at)?;
    }
    Some(at)
}

/// Where the parts of the pairs end, of those from `at` on.
#[cycle(pass)]
fn pass_pairs(pairs: &[(Text, Datum)], parts: &[Part], at: usize) -> Option<usize> {
    let mut at = at;
    for pair in pairs {
        let behind = pass_text(&pair.0, parts, at)?;
        at = pass_value(&pair.1, parts, behind)?;
    }
    Some(at)
}

/// Where the part of the text ends, which is the one at `at`.
fn pass_text(text: &Text, parts: &[Part], at: usize) -> Option<usize> {
    if at >= parts.len() {
        return None;
    }
    match &parts[at] {
        Part::Str(wanted) if *wanted == text.as_str() => Some(at + 1),
        _ => None,
    }
}

/// Whether the parts are those of the value, all of them.
pub fn are_parts_of(parts: &[Part], datum: &Datum) -> bool {
    pass_value(datum, parts, 0) == Some(parts.len())
}
