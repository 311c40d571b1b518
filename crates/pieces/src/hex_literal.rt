//! Bytes in hexadecimal.

ghost use Rattle.std.specs.Prelude.{◌≡◌, ◌+◌, ◌<◌, ◌≤◌, ℕ, nat_lt, true, List, ◌∷◌, [], ◌++◌, Ok, Some, None, length, drop, slice_get, slice_index, IfOk, OnOk, IfSome, MatchOption};
ghost use Rattle.std.specs.List.{list_all};
ghost use Rattle.std.specs.Option.{option_and_then};
ghost use Rattle.words.specs.Reading.{Gives};
ghost use Rattle.pieces.specs.Refusal.{is_memory};
ghost use Rattle.pieces.specs.HexLiteral.{hex_digit as hex_digit_of, pairs_at, hex_at};

use crate::literal::stops_at;
use crate::refusal::PieceRefusal;
use crate::word::take_byte;
use avro_wire::Bytes;
use std::alloc::{AllocError, Global};

/// The bytes that the x and the digits at `place` stand for, and the place after the last digit.
pub fn take_hex(alloc: Global, text: &str, place: usize) -> Result<(Bytes, usize), PieceRefusal>
    requires { place ≤ length text.now }
    ensures exact { Gives is_memory (λ read. read) result (hex_at text.now place) }
    ensures within { IfOk result (λ read. (place ≤ read.1) × (read.1 ≤ length text.now)) }
    ensures bytes { IfOk result (λ read. list_all (λ byte. nat_lt byte 256) read.0 ≡ true) }
{
    let start = take_byte(text, place, b'x')?;
    let mut read = Vec::new(alloc);
    let after = take_pairs(&mut read, text.as_bytes(), start)?;
    let bytes = Bytes::from_slice(alloc, read.as_slice())?;
    Ok((bytes, after))
}

/// Appends the bytes of the pairs of digits from `start` on to `read`: the place after them.
fn take_pairs(read: &mut Vec<u8>, text: &[u8], start: usize) -> Result<usize, PieceRefusal>
    requires { start ≤ length text.now }
    ensures exact { Gives is_memory (λ after. (read.new.items, after)) result
        (pairs_at None read.old.items (drop start text.now) start) }
    ensures within { IfOk result (λ after. (start ≤ after) × (after ≤ length text.now)) }
{
    let mut at = start;
    while let Some(high) = digit_at(text, at) {
        let Some(low) = digit_at(text, at + 1) else {
            return Err(stops_at(at + 1));
        };
        put_byte(read, high * 16 + low)?;
        at += 2;
    }
    Ok(at)
}

/// The byte after `read`.
fn put_byte(read: &mut Vec<u8>, byte: u8) -> Result<(), AllocError>
    ensures { OnOk result (read.new.items ≡ read.old.items ++ byte ∷ []) }
{
    Ok(read.push(byte)?)
}

/// The value of the digit at `place`, if one is there.
fn digit_at(text: &[u8], place: usize) -> Option<u8>
    requires { place ≤ length text.now }
    ensures small { IfSome result (λ digit. (place < length text.now) × (digit < 16)) }
    ensures value { result ≡ option_and_then hex_digit_of (slice_get text.now place) }
{
    if place < text.len() {
        hex_digit(text[place])
    } else {
        None
    }
}

/// The value of a digit.
fn hex_digit(byte: u8) -> Option<u8>
    ensures small { IfSome result (λ digit. digit < 16) }
    ensures value { result ≡ hex_digit_of byte }
{
    match byte {
        b'0'..=b'9' => Some(byte - b'0'),
        b'a'..=b'f' => Some(byte - b'a' + 10),
        _ => None,
    }
}
