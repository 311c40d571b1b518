//! A text as it is written between quotes, in blocks of eight bytes.

ghost use Rattle.std.specs.Prelude.{◌≡◌, ◌==◌, ℕ, ◌+◌, ◌*◌, ◌<◌, ◌≤◌, false, [], ◌∷◌, ◌++◌, length, take, slice_index};
ghost use Rattle.std.specs.Bool.{OnTrue};
ghost use Rattle.std.specs.List.{flat_map};
ghost use Rattle.pieces.specs.Literal.{escape as escape_of};

use crate::piece::put_piece;
use std::simd::prelude::*;

/// Puts the text as it is written between quotes at the place `at`, without the quotes, and returns
/// the place after it. A part of a text has a part of its text, so a long one may be put in parts.
pub fn put_escaped(room: &mut [u8], at: usize, text: &[u8]) -> usize
    requires fits { at + 2 * length text.now ≤ length room.old }
    ensures put { take result room.new ≡ take at room.old ++ flat_map escape_of text.now }
    ensures len { length room.new ≡ length room.old }
    ensures within { result ≤ at + 2 * length text.now }
{
    let mut to = at;
    let mut from = 0;
    while from < text.len() {
        if text.len() - from >= 8 && are_plain(text, from) {
            to = put_piece(room, to, &text[from..from + 8]);
            from += 8;
            continue;
        }
        to = put_byte(room, to, text[from]);
        from += 1;
    }
    to
}

/// Whether the eight bytes at the place all stand for themselves.
#[inline(always)]
fn are_plain(text: &[u8], at: usize) -> bool
    requires { at + 8 ≤ length text.now }
    ensures { OnTrue result ((k : ℕ) → at ≤ k → k < at + 8
        → escape_of (slice_index text.now k) ≡ slice_index text.now k ∷ []) }
{
    lacks(text, at, b'"')
        && lacks(text, at, b'\\')
        && lacks(text, at, b'\n')
        && lacks(text, at, b'\r')
        && lacks(text, at, b'\t')
}

/// Whether none of the eight bytes at the place is this one.
#[inline(always)]
fn lacks(text: &[u8], at: usize, byte: u8) -> bool
    requires { at + 8 ≤ length text.now }
    ensures { OnTrue result ((k : ℕ) → at ≤ k → k < at + 8
        → (slice_index text.now k == byte) ≡ false) }
{
    let hits = u8x8::from_slice(&text[at..])
        .simd_eq(u8x8::splat(byte))
        .to_bitmask();
    if hits != 0 {
        return false;
    }
    true
}

/// Puts the byte as it is written between quotes.
#[inline(always)]
fn put_byte(room: &mut [u8], at: usize, byte: u8) -> usize
    requires { at + 2 ≤ length room.old }
    ensures put { take result room.new ≡ take at room.old ++ escape_of byte }
    ensures len { length room.new ≡ length room.old }
    ensures within { result ≤ at + 2 }
{
    match byte {
        b'"' => put_piece(room, at, b"\\\""),
        b'\\' => put_piece(room, at, b"\\\\"),
        b'\n' => put_piece(room, at, b"\\n"),
        b'\r' => put_piece(room, at, b"\\r"),
        b'\t' => put_piece(room, at, b"\\t"),
        _ => put_piece(room, at, &[byte]),
    }
}
