//! Reading what holds no other value: numbers, booleans, bytes and texts.

ghost use Rattle.std.specs.Prelude.{◌≡◌, ◌<◌, ◌≤◌, true, pos, length, slice_get, slice_range, Ok, IfOk, is_ok};
ghost use Rattle.std.specs.Str.{is_utf8};
ghost use Rattle.words.specs.Reading.{Gives, never, map_value};
ghost use Rattle.avro_wire.specs.Number.{long, int};
ghost use Rattle.datum_tree.specs.declared.datum.Datum.TheVariants as datums;
ghost use Rattle.datum_reading.specs.Refusal.{is_memory, wire_refusal};
ghost use Rattle.datum_reading.specs.Reading.{moved, number_from, num_at, flag_at, raw_at, sized_at, text_at, choice_at};

use crate::cursor::Cursor;
use crate::refusal::DatumRefusal;
use avro_wire::{Bytes, Text, WireRefusal, take_bytes, take_int, take_long, text_of};
use datum_tree::Datum;
use std::alloc::Global;

/// What a refused number or length is called.
#[inline(always)]
fn refusal_of(refusal: WireRefusal) -> DatumRefusal
    ensures { result ≡ wire_refusal refusal }
{
    match refusal {
        WireRefusal::Short { place } => DatumRefusal::Short { place },
        WireRefusal::TooLong { place } => DatumRefusal::TooLong { place },
    }
}

/// A cursor at `place`, with as many items as `at` counted.
#[inline(always)]
fn moved_to(at: Cursor, place: usize) -> Cursor
    ensures { result ≡ moved at place }
{
    Cursor {
        place,
        items: at.items,
    }
}

/// The long at the cursor, and the cursor after it. Avro spec, "Primitive Types".
#[inline(always)]
#[tactic(auto, unfolding(crate::specs::Reading::number_from))]
pub fn take_long_at(input: &[u8], at: Cursor) -> Result<(i64, Cursor), DatumRefusal>
    requires { at.place ≤ length input.now }
    ensures exact { Gives never (λ taken. taken) result (number_from long input.now at) }
    ensures within { IfOk result (λ taken.
        (at.place < taken.1.place) × (taken.1.place ≤ length input.now)) }
{
    match take_long(input, at.place) {
        Ok((number, after)) => Ok((number, moved_to(at, after))),
        Err(refusal) => Err(refusal_of(refusal)),
    }
}

/// The int at the cursor, and the cursor after it. Avro spec, "Primitive Types".
#[inline(always)]
#[tactic(auto, unfolding(crate::specs::Reading::number_from))]
pub fn take_int_at(input: &[u8], at: Cursor) -> Result<(i32, Cursor), DatumRefusal>
    requires { at.place ≤ length input.now }
    ensures exact { Gives never (λ taken. taken) result (number_from int input.now at) }
    ensures within { IfOk result (λ taken.
        (at.place < taken.1.place) × (taken.1.place ≤ length input.now)) }
{
    match take_int(input, at.place) {
        Ok((number, after)) => Ok((number, moved_to(at, after))),
        Err(refusal) => Err(refusal_of(refusal)),
    }
}

/// The boolean at the cursor, and the cursor after it. Avro spec, "Primitive Types".
#[inline(always)]
pub fn take_flag(input: &[u8], at: Cursor) -> Result<(bool, Cursor), DatumRefusal>
    requires { at.place ≤ length input.now }
    ensures exact { Gives never (λ taken. (datums.Flag taken.0, taken.1)) result
        (flag_at (slice_get input.now at.place) at) }
    ensures within { IfOk result (λ taken.
        (at.place ≤ taken.1.place) × (taken.1.place ≤ length input.now)) }
{
    let place = at.place as u64;
    if at.place >= input.len() {
        return Err(DatumRefusal::Short { place });
    }
    match input[at.place] {
        0 => Ok((false, moved_to(at, at.place + 1))),
        1 => Ok((true, moved_to(at, at.place + 1))),
        _ => Err(DatumRefusal::Flag { place }),
    }
}

/// Where so many bytes end.
#[tactic(auto, unfolding(crate::specs::Reading::raw_at))]
pub fn pass_raw(size: u64, input: &[u8], at: Cursor) -> Result<Cursor, DatumRefusal>
    requires { at.place ≤ length input.now }
    ensures exact { Gives never
        (λ after. (datums.Raw (slice_range input.now at.place after.place), after))
        result (raw_at size input.now at) }
    ensures within { IfOk result (λ after.
        (at.place ≤ after.place) × (after.place ≤ length input.now)) }
{
    if ((input.len() - at.place) as u64) < size {
        return Err(DatumRefusal::Short {
            place: at.place as u64,
        });
    }
    Ok(moved_to(at, at.place + size as usize))
}

/// The bytes at the cursor, which stand after their length: where they start, and the cursor
/// after them. Avro spec, "Primitive Types".
#[inline(always)]
#[tactic(auto, unfolding(crate::specs::Reading::sized_at))]
pub fn pass_sized(input: &[u8], at: Cursor) -> Result<(usize, Cursor), DatumRefusal>
    requires { at.place ≤ length input.now }
    ensures exact { Gives never
        (λ taken. (slice_range input.now taken.0 taken.1.place, taken.1))
        result (sized_at input.now at) }
    ensures within { IfOk result (λ taken. (at.place < taken.0)
        × (taken.0 ≤ taken.1.place) × (taken.1.place ≤ length input.now)) }
{
    match take_bytes(input, at.place) {
        Ok((start, end)) => Ok((start, moved_to(at, end))),
        Err(refusal) => Err(refusal_of(refusal)),
    }
}

/// The text at the cursor, borrowed from the input, and the cursor after it. `Utf8` names where its
/// length begins. Avro spec, "Primitive Types".
#[inline(always)]
#[tactic(auto, unfolding(crate::specs::Reading::text_at))]
pub fn take_text<'a>(input: &'a [u8], at: Cursor) -> Result<(&'a str, Cursor), DatumRefusal>
    requires { at.place ≤ length input.now }
    ensures exact { Gives never (λ taken. (taken.0.now, taken.1)) result (text_at input.now at) }
    ensures within { IfOk result (λ taken.
        (at.place < taken.1.place) × (taken.1.place ≤ length input.now)) }
{
    let (start, after) = pass_sized(input, at)?;
    match text_of(&input[start..after.place]) {
        Some(text) => Ok((text, after)),
        None => Err(DatumRefusal::Utf8 {
            place: at.place as u64,
        }),
    }
}

/// The same of a text that was checked. Its bytes aren't tested again.
#[inline(always)]
pub fn take_known_text<'a>(input: &'a [u8], at: Cursor) -> (&'a str, Cursor)
    requires start { at.place ≤ length input.now }
    requires known { is_ok (text_at input.now at) ≡ true }
    ensures exact { text_at input.now at ≡ Ok (result.0.now, result.1) }
    ensures within { (at.place < result.1.place) × (result.1.place ≤ length input.now) }
{
    match pass_sized(input, at) {
        Ok((start, after)) => (checked_text(&input[start..after.place]), after),
        Err(_) => unreachable!(),
    }
}

/// The bytes as text, which they are.
#[inline(always)]
fn checked_text(bytes: &[u8]) -> &str
    requires { is_utf8 bytes.now ≡ true }
    ensures { result.now ≡ bytes.now }
{
    unsafe { str::from_utf8_unchecked(bytes) }
}

/// The place of a union's branch or of an enum's symbol at the cursor, counted from 0, of `count`.
/// Beside it the cursor after it. Avro spec, "Unions"; "Enums".
#[inline(always)]
#[tactic(auto, unfolding(crate::specs::Reading::choice_at))]
pub fn take_choice(many: usize, input: &[u8], at: Cursor) -> Result<(u32, Cursor), DatumRefusal>
    requires { at.place ≤ length input.now }
    ensures exact { Gives never (λ taken. taken) result (choice_at many input.now at) }
    ensures below { IfOk result (λ taken. taken.0 < many) }
    ensures within { IfOk result (λ taken.
        (at.place < taken.1.place) × (taken.1.place ≤ length input.now)) }
{
    let (number, after) = take_int_at(input, at)?;
    if number < 0 || number as u64 >= many as u64 {
        return Err(DatumRefusal::Branch {
            place: at.place as u64,
        });
    }
    Ok((number as u32, after))
}

/// A boolean, as a value.
pub fn read_flag(input: &[u8], at: Cursor) -> Result<(Datum, Cursor), DatumRefusal>
    requires { at.place ≤ length input.now }
    ensures exact { Gives is_memory (λ read. read) result
        (flag_at (slice_get input.now at.place) at) }
    ensures within { IfOk result (λ read.
        (at.place ≤ read.1.place) × (read.1.place ≤ length input.now)) }
{
    let (flag, after) = take_flag(input, at)?;
    Ok((Datum::Flag(flag), after))
}

/// A number of 32 bits, as a value.
pub fn read_int(input: &[u8], at: Cursor) -> Result<(Datum, Cursor), DatumRefusal>
    requires { at.place ≤ length input.now }
    ensures exact { Gives is_memory (λ read. read) result (num_at int input.now at) }
    ensures within { IfOk result (λ read.
        (at.place ≤ read.1.place) × (read.1.place ≤ length input.now)) }
{
    let (number, after) = take_int_at(input, at)?;
    Ok((Datum::Num(i64::from(number)), after))
}

/// A number of 64 bits, as a value.
pub fn read_long(input: &[u8], at: Cursor) -> Result<(Datum, Cursor), DatumRefusal>
    requires { at.place ≤ length input.now }
    ensures exact { Gives is_memory (λ read. read) result (num_at long input.now at) }
    ensures within { IfOk result (λ read.
        (at.place ≤ read.1.place) × (read.1.place ≤ length input.now)) }
{
    let (number, after) = take_long_at(input, at)?;
    Ok((Datum::Num(number), after))
}

/// `count` bytes, as a value.
pub fn read_raw(
    alloc: Global,
    size: u64,
    input: &[u8],
    at: Cursor,
) -> Result<(Datum, Cursor), DatumRefusal>
    requires { at.place ≤ length input.now }
    ensures exact { Gives is_memory (λ read. read) result (raw_at size input.now at) }
    ensures within { IfOk result (λ read.
        (at.place ≤ read.1.place) × (read.1.place ≤ length input.now)) }
{
    let after = pass_raw(size, input, at)?;
    let bytes = Bytes::from_slice(alloc, &input[at.place..after.place])?;
    Ok((Datum::Raw(bytes), after))
}

/// Bytes after their length, as a value.
pub fn read_sized(alloc: Global, input: &[u8], at: Cursor) -> Result<(Datum, Cursor), DatumRefusal>
    requires { at.place ≤ length input.now }
    ensures exact { Gives is_memory (λ read. read) result
        (map_value (λ read. (datums.Raw read.0, read.1)) (sized_at input.now at)) }
    ensures within { IfOk result (λ read.
        (at.place ≤ read.1.place) × (read.1.place ≤ length input.now)) }
{
    let (start, after) = pass_sized(input, at)?;
    let bytes = Bytes::from_slice(alloc, &input[start..after.place])?;
    Ok((Datum::Raw(bytes), after))
}

/// A text of its own.
pub fn read_text(alloc: Global, input: &[u8], at: Cursor) -> Result<(Text, Cursor), DatumRefusal>
    requires { at.place ≤ length input.now }
    ensures exact { Gives is_memory (λ read. read) result (text_at input.now at) }
    ensures within { IfOk result (λ read.
        (at.place ≤ read.1.place) × (read.1.place ≤ length input.now)) }
{
    let (text, after) = take_text(input, at)?;
    Ok((Text::from_str(alloc, text)?, after))
}

/// A text after its length, as a value.
pub fn read_string(alloc: Global, input: &[u8], at: Cursor) -> Result<(Datum, Cursor), DatumRefusal>
    requires { at.place ≤ length input.now }
    ensures exact { Gives is_memory (λ read. read) result
        (map_value (λ read. (datums.Str read.0, read.1)) (text_at input.now at)) }
    ensures within { IfOk result (λ read.
        (at.place ≤ read.1.place) × (read.1.place ≤ length input.now)) }
{
    let (text, after) = read_text(alloc, input, at)?;
    Ok((Datum::Str(text), after))
}

/// The place of a symbol, of `count`, as a value.
pub fn read_symbol(many: usize, input: &[u8], at: Cursor) -> Result<(Datum, Cursor), DatumRefusal>
    requires { at.place ≤ length input.now }
    ensures exact { Gives is_memory (λ read. read) result
        (map_value (λ read. (datums.Num (pos read.0), read.1)) (choice_at many input.now at)) }
    ensures within { IfOk result (λ read.
        (at.place ≤ read.1.place) × (read.1.place ≤ length input.now)) }
{
    let (choice, after) = take_choice(many, input, at)?;
    Ok((Datum::Num(i64::from(choice)), after))
}
