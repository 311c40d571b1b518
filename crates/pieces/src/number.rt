//! Numbers in decimal.

ghost use Rattle.std.specs.Prelude.{◌≡◌, true, pos, ℕ, ◌+◌, ◌-◌, ◌*◌, ◌^◌, ◌≤◌, ◌≤ℤ◌, List, ◌++◌, length, drop, slice_get, Some, None, nat_lt, if◌then◌else◌, IfOk, OnOk, OnErr};
ghost use Rattle.std.specs.Fmt.{decimal, signed_decimal};
ghost use Rattle.std.specs.String.{string_bytes};
ghost use Rattle.pieces.specs.Number.{is_digit, digits, digits_from, begins, positive_at, natural_at, negative, value_of, after_of, signed_as, signed_at, no_more, unsigned_at, count_at, long_at, any_number_at, is_absent, optional_long_at, optional_text};

use crate::refusal::PieceRefusal;
use crate::word::stands;
use itoa::Buffer;
use std::alloc::AllocError;

/// The largest magnitude of a number of 64 bits with a minus sign.
const LARGEST_BELOW: u64 = 9_223_372_036_854_775_808;

/// The largest number of 64 bits with a sign.
const LARGEST: u64 = 9_223_372_036_854_775_807;

/// What digits make, read up to a most.
#[derive(Clone, Copy)]
pub enum Digits {
    /// A number that is no more than the most, and the place after its last digit.
    Within {
        value: u64,
        after: usize,
    },
    /// A number above the most: what the digits before the one that passes it make, the place of
    /// that digit, and the place after the last digit.
    Over {
        value: u64,
        place: usize,
        after: usize,
    },
}

/// A number past 64 bits. Places count bytes from 0.
#[derive(Clone, Copy, PartialEq, Eq)]
pub struct Passed {
    /// What its digits make before the one that passes 64 bits, with its sign.
    pub front: i64,
    /// The place of that digit.
    pub place: usize,
    /// The place after the last digit.
    pub after: usize,
}

/// A number of 64 bits with its sign and the place after it; or one past 64 bits.
pub type Signed = Result<(i64, usize), Passed>;

/// The number of 64 bits without sign at `place`, a byte offset from 0, and the place after it.
/// `Syntax`: no digit is there, or the number ends above 64 bits; the place of the digit that
/// passes them.
pub fn take_unsigned(text: &str, place: usize) -> Result<(u64, usize), PieceRefusal>
    requires { place ≤ length text.now }
    ensures exact { result ≡ unsigned_at text.now place }
    ensures within { IfOk result (λ read. (place ≤ read.1) × (read.1 ≤ length text.now)) }
{
    no_more(natural(text.as_bytes(), place, u64::MAX)?)
}

/// The number from 1 to the largest of 64 bits with a sign at `place`, a byte offset from 0, and
/// the place after it.
/// `Syntax`: no digit from 1 to 9 is there, or the place of the digit that passes 64 bits.
pub fn take_count(text: &str, place: usize) -> Result<(i64, usize), PieceRefusal>
    requires { place ≤ length text.now }
    ensures exact { result ≡ count_at text.now place }
    ensures within { IfOk result (λ read. (place ≤ read.1) × (read.1 ≤ length text.now)) }
    ensures some { IfOk result (λ read. pos 1 ≤ℤ read.0) }
{
    let (value, after) = no_more(positive(text.as_bytes(), place, LARGEST)?)?;
    Ok((above_zero(value), after))
}

/// The number of 64 bits with a sign at `place`, a byte offset from 0, and the place after it.
/// `Syntax`: no number is there, or the place of the digit that passes 64 bits.
pub fn take_long(text: &str, place: usize) -> Result<(i64, usize), PieceRefusal>
    requires { place ≤ length text.now }
    ensures exact { result ≡ long_at text.now place }
    ensures within { IfOk result (λ read. (place ≤ read.1) × (read.1 ≤ length text.now)) }
{
    match take_signed(text, place)? {
        Ok(read) => Ok(read),
        Err(passed) => Err(PieceRefusal::Syntax {
            place: passed.place as u64,
        }),
    }
}

/// The number at `place`, a byte offset from 0, and the place after it. `None`: it is not of 64
/// bits.
/// `Syntax`: no number is there.
pub fn take_any_number(text: &str, place: usize) -> Result<(Option<i64>, usize), PieceRefusal>
    requires { place ≤ length text.now }
    ensures exact { result ≡ any_number_at text.now place }
    ensures within { IfOk result (λ read. (place ≤ read.1) × (read.1 ≤ length text.now)) }
{
    match take_signed(text, place)? {
        Ok((number, after)) => Ok((Some(number), after)),
        Err(passed) => Ok((None, passed.after)),
    }
}

/// The number of any size at `place`, a byte offset from 0: one of 64 bits with the place after
/// it, or what is reported of one past them.
/// `Syntax`: no number is there.
pub fn take_signed(text: &str, place: usize) -> Result<Signed, PieceRefusal>
    requires { place ≤ length text.now }
    ensures exact { result ≡ signed_at text.now place }
    ensures within { IfOk result
        (λ read. (place ≤ after_of read) × (after_of read ≤ length text.now)) }
{
    if stands(text.as_bytes(), place, b'-') {
        return Ok(signed_below(positive(text.as_bytes(), place + 1, LARGEST_BELOW)?));
    }
    Ok(signed_above(natural(text.as_bytes(), place, LARGEST)?))
}

/// The number of 64 bits with a sign at `place`, a byte offset from 0, and the place after it.
/// `None`: a minus sign is there alone.
/// `Syntax`: neither is there, or the place of the digit that passes 64 bits.
pub fn take_optional_long(text: &str, place: usize) -> Result<(Option<i64>, usize), PieceRefusal>
    requires { place ≤ length text.now }
    ensures exact { result ≡ optional_long_at text.now place }
    ensures within { IfOk result (λ read. (place ≤ read.1) × (read.1 ≤ length text.now)) }
{
    if is_absent(text.as_bytes(), place) {
        return Ok((None, place + 1));
    }
    let (number, after) = take_long(text, place)?;
    Ok((Some(number), after))
}

/// Whether a minus sign is at `place`, a byte offset from 0, that is no number's.
pub fn is_absent(bytes: &[u8], place: usize) -> bool
    requires { place ≤ length bytes.now }
    ensures { result ≡ is_absent bytes.now place }
{
    stands(bytes, place, b'-') && !begins_there(bytes, place + 1)
}

/// Appends the number to `out`. An `Err` says that memory ran out, and leaves `out` as it was.
pub fn put_long(out: &mut String, number: i64) -> Result<(), AllocError>
    ensures ok { OnOk result (string_bytes out.new ≡ string_bytes out.old ++ signed_decimal number) }
    ensures unchanged { OnErr result (string_bytes out.new ≡ string_bytes out.old) }
{
    out.push_str(Buffer::new().format(number))
}

/// Appends the number to `out`. An `Err` says that memory ran out, and leaves `out` as it was.
pub fn put_unsigned(out: &mut String, number: u64) -> Result<(), AllocError>
    ensures ok { OnOk result (string_bytes out.new ≡ string_bytes out.old ++ decimal number) }
    ensures unchanged { OnErr result (string_bytes out.new ≡ string_bytes out.old) }
{
    out.push_str(Buffer::new().format(number))
}

/// Appends the number to `out`, or a minus sign if there is none. An `Err` says that memory ran
/// out, and leaves `out` as it was.
pub fn put_optional_long(out: &mut String, number: Option<i64>) -> Result<(), AllocError>
    ensures ok { OnOk result (string_bytes out.new ≡ string_bytes out.old ++ optional_text number) }
    ensures unchanged { OnErr result (string_bytes out.new ≡ string_bytes out.old) }
{
    match number {
        Some(number) => put_long(out, number),
        None => out.push_str("-"),
    }
}

/// What digits no more than the most make.
fn no_more(digits: Digits) -> Result<(u64, usize), PieceRefusal>
    ensures { result ≡ no_more digits }
{
    match digits {
        Digits::Within { value, after } => Ok((value, after)),
        Digits::Over { place, .. } => Err(PieceRefusal::Syntax {
            place: place as u64,
        }),
    }
}

/// What digits make after a minus sign.
fn signed_below(digits: Digits) -> Signed
    requires { value_of digits ≤ 2 ^ 63 }
    ensures { result ≡ signed_as negative digits }
{
    match digits {
        Digits::Within { value, after } => Ok((below_zero(value), after)),
        Digits::Over {
            value,
            place,
            after,
        } => Err(Passed {
            front: below_zero(value),
            place,
            after,
        }),
    }
}

/// What digits make after no sign.
fn signed_above(digits: Digits) -> Signed
    requires { value_of digits ≤ 2 ^ 63 - 1 }
    ensures { result ≡ signed_as pos digits }
{
    match digits {
        Digits::Within { value, after } => Ok((above_zero(value), after)),
        Digits::Over {
            value,
            place,
            after,
        } => Err(Passed {
            front: above_zero(value),
            place,
            after,
        }),
    }
}

/// The number so far above 0.
fn above_zero(value: u64) -> i64
    requires { value ≤ 2 ^ 63 - 1 }
    ensures { result ≡ pos value }
{
    value as i64
}

/// The number so far below 0.
fn below_zero(value: u64) -> i64
    requires { value ≤ 2 ^ 63 }
    ensures { result ≡ negative value }
{
    if value == 0 {
        return 0;
    }
    -1 - (value - 1) as i64
}

/// The number from 0 to the most at the place.
fn natural(bytes: &[u8], place: usize, most: u64) -> Result<Digits, PieceRefusal>
    requires { place ≤ length bytes.now }
    ensures exact { result ≡ natural_at most bytes.now place }
{
    if stands(bytes, place, b'0') {
        return Ok(Digits::Within {
            value: 0,
            after: place + 1,
        });
    }
    positive(bytes, place, most)
}

/// The number from 1 to the most at the place.
fn positive(bytes: &[u8], place: usize, most: u64) -> Result<Digits, PieceRefusal>
    requires { place ≤ length bytes.now }
    ensures exact { result ≡ positive_at most bytes.now place }
{
    if begins_there(bytes, place) {
        Ok(take_digits(bytes, place, most))
    } else {
        Err(PieceRefusal::Syntax {
            place: place as u64,
        })
    }
}

/// Whether a digit other than 0 stands at the place.
fn begins_there(bytes: &[u8], place: usize) -> bool
    ensures { result ≡ begins (slice_get bytes.now place) }
{
    place < bytes.len() && b'0' < bytes[place] && bytes[place] <= b'9'
}

/// What the digits at the place make, up to the most.
#[tactic(auto, using(crate::proofs::NumberLemmas::digits_from_steps))]
fn take_digits(bytes: &[u8], place: usize, most: u64) -> Digits
    requires { place ≤ length bytes.now }
    ensures { result ≡ digits_from most 0 (drop place bytes.now) place }
{
    let mut value = 0;
    for at in place..bytes.len() {
        if !is_digit(bytes[at]) {
            return Digits::Within { value, after: at };
        }
        match with_digit(value, bytes[at], most) {
            Some(next) => value = next,
            None => {
                let after = skip_digits(bytes, at + 1);
                return Digits::Over {
                    value,
                    place: at,
                    after,
                };
            }
        }
    }
    Digits::Within {
        value,
        after: bytes.len(),
    }
}

/// What the value is with one more digit; `None`: it is above the most.
fn with_digit(value: u64, byte: u8, most: u64) -> Option<u64>
    requires { is_digit byte ≡ true }
    ensures { result ≡ (if nat_lt most (value * 10 + (byte - 48)) then None
        else Some (value * 10 + (byte - 48))) }
{
    if value > most / 10 {
        return None;
    }
    let digit = u64::from(byte - b'0');
    if digit > most - value * 10 {
        return None;
    }
    Some(value * 10 + digit)
}

/// The place after all digits at the place.
#[tactic(auto, using(crate::proofs::NumberLemmas::digits_steps))]
fn skip_digits(bytes: &[u8], place: usize) -> usize
    requires { place ≤ length bytes.now }
    ensures { result ≡ place + digits (drop place bytes.now) }
{
    for at in place..bytes.len() {
        if !is_digit(bytes[at]) {
            return at;
        }
    }
    bytes.len()
}

/// Whether the byte is a digit.
fn is_digit(byte: u8) -> bool
    ensures { result ≡ is_digit byte }
{
    b'0' <= byte && byte <= b'9'
}
