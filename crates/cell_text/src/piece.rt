//! Pieces put into a slice at a place, if there is room.

ghost use Rattle.std.specs.Prelude.{◌≡◌, ◌+◌, ◌<◌, ◌≤◌, ◌++◌, length, take};
ghost use Rattle.std.specs.Fmt.{decimal, signed_decimal};

use itoa::write_digits;

/// Puts the piece at the place `at`, and returns the place after it.
#[inline(always)]
pub fn put_piece(room: &mut [u8], at: usize, piece: &[u8]) -> usize
    requires fits { at + length piece.now ≤ length room.old }
    ensures put { take result room.new ≡ take at room.old ++ piece.now }
    ensures len { length room.new ≡ length room.old }
    ensures place { result ≡ at + length piece.now }
{
    let end = at + piece.len();
    room[at..end].copy_from_slice(piece);
    end
}

/// Puts the number in decimal at the place `at`, and returns the place after it.
pub fn put_number(room: &mut [u8], at: usize, number: i64) -> usize
    requires fits { at + 20 ≤ length room.old }
    ensures put { take result room.new ≡ take at room.old ++ signed_decimal number }
    ensures len { length room.new ≡ length room.old }
    ensures within { result ≤ at + 20 }
{
    let magnitude = number.unsigned_abs();
    if number < 0 {
        let start = put_piece(room, at, b"-");
        return put_decimal(room, start, magnitude);
    }
    put_decimal(room, at, magnitude)
}

/// Puts the digits of the number.
#[inline(always)]
fn put_decimal(room: &mut [u8], at: usize, number: u64) -> usize
    requires fits { at + length (decimal number) ≤ length room.old }
    ensures put { take result room.new ≡ take at room.old ++ decimal number }
    ensures len { length room.new ≡ length room.old }
    ensures place { result ≡ at + length (decimal number) }
{
    let end = at + digit_count(number);
    write_digits(number, room, end);
    end
}

/// How many digits the number has.
#[inline(always)]
fn digit_count(number: u64) -> usize
    ensures { result ≡ length (decimal number) }
{
    let mut left = number;
    let mut count = 0;
    while left >= 10_000 {
        left /= 10_000;
        count += 4;
    }
    count + short_count(left)
}

/// The same of a number below 10,000.
#[inline(always)]
fn short_count(number: u64) -> usize
    requires { number < 10000 }
    ensures { result ≡ length (decimal number) }
{
    if number < 10 {
        return 1;
    }
    if number < 100 {
        return 2;
    }
    if number < 1_000 {
        return 3;
    }
    4
}
