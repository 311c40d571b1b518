//! The takes: the item at a place of the input, and the place after it.

ghost use Rattle.std.specs.Prelude.{◌≡◌, ℕ, ◌+◌, ◌-◌, ◌*◌, ◌%◌, ◌^◌, ◌<◌, ◌≤◌, ◌↔◌, ℤ, pos, false, List, ◌++◌, length, drop, slice_range, Ok, Err, IfOk};
ghost use Rattle.words.specs.Reading.{Gives};
ghost use Rattle.avro_wire.specs.Number.{Bounds, long, int, unzigzag as number_of, SpellsNumber, EndsInside, IsTooLong, EndsInsideBytes, IsNoLength};
ghost use Rattle.avro_wire.specs.Reading.{groups_at, number_at, bytes_at};

use crate::refusal::WireRefusal;

/// The most bytes that a long may take.
const LONG_BYTES: usize = 10;

/// The most bytes that an int may take.
const INT_BYTES: usize = 5;

/// The largest value of an int's groups.
const INT_LARGEST: u64 = 4_294_967_295;

/// The number of 64 bits at `place`, a byte offset from 0, and the place after it.
/// `Short`: the input ends inside the number.
/// `TooLong`: the number takes more than ten bytes, or its value doesn't fit 64 bits.
/// Avro spec, "Binary encoding".
#[inline(always)]
pub fn take_long(input: &[u8], place: usize) -> Result<(i64, usize), WireRefusal>
    requires { place ≤ length input.now }
    ensures exact { Gives (λ _. false) (λ x. x) result (number_at long input.now place) }
    ensures within { IfOk result (λ taken. (place < taken.1) × (taken.1 ≤ length input.now)) }
    // The number is what its bytes spell, and whatever is spelled is taken.
    ensures found { IfOk result (λ taken.
        SpellsNumber long (slice_range input.now place taken.1) taken.0) }
    ensures only { (bytes after : List ℕ) (value : ℤ) → drop place input.now ≡ bytes ++ after
        → SpellsNumber long bytes value → result ≡ Ok (value, place + length bytes) }
    // When each refusal comes.
    ensures short { (result ≡ Err (WireRefusal.Short place))
        ↔ EndsInside long (drop place input.now) }
    ensures too_long { (result ≡ Err (WireRefusal.TooLong place))
        ↔ IsTooLong long (drop place input.now) }
{
    long_at(input, place)
}

/// The number of 32 bits at `place`, a byte offset from 0, and the place after it.
/// `Short`: the input ends inside the number.
/// `TooLong`: the number takes more than five bytes, or its value doesn't fit 32 bits.
/// Avro spec, "Binary encoding".
#[inline(always)]
pub fn take_int(input: &[u8], place: usize) -> Result<(i32, usize), WireRefusal>
    requires { place ≤ length input.now }
    ensures exact { Gives (λ _. false) (λ x. x) result (number_at int input.now place) }
    ensures within { IfOk result (λ taken. (place < taken.1) × (taken.1 ≤ length input.now)) }
    // The number is what its bytes spell, and whatever is spelled is taken.
    ensures found { IfOk result (λ taken.
        SpellsNumber int (slice_range input.now place taken.1) taken.0) }
    ensures only { (bytes after : List ℕ) (value : ℤ) → drop place input.now ≡ bytes ++ after
        → SpellsNumber int bytes value → result ≡ Ok (value, place + length bytes) }
    // When each refusal comes.
    ensures short { (result ≡ Err (WireRefusal.Short place))
        ↔ EndsInside int (drop place input.now) }
    ensures too_long { (result ≡ Err (WireRefusal.TooLong place))
        ↔ IsTooLong int (drop place input.now) }
{
    int_at(input, place)
}

/// Where the bytes after the length at `place` start, and where they end, counted in bytes from 0.
/// `Short`: the input ends inside the length, or before the last byte that it promises.
/// `TooLong`: the length is no number of 64 bits, or is negative.
/// Avro spec, "Binary encoding".
#[inline(always)]
pub fn take_bytes(input: &[u8], place: usize) -> Result<(usize, usize), WireRefusal>
    requires { place ≤ length input.now }
    ensures exact { Gives (λ _. false) (λ x. x) result (bytes_at input.now place) }
    ensures within { IfOk result (λ taken.
        (place < taken.0) × (taken.0 ≤ taken.1) × (taken.1 ≤ length input.now)) }
    // The bytes before the start spell how many follow, and whatever is spelled so is taken.
    ensures found { IfOk result (λ taken.
        SpellsNumber long (slice_range input.now place taken.0) (pos (taken.1 - taken.0))) }
    ensures only { (bytes after : List ℕ) (size : ℕ) → drop place input.now ≡ bytes ++ after
        → SpellsNumber long bytes (pos size) → size ≤ length after
        → result ≡ Ok (place + length bytes, place + length bytes + size) }
    // When each refusal comes.
    ensures short { (result ≡ Err (WireRefusal.Short place))
        ↔ EndsInsideBytes (drop place input.now) }
    ensures too_long { (result ≡ Err (WireRefusal.TooLong place))
        ↔ IsNoLength (drop place input.now) }
{
    range_at(input, place)
}

/// A law, without code: two encodings of numbers at the beginning of one list are the same bytes and the
/// same number, so that none is a proper prefix of another.
pub fn no_prefix()
    ensures { (bounds : Bounds) (a b x y : List ℕ) (m n : ℤ)
        → SpellsNumber bounds a m → SpellsNumber bounds b n
        → a ++ x ≡ b ++ y → (a ≡ b) × (m ≡ n) }
{}

/// What `take_long` answers.
#[inline(always)]
#[tactic(auto, unfolding(crate::specs::Reading::number_at))]
fn long_at(input: &[u8], place: usize) -> Result<(i64, usize), WireRefusal>
    requires { place ≤ length input.now }
    ensures exact { Gives (λ _. false) (λ x. x) result (number_at long input.now place) }
    ensures within { IfOk result (λ taken. (place < taken.1) × (taken.1 ≤ length input.now)) }
{
    let (groups, after) = take_groups(input, place, LONG_BYTES, u64::MAX)?;
    Ok((unzigzag(groups), after))
}

/// What `take_int` answers.
#[inline(always)]
#[tactic(auto, unfolding(crate::specs::Reading::number_at))]
fn int_at(input: &[u8], place: usize) -> Result<(i32, usize), WireRefusal>
    requires { place ≤ length input.now }
    ensures exact { Gives (λ _. false) (λ x. x) result (number_at int input.now place) }
    ensures within { IfOk result (λ taken. (place < taken.1) × (taken.1 ≤ length input.now)) }
{
    let (groups, after) = take_groups(input, place, INT_BYTES, INT_LARGEST)?;
    Ok((unzigzag(groups) as i32, after))
}

/// What `take_bytes` answers.
#[inline(always)]
#[tactic(auto, unfolding(crate::specs::Reading::bytes_at))]
fn range_at(input: &[u8], place: usize) -> Result<(usize, usize), WireRefusal>
    requires { place ≤ length input.now }
    ensures exact { Gives (λ _. false) (λ x. x) result (bytes_at input.now place) }
    ensures within { IfOk result (λ taken.
        (place < taken.0) × (taken.0 ≤ taken.1) × (taken.1 ≤ length input.now)) }
{
    let (length, start) = long_at(input, place)?;
    if length < 0 {
        return Err(WireRefusal::TooLong {
            place: place as u64,
        });
    }
    let length = length as u64;
    if ((input.len() - start) as u64) < length {
        return Err(WireRefusal::Short {
            place: place as u64,
        });
    }
    Ok((start, start + length as usize))
}

/// The number that zig-zag groups stand for.
#[inline(always)]
fn unzigzag(groups: u64) -> i64
    ensures { result ≡ number_of groups }
{
    let half = (groups / 2) as i64;
    if groups % 2 == 0 { half } else { -1 - half }
}

/// What the value of a number's groups is once `byte`, the one at `index`, is added.
fn with_group(value: u64, byte: u8, index: usize) -> u64
    requires so_far { value < 2 ^ (7 * index) }
    requires shift { index ≤ 9 }
    requires room { (byte % 128) * 2 ^ (7 * index) + 2 ^ (7 * index) ≤ 2 ^ 64 }
    ensures value { result ≡ value + (byte % 128) * 2 ^ (7 * index) }
    ensures below { result < 2 ^ (7 * index + 7) }
{
    value + (u64::from(byte % 128) << (7 * index))
}

/// The value of the groups of the number at `place`, and the place after it.
#[inline(always)]
fn take_groups(
    input: &[u8],
    place: usize,
    most: usize,
    largest: u64,
) -> Result<(u64, usize), WireRefusal>
    requires start { place ≤ length input.now }
    requires most { (0 < most) × (most ≤ 10) }
    requires largest { 127 ≤ largest }
    ensures exact { Gives (λ _. false) (λ x. x) result
        (groups_at (record { bytes = most; largest = largest }) input.now place) }
    ensures fits { IfOk result (λ taken. taken.0 ≤ largest) }
    ensures within { IfOk result (λ taken. (place < taken.1) × (taken.1 ≤ length input.now)) }
{
    // Most numbers take one byte.
    if place < input.len() && input[place] < 128 {
        return Ok((u64::from(input[place]), place + 1));
    }
    take_each_group(input, place, most, largest)
}

/// The same, byte by byte.
#[inline(never)]
fn take_each_group(
    input: &[u8],
    place: usize,
    most: usize,
    largest: u64,
) -> Result<(u64, usize), WireRefusal>
    requires start { place ≤ length input.now }
    requires most { most ≤ 10 }
    ensures exact { Gives (λ _. false) (λ x. x) result
        (groups_at (record { bytes = most; largest = largest }) input.now place) }
    ensures fits { IfOk result (λ taken. taken.0 ≤ largest) }
    ensures within { IfOk result (λ taken. (place < taken.1) × (taken.1 ≤ length input.now)) }
{
    let from = place as u64;
    let mut value = 0;
    for index in 0..most {
        let at = place + index;
        if at >= input.len() {
            return Err(WireRefusal::Short { place: from });
        }
        let byte = input[at];
        // The tenth byte has room for one bit more.
        if index == 9 && byte > 1 {
            return Err(WireRefusal::TooLong { place: from });
        }
        value = with_group(value, byte, index);
        if byte < 128 {
            if value > largest {
                return Err(WireRefusal::TooLong { place: from });
            }
            return Ok((value, at + 1));
        }
    }
    Err(WireRefusal::TooLong { place: from })
}
