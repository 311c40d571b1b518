//! The puts: an item after the bytes that are there.

ghost use Rattle.std.specs.Prelude.{◌≡◌, ℕ, ◌+◌, ◌<◌, ◌≤◌, ◌^◌, ℤ, pos, neg_ℤ, ◌<ℤ◌, ◌≤ℤ◌, List, ◌++◌, length, take, drop, slice_range, Ok, OnOk, OnErr};
ghost use Rattle.avro_wire.specs.Number.{long, int, SpellsNumber};
ghost use Rattle.avro_wire.specs.Reading.{number_at, bytes_at};
ghost use Rattle.avro_wire.specs.Writing as spec;
ghost use Rattle.avro_wire.specs.Writing.{number_text, size_text, bytes_text};

use std::alloc::AllocError;

/// Appends the number to `out`, in the fewest bytes that encode it. An `Err` says that memory ran
/// out. Avro spec, "Binary encoding".
pub fn put_long(out: &mut Vec<u8>, value: i64) -> Result<(), AllocError>
    ensures ok { OnOk result (out.new.items ≡ out.old.items ++ number_text value) }
    ensures unchanged { OnErr result (out.new.items ≡ out.old.items) }
    // The bytes spell the number, and no other spelling is shorter.
    ensures spelled { SpellsNumber long (number_text value) value }
    ensures shortest { (bytes : List ℕ) → SpellsNumber long bytes value
        → length (number_text value) ≤ length bytes }
{
    let (groups, count) = groups_of(zigzag(value));
    out.extend_from_slice(&groups[..count])
}

/// Appends the length of the bytes and the bytes to `out`. An `Err` says that memory ran out.
/// Avro spec, "Binary encoding".
pub fn put_bytes(out: &mut Vec<u8>, value: &[u8]) -> Result<(), AllocError>
    ensures ok { OnOk result (out.new.items ≡ out.old.items ++ bytes_text value.now) }
    ensures unchanged { OnErr result (out.new.items ≡ out.old.items) }
{
    let before = out.len();
    put_long(out, value.len() as i64)?;
    if let Err(refused) = out.extend_from_slice(value) {
        out.truncate(before);
        return Err(refused);
    }
    Ok(())
}

/// A law, without code: what is put is read, whatever follows it, and the take ends after it.
pub fn reads_back()
    ensures longs { (input : List ℕ) (place : ℕ) (rest : List ℕ) (value : ℤ)
        → drop place input ≡ number_text value ++ rest
        → neg_ℤ (pos (2 ^ 63)) ≤ℤ value → value <ℤ pos (2 ^ 63)
        → number_at long input place ≡ Ok (value, place + length (number_text value)) }
    ensures ints { (input : List ℕ) (place : ℕ) (rest : List ℕ) (value : ℤ)
        → drop place input ≡ number_text value ++ rest
        → neg_ℤ (pos (2 ^ 31)) ≤ℤ value → value <ℤ pos (2 ^ 31)
        → number_at int input place ≡ Ok (value, place + length (number_text value)) }
    // Bytes: where they are found, and that they stand there.
    ensures bytes { (input : List ℕ) (place : ℕ) (rest value : List ℕ)
        → drop place input ≡ bytes_text value ++ rest → length value < 2 ^ 63
        → bytes_at input place
        ≡ Ok (place + length (size_text value), place + length (bytes_text value)) }
    ensures inside { (input : List ℕ) (place : ℕ) (rest value : List ℕ)
        → drop place input ≡ bytes_text value ++ rest
        → slice_range input (place + length (size_text value))
        (place + length (bytes_text value)) ≡ value }
{}

/// The value of the groups that stand for the number.
fn zigzag(value: i64) -> u64
    ensures { result ≡ spec.zigzag value }
{
    if value < 0 {
        2 * ((-1 - value) as u64) + 1
    } else {
        2 * (value as u64)
    }
}

/// The groups of the value, as bytes, and how many they are.
fn groups_of(value: u64) -> ([u8; 10], usize)
    ensures within { result.1 ≤ 10 }
    ensures value { take result.1 result.0 ≡ spec.groups_of value }
{
    let mut groups = [0; 10];
    let mut left = value;
    let mut count = 0;
    while left >= 128 {
        groups[count] = (left % 128) as u8 + 128;
        left /= 128;
        count += 1;
    }
    groups[count] = left as u8;
    (groups, count + 1)
}
