//! Bytes as hexadecimal digits, two for each.

ghost use Rattle.std.specs.Prelude.{◌≡◌, ◌+◌, ◌*◌, ◌≤◌, [], ◌∷◌, ◌++◌, length, take};
ghost use Rattle.hex.specs.Hex.{encode_lower};

use crate::piece::put_piece;

/// The digits by their values.
const DIGITS: &[u8; 16] = b"0123456789abcdef";

/// Puts two digits for each byte at the place `at`, and returns the place after them.
pub fn put_digits(room: &mut [u8], at: usize, bytes: &[u8]) -> usize
    requires fits { at + 2 * length bytes.now ≤ length room.old }
    ensures put { take result room.new ≡ take at room.old ++ encode_lower bytes.now }
    ensures len { length room.new ≡ length room.old }
    ensures place { result ≡ at + 2 * length bytes.now }
{
    let mut to = at;
    for byte in bytes {
        to = put_piece(room, to, &digits_of(*byte));
    }
    to
}

/// The two digits of a byte.
#[inline(always)]
#[tactic(auto, unfolding(hex::specs::Hex::encode_with))]
fn digits_of(byte: u8) -> [u8; 2]
    ensures { result ≡ encode_lower (byte ∷ []) }
{
    [
        DIGITS[usize::from(byte / 16)],
        DIGITS[usize::from(byte % 16)],
    ]
}
