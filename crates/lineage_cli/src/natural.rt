//! The number that a word stands for.

ghost use Rattle.std.specs.Prelude.{◌≡◌, ◌^◌, ◌<◌, ℕ, decimal, MatchOption};

use itoa::Buffer;

/// The number of 63 bits that the word is the decimal text of, without sign or leading zero; None
/// if it is none.
pub fn natural(word: &str) -> Option<u64>
    ensures { MatchOption result
        ((n : ℕ) → n < 2 ^ 63 → word.now ≡ decimal n → ⊥)
        (λ number. (number < 2 ^ 63) × (word.now ≡ decimal number)) }
{
    let number = word.parse::<u64>().ok()?;
    if number > i64::MAX as u64 {
        return None;
    }
    let mut buffer = Buffer::new();
    if buffer.format(number) == word {
        Some(number)
    } else {
        None
    }
}
