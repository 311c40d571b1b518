//! Single bytes, words, spaces and the end.

ghost use Rattle.std.specs.Prelude.{◌≡◌, ℕ, ◌+◌, ◌<◌, ◌≤◌, List, length, map, drop, slice_get, IfOk};
ghost use Rattle.pieces.specs.Refusal.{place_of};
ghost use Rattle.pieces.specs.Word.{is_this, byte_at, word_at, one_of, after_spaces, gap_at, mark_at, end_at};

use crate::refusal::PieceRefusal;

/// Whether `byte` is at `place`, a byte offset from 0.
pub fn stands(bytes: &[u8], place: usize, byte: u8) -> bool
    ensures { result ≡ is_this byte (slice_get bytes.now place) }
{
    place < bytes.len() && bytes[place] == byte
}

/// The place after `byte`, at `place`, a byte offset from 0.
/// `Syntax`: another byte is there, or the text ends.
#[tactic(auto, using(crate::proofs::WordLemmas::byte_within))]
pub fn take_byte(text: &str, place: usize, byte: u8) -> Result<usize, PieceRefusal>
    requires { place ≤ length text.now }
    ensures exact { result ≡ byte_at byte text.now place }
    ensures within { IfOk result (λ after. (place < after) × (after ≤ length text.now)) }
{
    if stands(text.as_bytes(), place, byte) {
        Ok(place + 1)
    } else {
        Err(PieceRefusal::Syntax {
            place: place as u64,
        })
    }
}

/// The place after `word`, at `place`, a byte offset from 0.
/// `Syntax`: the place of the first byte that is not the word's.
#[tactic(auto, using(crate::proofs::WordLemmas::word_steps))]
pub fn take_word(text: &str, place: usize, word: &str) -> Result<usize, PieceRefusal>
    requires { place ≤ length text.now }
    ensures exact { result ≡ word_at word.now text.now place }
    ensures within { IfOk result (λ after. (place ≤ after) × (after ≤ length text.now)) }
{
    let mut at = place;
    for byte in word.as_bytes() {
        at = take_byte(text, at, *byte)?;
    }
    Ok(at)
}

/// The first of the words at `place`, a byte offset from 0: its place in the list,
/// from 0, and the place after it.
/// `Syntax`: none is there; the furthest place that one of them goes on to.
pub fn take_one_of(text: &str, place: usize, words: &[&str]) -> Result<(usize, usize), PieceRefusal>
    requires { place ≤ length text.now }
    ensures exact { result ≡ one_of (map (λ w. w.now) words.now) text.now place }
    ensures within { IfOk result (λ read. (place ≤ read.1) × (read.1 ≤ length text.now)) }
{
    let mut far = place as u64;
    for (index, word) in words.iter().enumerate() {
        match take_word(text, place, word) {
            Ok(after) => return Ok((index, after)),
            Err(refusal) => far = far.max(how_far(refusal)),
        }
    }
    Err(PieceRefusal::Syntax { place: far })
}

/// The place after all spaces at `place`, a byte offset from 0.
#[tactic(auto, using(crate::proofs::WordLemmas::spaces_steps))]
pub fn skip_spaces(text: &str, place: usize) -> usize
    requires { place ≤ length text.now }
    ensures exact { result ≡ after_spaces text.now place }
    ensures within { (place ≤ result) × (result ≤ length text.now) }
{
    let bytes = text.as_bytes();
    for at in place..bytes.len() {
        if bytes[at] != b' ' {
            return at;
        }
    }
    bytes.len()
}

/// The place after all spaces at `place`, a byte offset from 0.
/// `Syntax`: no space is there.
pub fn take_gap(text: &str, place: usize) -> Result<usize, PieceRefusal>
    requires { place ≤ length text.now }
    ensures exact { result ≡ gap_at text.now place }
    ensures within { IfOk result (λ after. (place < after) × (after ≤ length text.now)) }
{
    let after = skip_spaces(text, place);
    if after == place {
        return Err(PieceRefusal::Syntax {
            place: place as u64,
        });
    }
    Ok(after)
}

/// The place after the byte `mark`, and after the spaces before and after it.
/// `Syntax`: another byte stands after the spaces, or the text ends.
pub fn take_mark(text: &str, place: usize, mark: u8) -> Result<usize, PieceRefusal>
    requires { place ≤ length text.now }
    ensures exact { result ≡ mark_at mark text.now place }
    ensures within { IfOk result (λ after. (place < after) × (after ≤ length text.now)) }
{
    let after = take_byte(text, skip_spaces(text, place), mark)?;
    Ok(skip_spaces(text, after))
}

/// That the text ends at `place`, a byte offset from 0.
/// `Syntax`: something is left.
pub fn take_end(text: &str, place: usize) -> Result<(), PieceRefusal>
    requires { place ≤ length text.now }
    ensures exact { result ≡ end_at text.now place }
{
    if place == text.len() {
        Ok(())
    } else {
        Err(PieceRefusal::Syntax {
            place: place as u64,
        })
    }
}

/// How far a text went that was refused.
fn how_far(refusal: PieceRefusal) -> u64
    ensures { result ≡ place_of refusal }
{
    match refusal {
        PieceRefusal::Syntax { place } => place,
        PieceRefusal::Memory => 0,
    }
}
