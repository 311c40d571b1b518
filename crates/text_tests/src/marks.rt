//! Words, marks and spaces by hand, and each function that takes them once.

use pieces::{
    PieceRefusal, skip_spaces, take_byte, take_end, take_gap, take_mark, take_one_of, take_word,
};
use std::test::*;

/// What is taken.
enum Piece {
    Word(&'static str),
    Byte(u8),
    Spaces,
    Gap,
    Mark(u8),
    End,
}

/// A text, a place in it, what is taken there, and the place after it or the place of the refusal.
type Taken = (&'static str, usize, Piece, Result<usize, u64>);

static PIECES: [Taken; 21] = [
    // A word is refused at its first wrong byte.
    ("append", 0, Piece::Word("append"), Ok(6)),
    ("append 1", 0, Piece::Word("append"), Ok(6)),
    ("app ", 0, Piece::Word("append"), Err(3)),
    ("app", 0, Piece::Word("append"), Err(3)),
    ("", 0, Piece::Word("append"), Err(0)),
    ("an append", 3, Piece::Word("append"), Ok(9)),
    ("a,b", 1, Piece::Byte(b','), Ok(2)),
    ("a,b", 2, Piece::Byte(b','), Err(2)),
    ("a,b", 3, Piece::Byte(b','), Err(3)),
    // A gap has a space, and a mark needs none.
    ("a  b", 1, Piece::Spaces, Ok(3)),
    ("a  b", 3, Piece::Spaces, Ok(3)),
    ("a  b", 1, Piece::Gap, Ok(3)),
    ("a  ", 1, Piece::Gap, Ok(3)),
    ("ab", 1, Piece::Gap, Err(1)),
    ("a", 1, Piece::Gap, Err(1)),
    ("a\tb", 1, Piece::Gap, Err(1)),
    ("a=b", 1, Piece::Mark(b'='), Ok(2)),
    ("a =  b", 1, Piece::Mark(b'='), Ok(5)),
    ("a  b", 1, Piece::Mark(b'='), Err(3)),
    ("ab", 2, Piece::End, Ok(2)),
    ("ab", 1, Piece::End, Err(1)),
];

/// The place after what is taken. A place behind the text is refused there.
fn take(line: &Taken) -> Result<usize, PieceRefusal> {
    let (text, place, piece, _) = line;
    let place = *place;
    if place > text.len() {
        return Err(PieceRefusal::Syntax { place: u64::MAX });
    }
    match piece {
        Piece::Word(word) => take_word(text, place, word),
        Piece::Byte(byte) => take_byte(text, place, *byte),
        Piece::Spaces => Ok(skip_spaces(text, place)),
        Piece::Gap => take_gap(text, place),
        Piece::Mark(mark) => take_mark(text, place, *mark),
        Piece::End => {
            take_end(text, place)?;
            Ok(place)
        }
    }
}

/// Whether what was taken ends there, or is refused there.
fn is_at(taken: Result<usize, PieceRefusal>, wanted: Result<usize, u64>) -> bool {
    match (taken, wanted) {
        (Ok(after), Ok(wanted)) => after == wanted,
        (Err(PieceRefusal::Syntax { place }), Err(wanted)) => place == wanted,
        _ => false,
    }
}

/// The number of the first line that is taken otherwise, counted from 0.
fn first_wrong(lines: &[Taken]) -> Option<usize> {
    for number in 0..lines.len() {
        if !is_at(take(&lines[number]), lines[number].3) {
            return Some(number);
        }
    }
    None
}

/// The words of a list.
const WORDS: [&str; 4] = ["append", "apply", "at", "attend"];

/// Texts, and the number of the word that stands there, with the place after it; or the place of
/// the refusal.
static FIRST_WORDS: [(&str, Result<(usize, usize), u64>); 7] = [
    ("append", Ok((0, 6))),
    ("apply 1", Ok((1, 5))),
    ("at", Ok((2, 2))),
    // The first word of the list that stands there is taken, and not the longest.
    ("attend", Ok((2, 2))),
    // No word is refused where the furthest one stops.
    ("apple", Err(4)),
    ("appear", Err(4)),
    ("", Err(0)),
];

/// Whether the word that stands there is the wanted one.
fn is_word(text: &str, words: &[&str], wanted: Result<(usize, usize), u64>) -> bool {
    match (take_one_of(text, 0, words), wanted) {
        (Ok(word), Ok(wanted)) => word.0 == wanted.0 && word.1 == wanted.1,
        (Err(PieceRefusal::Syntax { place }), Err(wanted)) => place == wanted,
        _ => false,
    }
}

/// The number of the first text that is taken otherwise, counted from 0.
fn first_wrong_word(texts: &[(&str, Result<(usize, usize), u64>)]) -> Option<usize> {
    for number in 0..texts.len() {
        if !is_word(texts[number].0, &WORDS, texts[number].1) {
            return Some(number);
        }
    }
    None
}

#[test]
fn a_piece_is_refused_at_its_first_wrong_byte(rt: HostRuntime) {
    assert_eq!(rt; first_wrong(&PIECES), None);
}

#[test]
fn the_first_word_of_a_list_that_stands_there_is_taken(rt: HostRuntime) {
    assert_eq!(rt; first_wrong_word(&FIRST_WORDS), None);
    assert!(rt; is_word("x", &[], Err(0)));
}
