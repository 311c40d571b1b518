//! The word of a refusal with what follows it.

ghost use Rattle.std.specs.Prelude.{◌≡◌, [], ◌++◌, codes, decimal};
ghost use Rattle.std.specs.Fmt.{signed_decimal};
ghost use Rattle.pieces.specs.HexLiteral.{hex_text};
ghost use Rattle.pieces.specs.Literal.{literal_text};
ghost use Rattle.refusal_text.specs.Told.{told_text, spaced};

use crate::detail::Detail;
use avro_wire::{Bytes, Text};

/// The text of a refusal, as it is in the line of a run: each part with a space before it.
#[derive(Clone, Copy)]
pub struct Told<'a> {
    /// The refusal's word. It is empty if the refusal has none.
    pub word: &'static str,
    /// What follows the word.
    pub detail: Detail<'a>,
}

impl<'a> Told<'a> {
    /// No text.
    pub fn nothing() -> Told<'a>
        ensures { told_text result ≡ [] }
    {
        Told {
            word: "",
            detail: Detail::Nothing,
        }
    }

    /// The word alone.
    pub fn word(word: &'static str) -> Told<'a>
        ensures { told_text result ≡ spaced word.now }
    {
        Told {
            word,
            detail: Detail::Nothing,
        }
    }

    /// The word and a number.
    pub fn number(word: &'static str, number: u64) -> Told<'a>
        ensures { told_text result ≡ spaced word.now ++ (codes " " ++ decimal number) }
    {
        Told {
            word,
            detail: Detail::Number(number),
        }
    }

    /// The word and the id of a column.
    pub fn id(word: &'static str, id: i32) -> Told<'a>
        ensures { told_text result ≡ spaced word.now ++ (codes " " ++ signed_decimal id) }
    {
        Told {
            word,
            detail: Detail::Id(id),
        }
    }

    /// The word and two numbers.
    pub fn numbers(word: &'static str, first: i64, second: i64) -> Told<'a>
        ensures { told_text result ≡ spaced word.now
            ++ (codes " " ++ (signed_decimal first ++ (codes " " ++ signed_decimal second))) }
    {
        Told {
            word,
            detail: Detail::Numbers(first, second),
        }
    }

    /// The word and bytes in hexadecimal.
    pub fn hex(word: &'static str, bytes: &'a Bytes) -> Told<'a>
        ensures { told_text result ≡ spaced word.now ++ (codes " " ++ hex_text bytes.now) }
    {
        Told {
            word,
            detail: Detail::Hex(bytes),
        }
    }

    /// The word and a text between quotes.
    pub fn quoted(word: &'static str, text: &'a Text) -> Told<'a>
        ensures { told_text result ≡ spaced word.now ++ (codes " " ++ literal_text text.now) }
    {
        Told {
            word,
            detail: Detail::Quoted(text),
        }
    }

    /// The word, a number and a name.
    pub fn named(word: &'static str, number: u64, name: &'static str) -> Told<'a>
        ensures { told_text result ≡ spaced word.now
            ++ (codes " " ++ (decimal number ++ (codes " " ++ name.now))) }
    {
        Told {
            word,
            detail: Detail::Named(number, name),
        }
    }
}
