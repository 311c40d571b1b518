//! The words of the kinds.

ghost use Rattle.std.specs.Prelude.{◌≡◌};
ghost use Rattle.row_types.specs.KindWord.{kind_of_word as kind_at_place, kind_text};

use crate::column::Kind;

/// The words of the kinds. Of two that begin alike the longer one stands first.
pub const KIND_WORDS: [&str; 9] = [
    "boolean",
    "int",
    "long",
    "date",
    "timestamptz",
    "timestamp",
    "time",
    "string",
    "binary",
];

/// The kind of a word, by its place among the words.
pub fn kind_of_word(index: usize) -> Kind
    ensures { result ≡ kind_at_place index }
{
    match index {
        0 => Kind::Boolean,
        1 => Kind::Int,
        2 => Kind::Long,
        3 => Kind::Date,
        4 => Kind::Timestamptz,
        5 => Kind::Timestamp,
        6 => Kind::Time,
        7 => Kind::Text,
        _ => Kind::Bytes,
    }
}

impl Kind {
    /// The word of a kind.
    pub fn word(self) -> &'static str
        ensures { result.now ≡ kind_text self }
    {
        match self {
            Kind::Boolean => "boolean",
            Kind::Int => "int",
            Kind::Long => "long",
            Kind::Date => "date",
            Kind::Time => "time",
            Kind::Timestamp => "timestamp",
            Kind::Timestamptz => "timestamptz",
            Kind::Text => "string",
            Kind::Bytes => "binary",
        }
    }
}
