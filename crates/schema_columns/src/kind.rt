//! The kind that a type's word names.

ghost use Rattle.std.specs.Prelude.{◌≡◌};
ghost use Rattle.schema_columns.specs.Kind as spec;

use row_types::Kind;

static KINDS: [Kind; 9] = [
    Kind::Boolean,
    Kind::Int,
    Kind::Long,
    Kind::Date,
    Kind::Time,
    Kind::Timestamp,
    Kind::Timestamptz,
    Kind::Text,
    Kind::Bytes,
];

/// The kind that the word names. `None`: it names none that rowline has.
pub fn kind_of(word: &str) -> Option<Kind>
    ensures { result ≡ spec.kind_of word.now }
{
    kind_among(&KINDS, word)
}

/// The first of these kinds whose word it is.
fn kind_among(kinds: &[Kind], word: &str) -> Option<Kind>
    ensures { result ≡ spec.kind_among kinds.now word.now }
{
    for kind in kinds {
        if kind.word() == word {
            return Some(*kind);
        }
    }
    None
}
