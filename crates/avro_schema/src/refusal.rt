//! Why a text is no schema.

ghost use Rattle.std.specs.Prelude.{◌≡◌, IfOk};
ghost use Rattle.std.specs.Bool.{OnFalse};
ghost use Rattle.std.specs.Fmt.{decimal};
ghost use Rattle.avro_schema.specs.declared.refusal.SchemaRefusal.TheVariants.{Form, Memory};
ghost use Rattle.avro_schema.specs.Refusal as spec;
ghost use Rattle.avro_schema.specs.Refusal.{is_memory};
ghost use Rattle.avro_schema.specs.RefusalText.{refusal_text};
ghost use Rattle.refusal_text.specs.Told.{told_text, spaced};
ghost use Rattle.words.specs.Reading.{Gives};

use avro_wire::Text;
use refusal_text::Told;
use std::alloc::{AllocError, AllocFailed, Global};

/// Why a text is no schema: the first cause from the top. docs/FORMATS.md, "Avro schemas".
#[derive(Drop)]
pub enum SchemaRefusal {
    /// The text is no JSON text.
    NotJson,
    /// The place has no form of a schema. `path`: the names of members and the places in lists,
    /// counted from 1, that lead to it from the top, with `/` between them.
    Form { path: Text },
    /// The name, as it is written, was not wholly defined before.
    Unknown { name: Text },
    /// The schema is deeper than 64, or has more than 65,536 schemas in it, once each name is
    /// replaced by what it was defined as.
    Nesting,
    /// Memory ran out.
    Memory,
}

impl SchemaRefusal {
    /// The text of the refusal.
    pub fn told(&self) -> Told<'_>
        ensures { told_text result ≡ spaced (refusal_text self.now) }
    {
        match self {
            SchemaRefusal::NotJson => Told::word("NotJson"),
            SchemaRefusal::Form { path } => Told::quoted("Form", path),
            SchemaRefusal::Unknown { name } => Told::quoted("Unknown", name),
            SchemaRefusal::Nesting => Told::word("Nesting"),
            SchemaRefusal::Memory => Told::nothing(),
        }
    }
}

impl From<AllocError> for SchemaRefusal {
    ghost from_gives = { λ _ e. e ≡ Memory };

    fn from(_e: AllocError) -> SchemaRefusal {
        SchemaRefusal::Memory
    }
}

impl<T: Drop> From<AllocFailed<T>> for SchemaRefusal {
    ghost from_gives = { λ _ e. e ≡ Memory };

    fn from(_e: AllocFailed<T>) -> SchemaRefusal {
        SchemaRefusal::Memory
    }
}

/// The refusal of the place that the piece leads to.
pub(crate) fn form(alloc: Global, piece: &str) -> SchemaRefusal
    ensures { OnFalse (is_memory result) (result ≡ Form piece.now) }
{
    match Text::from_str(alloc, piece) {
        Ok(path) => SchemaRefusal::Form { path },
        Err(_) => SchemaRefusal::Memory,
    }
}

/// The refusal of the place in a list, counted from 1.
pub(crate) fn form_at(alloc: Global, place: usize) -> SchemaRefusal
    ensures { OnFalse (is_memory result) (result ≡ Form (decimal place)) }
{
    match format!(in alloc; "{place}") {
        Ok(path) => SchemaRefusal::Form {
            path: Text::from_string(path),
        },
        Err(_) => SchemaRefusal::Memory,
    }
}

/// The path of a place, seen from the place that has it as this piece.
fn behind_piece(alloc: Global, piece: &str, path: &str) -> Result<Text, AllocError>
    ensures { IfOk result (λ whole. whole ≡ spec.behind_piece piece.now path.now) }
{
    if path.is_empty() {
        return Text::from_str(alloc, piece);
    }
    Ok(Text::from_string(format!(in alloc; "{piece}/{path}")?))
}

/// A refusal of the piece, as one of what it is a piece of.
fn refusal_under(alloc: Global, piece: &str, refusal: SchemaRefusal) -> SchemaRefusal
    ensures { OnFalse (is_memory result) (result ≡ spec.refusal_under piece.now refusal) }
{
    let SchemaRefusal::Form { path } = refusal else {
        return refusal;
    };
    match behind_piece(alloc, piece, path.as_str()) {
        Ok(path) => SchemaRefusal::Form { path },
        Err(_) => SchemaRefusal::Memory,
    }
}

/// What is read of the piece. Only a refusal costs anything.
pub(crate) fn under<T: Drop>(
    alloc: Global,
    piece: &str,
    read: Result<T, SchemaRefusal>,
) -> Result<T, SchemaRefusal>
    ensures { Gives is_memory (λ value. value) result (spec.under piece.now read) }
{
    match read {
        Ok(value) => Ok(value),
        Err(refusal) => Err(refusal_under(alloc, piece, refusal)),
    }
}

/// What is read of the place in a list, counted from 1. Only a refusal costs anything.
pub(crate) fn under_place<T: Drop>(
    alloc: Global,
    place: usize,
    read: Result<T, SchemaRefusal>,
) -> Result<T, SchemaRefusal>
    ensures { Gives is_memory (λ value. value) result (spec.under (decimal place) read) }
{
    match read {
        Ok(value) => Ok(value),
        Err(refusal) => match format!(in alloc; "{place}") {
            Ok(piece) => Err(refusal_under(alloc, piece.as_str(), refusal)),
            Err(_) => Err(SchemaRefusal::Memory),
        },
    }
}
