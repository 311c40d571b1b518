//! Why bytes are no value.

ghost use Rattle.std.specs.Prelude.{◌≡◌};
ghost use Rattle.datum_reading.specs.declared.refusal.DatumRefusal.TheVariants.{Memory};
ghost use Rattle.datum_reading.specs.RefusalText.{refusal_text};
ghost use Rattle.refusal_text.specs.Told.{told_text, spaced};

use refusal_text::Told;
use std::alloc::{AllocError, AllocFailed};
use std::error::Error;
use std::fmt;

/// Why bytes are no value of a schema: the first item, in their order, that has no spelling.
/// `place` counts bytes from 0, from the start of the input, and is where the item begins.
/// Avro spec, "Binary encoding".
#[derive(Clone, Copy, Debug, PartialEq, Eq)]
pub enum DatumRefusal {
    /// The input ends inside the item.
    Short { place: u64 },
    /// The number takes more bytes than it may, doesn't fit, or is a negative length.
    TooLong { place: u64 },
    /// The byte of a boolean is neither 0 nor 1.
    Flag { place: u64 },
    /// A union has no branch, or an enum no symbol, of this number.
    Branch { place: u64 },
    /// The string is not UTF-8. `place` is where its length begins.
    Utf8 { place: u64 },
    /// A block of an array or a map has another size in bytes. `place` is where the size begins.
    Size { place: u64 },
    /// With this block the value has more than 16,777,216 items of arrays and maps. `place` is
    /// where the block's count begins.
    Items { place: u64 },
    /// Memory ran out.
    Memory,
}

impl DatumRefusal {
    /// The text of the refusal.
    pub fn told(self) -> Told<'static>
        ensures { told_text result ≡ spaced (refusal_text self) }
    {
        match self {
            DatumRefusal::Short { place } => Told::number("Short", place),
            DatumRefusal::TooLong { place } => Told::number("TooLong", place),
            DatumRefusal::Flag { place } => Told::number("Flag", place),
            DatumRefusal::Branch { place } => Told::number("Branch", place),
            DatumRefusal::Utf8 { place } => Told::number("Utf8", place),
            DatumRefusal::Size { place } => Told::number("Size", place),
            DatumRefusal::Items { place } => Told::number("Items", place),
            DatumRefusal::Memory => Told::nothing(),
        }
    }
}

/// The words before and after the place, and the place. `None`: the refusal has no place.
fn words_of(refusal: DatumRefusal) -> (&'static str, Option<u64>, &'static str) {
    match refusal {
        DatumRefusal::Short { place } => (
            "the input ends inside the item at byte ",
            Some(place),
            "",
        ),
        DatumRefusal::TooLong { place } => ("no item can stand at byte ", Some(place), ""),
        DatumRefusal::Flag { place } => ("no truth value is at byte ", Some(place), ""),
        DatumRefusal::Branch { place } => (
            "the number at byte ",
            Some(place),
            " has no branch or symbol",
        ),
        DatumRefusal::Utf8 { place } => ("the string at byte ", Some(place), " is not UTF-8"),
        DatumRefusal::Size { place } => (
            "the size at byte ",
            Some(place),
            " is not that of its block",
        ),
        DatumRefusal::Items { place } => {
            (
                "with the block at byte ",
                Some(place),
                " there are too many items",
            )
        }
        DatumRefusal::Memory => ("out of memory", None, ""),
    }
}

impl fmt::Display for DatumRefusal {
    fn fmt<W: fmt::Write>(&self, f: &mut fmt::Formatter<W>) -> fmt::Result {
        let (before, place, behind) = words_of(*self);
        f.write_str(before)?;
        if let Some(place) = place {
            write!(f, "{place}")?;
        }
        f.write_str(behind)
    }
}

impl Error for DatumRefusal {}

impl From<AllocError> for DatumRefusal {
    ghost from_gives = { λ _ e. e ≡ Memory };

    fn from(_e: AllocError) -> DatumRefusal {
        DatumRefusal::Memory
    }
}

impl<T: Drop> From<AllocFailed<T>> for DatumRefusal {
    ghost from_gives = { λ _ e. e ≡ Memory };

    fn from(_e: AllocFailed<T>) -> DatumRefusal {
        DatumRefusal::Memory
    }
}
