//! Why a record has not what is wanted.

ghost use Rattle.std.specs.Prelude.{◌≡◌};
ghost use Rattle.fields.specs.declared.refusal.FieldRefusal.TheVariants.{Memory};

use datum_reading::DatumRefusal;
use std::alloc::{AllocError, AllocFailed};

/// Why a record has not what is wanted.
#[derive(Drop)]
pub enum FieldRefusal {
    /// The schema has no field of this id with an allowed type, or a record has a null there.
    MissingField { id: i32 },
    /// The bytes spell no value. Its place counts from the start of the input.
    NoValue(DatumRefusal),
    /// Memory ran out.
    Memory,
}

impl From<AllocError> for FieldRefusal {
    ghost from_gives = { λ _ e. e ≡ Memory };

    fn from(_e: AllocError) -> FieldRefusal {
        FieldRefusal::Memory
    }
}

impl<T: Drop> From<AllocFailed<T>> for FieldRefusal {
    ghost from_gives = { λ _ e. e ≡ Memory };

    fn from(_e: AllocFailed<T>) -> FieldRefusal {
        FieldRefusal::Memory
    }
}
