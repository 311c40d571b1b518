//! Where a text stops being one.

ghost use Rattle.std.specs.Prelude.{◌≡◌};
ghost use Rattle.pieces.specs.declared.refusal.PieceRefusal.TheVariants.{Memory};

use std::alloc::{AllocError, AllocFailed};

/// Why a piece does not stand in a text.
#[derive(Clone, Copy, PartialEq, Eq)]
pub enum PieceRefusal {
    /// No such piece goes on with the byte at `place`, counted from 0, or it ends there.
    Syntax { place: u64 },
    /// Memory ran out.
    Memory,
}

impl From<AllocError> for PieceRefusal {
    ghost from_gives = { λ from made. made ≡ Memory };

    fn from(_error: AllocError) -> PieceRefusal {
        PieceRefusal::Memory
    }
}

impl<T: Drop> From<AllocFailed<T>> for PieceRefusal {
    ghost from_gives = { λ from made. made ≡ Memory };

    fn from(_error: AllocFailed<T>) -> PieceRefusal {
        PieceRefusal::Memory
    }
}
