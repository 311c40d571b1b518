//! Why a text is no row of cells.

ghost use Rattle.std.specs.Prelude.{◌≡◌};
ghost use Rattle.row_pred.specs.declared.refusal.PredRefusal.TheVariants.{Memory};
ghost use Rattle.row_pred.specs.Refusal.{of_piece};

use avro_wire::Text;
use pieces::PieceRefusal;
use std::alloc::{AllocError, AllocFailed};

/// Why a text does not stand for what is read of it. A place counts bytes from 0.
#[derive(Drop)]
pub enum PredRefusal {
    /// No such text goes on with the byte at `place`, or it ends there.
    Syntax { place: u64 },
    /// There is no column of this name.
    Name { name: Text },
    /// The cell that begins here isn't of its column's kind and range.
    Misfit { place: u64 },
    /// The column with this id is required, and its cell is null.
    NotNull { column: i32 },
    /// Memory ran out.
    Memory,
}

impl From<AllocError> for PredRefusal {
    ghost from_gives = { λ from made. made ≡ Memory };

    fn from(_error: AllocError) -> PredRefusal {
        PredRefusal::Memory
    }
}

impl<T: Drop> From<AllocFailed<T>> for PredRefusal {
    ghost from_gives = { λ from made. made ≡ Memory };

    fn from(_error: AllocFailed<T>) -> PredRefusal {
        PredRefusal::Memory
    }
}

impl From<PieceRefusal> for PredRefusal {
    ghost from_gives = { λ from made. made ≡ of_piece from };

    fn from(refusal: PieceRefusal) -> PredRefusal {
        match refusal {
            PieceRefusal::Syntax { place } => PredRefusal::Syntax { place },
            PieceRefusal::Memory => PredRefusal::Memory,
        }
    }
}
