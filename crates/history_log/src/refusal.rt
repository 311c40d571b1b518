//! Why a text or a history is refused.

ghost use Rattle.std.specs.Prelude.{◌≡◌};
ghost use Rattle.history_log.specs.declared.refusal.HistoryRefusal.TheVariants.{Memory};
ghost use Rattle.history_log.specs.Refusal.{of_piece, of_cells};

use avro_wire::Text;
use lineage_model::Rule;
use pieces::PieceRefusal;
use row_pred::PredRefusal;
use std::alloc::{AllocError, AllocFailed};

/// Why a text is no request or entry, or a history is not legal. A place counts bytes from 0.
#[derive(Drop)]
pub enum HistoryRefusal {
    /// No request or entry goes on with what begins here.
    Syntax { place: u64 },
    /// There is no column of this name.
    Name { name: Text },
    /// The cell that begins here isn't of its column's kind and range.
    Misfit { place: u64 },
    /// The column with this id is required, and its cell is null.
    NotNull { column: i32 },
    /// The entry, counted from 1, breaks this rule, and none before it. Entry 0 is the state that
    /// the history begins with.
    Illegal { entry: u64, rule: Rule },
    /// Memory ran out.
    Memory,
}

impl From<AllocError> for HistoryRefusal {
    ghost from_gives = { λ from made. made ≡ Memory };

    fn from(_error: AllocError) -> HistoryRefusal {
        HistoryRefusal::Memory
    }
}

impl<T: Drop> From<AllocFailed<T>> for HistoryRefusal {
    ghost from_gives = { λ from made. made ≡ Memory };

    fn from(_error: AllocFailed<T>) -> HistoryRefusal {
        HistoryRefusal::Memory
    }
}

impl From<PieceRefusal> for HistoryRefusal {
    ghost from_gives = { λ from made. made ≡ of_piece from };

    fn from(refusal: PieceRefusal) -> HistoryRefusal {
        match refusal {
            PieceRefusal::Syntax { place } => HistoryRefusal::Syntax { place },
            PieceRefusal::Memory => HistoryRefusal::Memory,
        }
    }
}

impl From<PredRefusal> for HistoryRefusal {
    ghost from_gives = { λ from made. made ≡ of_cells from };

    fn from(refusal: PredRefusal) -> HistoryRefusal {
        match refusal {
            PredRefusal::Syntax { place } => HistoryRefusal::Syntax { place },
            PredRefusal::Name { name } => HistoryRefusal::Name { name },
            PredRefusal::Misfit { place } => HistoryRefusal::Misfit { place },
            PredRefusal::NotNull { column } => HistoryRefusal::NotNull { column },
            PredRefusal::Memory => HistoryRefusal::Memory,
        }
    }
}
