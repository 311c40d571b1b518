//! Why bytes are no report.

ghost use Rattle.std.specs.Prelude.{◌≡◌};
ghost use Rattle.report.specs.declared.refusal.LineRefusal.TheVariants.{Memory};
ghost use Rattle.report.specs.Refusal.{of_piece, of_cells, of_history, of_columns};

use history_log::HistoryRefusal;
use pieces::PieceRefusal;
use row_pred::PredRefusal;
use row_types::ColumnsRefusal;
use std::alloc::{AllocError, AllocFailed};

/// Why bytes are no report.
#[derive(Clone, Copy, PartialEq, Eq)]
pub enum ReportRefusal {
    /// The first line that is wrong, counted from 1. Where the report ends too soon it is the line
    /// behind the last whole one.
    Line { line: u64 },
    /// There was no memory.
    Memory,
}

/// Why a line is none of a report.
#[derive(Clone, Copy)]
pub enum LineRefusal {
    /// It has another form, or doesn't fit what stands before it.
    Wrong,
    /// There was no memory.
    Memory,
}

impl From<AllocError> for LineRefusal {
    ghost from_gives = { λ from made. made ≡ Memory };

    fn from(_error: AllocError) -> LineRefusal {
        LineRefusal::Memory
    }
}

impl<T: Drop> From<AllocFailed<T>> for LineRefusal {
    ghost from_gives = { λ from made. made ≡ Memory };

    fn from(_error: AllocFailed<T>) -> LineRefusal {
        LineRefusal::Memory
    }
}

impl From<PieceRefusal> for LineRefusal {
    ghost from_gives = { λ from made. made ≡ of_piece from };

    fn from(refusal: PieceRefusal) -> LineRefusal {
        match refusal {
            PieceRefusal::Syntax { .. } => LineRefusal::Wrong,
            PieceRefusal::Memory => LineRefusal::Memory,
        }
    }
}

impl From<PredRefusal> for LineRefusal {
    ghost from_gives = { λ from made. made ≡ of_cells from };

    fn from(refusal: PredRefusal) -> LineRefusal {
        match refusal {
            PredRefusal::Memory => LineRefusal::Memory,
            PredRefusal::Syntax { .. }
            | PredRefusal::Name { .. }
            | PredRefusal::Misfit { .. }
            | PredRefusal::NotNull { .. } => LineRefusal::Wrong,
        }
    }
}

impl From<HistoryRefusal> for LineRefusal {
    ghost from_gives = { λ from made. made ≡ of_history from };

    fn from(refusal: HistoryRefusal) -> LineRefusal {
        match refusal {
            HistoryRefusal::Memory => LineRefusal::Memory,
            HistoryRefusal::Syntax { .. }
            | HistoryRefusal::Name { .. }
            | HistoryRefusal::Misfit { .. }
            | HistoryRefusal::NotNull { .. }
            | HistoryRefusal::Illegal { .. } => LineRefusal::Wrong,
        }
    }
}

impl From<ColumnsRefusal> for LineRefusal {
    ghost from_gives = { λ from made. made ≡ of_columns from };

    fn from(refusal: ColumnsRefusal) -> LineRefusal {
        match refusal {
            ColumnsRefusal::Memory => LineRefusal::Memory,
            ColumnsRefusal::Count { .. }
            | ColumnsRefusal::Id { .. }
            | ColumnsRefusal::Name { .. } => { LineRefusal::Wrong }
        }
    }
}
