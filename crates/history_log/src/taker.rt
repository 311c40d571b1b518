//! What takes the entries of a history, one by one.

ghost use Rattle.std.specs.Prelude.{◌≡◌, List, IfOk};
ghost use Rattle.row_types.specs.declared.column.Column.{Column as AColumn};
ghost use Rattle.history_types.specs.declared.entry.Entry.{Entry as AEntry};
ghost use Rattle.history_types.specs.declared.state.State.{State as AState};
ghost use Rattle.history_types.specs.Fits.{FitsEntry};

use history_types::{Entry, State};
use std::alloc::{AllocError, Global};

/// What takes the entries of a history, one by one, and keeps of each what it needs.
pub trait Taker: Drop {
    /// What it is before the first entry.
    ghost begun: { AState → Self };

    /// What it is behind one entry more.
    ghost more: { Self → AEntry → Self };

    /// What it keeps of entries that fit the columns.
    ghost fits: { List AColumn → Self → Type 0 };

    /// Begins with the state that the history begins with.
    fn begin(alloc: Global, start: State) -> Self
        ensures exact { result ≡ begun start }
        ensures fits { (columns : List AColumn) → fits columns result };

    /// Takes the next entry. An `Err` says that memory ran out.
    fn take(self, entry: Entry) -> Result<Self, AllocError>
        ensures exact { IfOk result (λ after. after ≡ more self entry) }
        ensures fits { (columns : List AColumn) → fits columns self → FitsEntry columns entry
            → IfOk result (fits columns) };
}
