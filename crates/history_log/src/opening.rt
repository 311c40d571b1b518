//! The test of the state that a history begins with.

ghost use Rattle.std.specs.Prelude.{◌≡◌, pos, not, ◌&&◌, int_lt};
ghost use Rattle.std.specs.List.{list_all};
ghost use Rattle.lineage_model.specs.Opening.{is_between, has_right_next, has_right_ids, has_right_lasts, is_opening};

use history_types::State;
use row_types::{Cells, RowMap};

/// Whether a history may begin with the state: its version is 2 or 3, and its numbers agree.
/// docs/LINEAGE.md, "The rules of a history".
pub fn is_opening(state: &State) -> bool
    ensures { result ≡ is_opening state.now }
{
    (state.version == 2 || state.version == 3)
        && has_right_next(state.version, state.next)
        && state.seq >= 0
        && has_right_ids(state.next, &state.rows)
        && have_right_changes(state.seq, &state.rows)
        && has_right_lasts(state.seq, state.unnamed.as_slice())
        && (state.rows.len() == 0 || state.unnamed.is_empty())
}

/// Whether the next id is there exactly in version 3, and not below 0.
fn has_right_next(version: u8, next: Option<i64>) -> bool
    ensures { result ≡ has_right_next version next }
{
    match next {
        None => version == 2,
        Some(next) => version == 3 && next >= 0,
    }
}

/// Whether each id is from 0 on and below the next one. No id is, where there is no next one.
fn has_right_ids(next: Option<i64>, rows: &RowMap) -> bool
    ensures { result ≡ has_right_ids next rows.now }
{
    match next {
        None => rows.len() == 0,
        Some(next) => are_below(next, rows),
    }
}

/// Whether each id is from 0 on and below `next`.
fn are_below(next: i64, rows: &RowMap) -> bool
    ensures { result ≡ list_all (λ row. is_between (pos 0) next row.0) rows.now }
{
    rows.iter().all(|(id, _)| *id >= 0 && *id < next)
}

/// Whether the last change of each row with an id is from 0 to the state's sequence number.
fn have_right_changes(seq: i64, rows: &RowMap) -> bool
    ensures { result ≡ list_all
        (λ row. not (int_lt row.1.0 (pos 0)) && not (int_lt seq row.1.0)) rows.now }
{
    rows.iter().all(|(_, row)| row.0 >= 0 && row.0 <= seq)
}

/// Whether the last change of each row without an id is.
fn has_right_lasts(seq: i64, rows: &[(i64, Cells)]) -> bool
    ensures { result ≡ has_right_lasts seq rows.now }
{
    rows.iter().all(|row| row.0 >= 0 && row.0 <= seq)
}
