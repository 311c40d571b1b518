//! The checks of how many rows a file has.

ghost use Rattle.std.specs.Prelude.{◌≡◌, ◌≤◌, IfOk};
ghost use Rattle.words.specs.Reading.{Gives, never};
ghost use Rattle.objects.specs.Blocks.{count_all};
ghost use Rattle.limits.specs.Limits.{most_rows};
ghost use Rattle.row_reading.specs.File.{check_counts, check_told, check_ids};
ghost use Rattle.row_reading.specs.Checking.{check_numbers};

use avro_container::Walk;
use limits::{FILE_ROWS, Which};
use objects::told;
use stored_rows::RowRefusal;

/// How many rows the blocks that are left say together that they have, if a file may have so many.
pub fn check_counts(walk: &mut Walk<'_>) -> Result<u64, RowRefusal>
    ensures exact { Gives never (λ _. tt) result (check_counts 0 walk.old.left) }
    ensures rows { IfOk result (λ rows.
        (rows ≡ count_all walk.old.left) × (rows ≤ most_rows)) }
    ensures whole { walk.new.whole ≡ walk.old.whole }
{
    let mut rows = 0;
    while let Some((count, _)) = walk.next() {
        rows += told(count);
        if rows > FILE_ROWS {
            return Err(RowRefusal::Limit {
                which: Which::FileRows,
                found: rows,
            });
        }
    }
    Ok(rows)
}

/// Whether the file has as many rows as the caller says, and ids that end in time.
pub fn check_numbers(rows: u64, first: Option<i64>, told: Option<i64>) -> Result<(), RowRefusal>
    requires few { rows ≤ most_rows }
    ensures { result ≡ check_numbers rows first told }
{
    check_told(told, rows)?;
    check_ids(first, rows)
}

/// Whether the file has as many rows as the caller says, if that is said.
fn check_told(told: Option<i64>, rows: u64) -> Result<(), RowRefusal>
    requires few { rows ≤ most_rows }
    ensures { result ≡ check_told told rows }
{
    let found = rows as i64;
    match told {
        Some(told) if told != found => Err(RowRefusal::RecordCount { told, found }),
        _ => Ok(()),
    }
}

/// Whether the first row id, if there is one, and the number of rows are together at most the
/// largest long.
fn check_ids(first: Option<i64>, rows: u64) -> Result<(), RowRefusal>
    requires few { rows ≤ most_rows }
    ensures { result ≡ check_ids first rows }
{
    let rows = rows as i64;
    match first {
        Some(first) if first > i64::MAX - rows => Err(RowRefusal::IdsSpent { first, rows }),
        _ => Ok(()),
    }
}
