//! The id of a row, and its last change, at its position in a file.

ghost use Rattle.std.specs.Prelude.{◌≡◌, ◌^◌, ◌+ℤ◌, ◌<ℤ◌, pos, IfSome};
ghost use Rattle.stored_rows.specs.Row.{row_id_of, row_last_of};

/// The id of the row at `position`, counted from 0 over all rows of the file: its own where one is
/// `stored`, else the file's `first` id and the position. `first`: None if the file has no ids;
/// `stored`: None if the row has none, or null. The answer is None if the row has no id.
/// Iceberg spec, "Row Lineage".
pub fn row_id(first: Option<i64>, stored: Option<i64>, position: u32) -> Option<i64>
    requires fits { IfSome first (λ id. (id +ℤ pos position) <ℤ pos (2 ^ 63)) }
    ensures { result ≡ row_id_of first stored position }
{
    match (stored, first) {
        (Some(id), _) => Some(id),
        (None, Some(id)) => Some(id + position as i64),
        (None, None) => None,
    }
}

/// The sequence number of the row's last change: its own where one is `stored`, else `sequence`,
/// the data sequence number of the file's entry. `stored`: None if the row has none, or null.
/// Iceberg spec, "Row Lineage".
pub fn row_last(stored: Option<i64>, sequence: i64) -> i64
    ensures { result ≡ row_last_of stored sequence }
{
    match stored {
        Some(last) => last,
        None => sequence,
    }
}
