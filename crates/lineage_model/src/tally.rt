//! The numbers of a state.

/// The numbers of a state. The rules of a history look at nothing else of it, so an audit that
/// keeps them needs no row.
#[derive(Clone, Copy)]
pub struct Tally {
    /// The version of the format: 2 or 3.
    pub version: u8,
    /// How many rows have no id.
    pub unnamed: usize,
    /// How many rows have one.
    pub rows: usize,
    /// The next id that the table gives. `None`: it gives no ids.
    pub next: Option<i64>,
    /// The sequence number of the last commit that made a snapshot.
    pub seq: i64,
}
