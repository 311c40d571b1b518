//! An entry of a table's history.

use crate::request::Request;
use lists::{Copied, List};
use std::alloc::{AllocError, Global};

/// Ids that follow one another.
#[derive(Clone, Copy, PartialEq, Eq)]
pub struct Run {
    /// The first id.
    pub first: i64,
    /// How many ids there are: at least 1.
    pub count: i64,
}

/// Runs of ids. Where one would go on where the one before it ends, the two are one.
pub type Runs = List<Run>;

/// One commit, as the history tells it.
#[derive(Drop)]
pub struct Entry {
    /// Whose commit it is.
    pub who: u64,
    /// What was asked.
    pub request: Request,
    /// The commit's sequence number. `None`: it made no snapshot.
    pub seq: Option<i64>,
    /// The ids that the commit gave to the rows that had none, in their order.
    pub named: Runs,
    /// The ids of the appended rows, in their order.
    pub given: Runs,
    /// The next id that the table gives after the commit. `None`: the table gives no ids.
    pub next: Option<i64>,
}

/// A history, its oldest commit first.
pub type Entries = List<Entry>;

impl Copied for Run {
    fn copy(&self, _alloc: Global) -> Result<Run, AllocError> {
        Ok(*self)
    }
}

impl Copied for Entry {
    fn copy(&self, alloc: Global) -> Result<Entry, AllocError> {
        Ok(Entry {
            who: self.who,
            request: self.request.copy(alloc)?,
            seq: self.seq,
            named: self.named.copy(alloc)?,
            given: self.given.copy(alloc)?,
            next: self.next,
        })
    }
}
