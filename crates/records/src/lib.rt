//! A reader of records as objects of a container, each of which makes a value of its cells.
#![tactic(auto)]

mod record;

pub use record::{FromCells, OwnedCells, Records};
