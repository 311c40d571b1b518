//! The plain types of a table's history.
//!
//! | Module | What it has |
//! |---|---|
//! | `request` | what is asked of a table |
//! | `entry` | one commit, as the history tells it |
//! | `state` | what a table holds at one point of its history |
#![tactic(auto)]

mod entry;
mod request;
mod state;

pub use entry::{Entries, Entry, Run, Runs};
pub use request::{Paths, Request};
pub use state::State;
