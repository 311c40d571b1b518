//! How large what is read and written may be.
//!
//! | Module | What it has |
//! |---|---|
//! | `limit` | the limits of the program |
//! | `which` | the limit that is broken |
#![tactic(auto)]

mod limit;
mod which;

pub use limit::{FILE_ROWS, INPUT, OBJECT, ROWS_INPUT};
pub use which::Which;
