//! Lists that contracts see as lists, with a copy that equals it, and with distinct keys.
//!
//! | Module | What it has |
//! |---|---|
//! | `copied` | values of which an equal one can be made |
//! | `list` | the list |
//! | `keyed` | values that have a key |
//! | `distinct` | the list whose items have distinct keys |
#![tactic(auto)]

mod copied;
mod distinct;
mod keyed;
mod list;

pub use copied::Copied;
pub use distinct::Distinct;
pub use keyed::Keyed;
pub use list::List;
