//! Values with several owners, which contracts see as the values.
#![tactic(auto)]

mod shared;

pub use shared::Shared;
