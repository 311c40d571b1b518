//! The objects in the blocks of a container, read by any reader of one object.
//!
//! | Module | What it has |
//! |---|---|
//! | `object` | what a reader of one object promises |
//! | `blocks` | the objects of all blocks, shown one after the other |
//! | `collected` | all objects, in memory of their own |
#![tactic(auto)]

mod blocks;
mod collected;
mod object;

pub use blocks::{Objects, told};
pub use collected::{collect, read_all};
pub use object::{Object, Owning};
