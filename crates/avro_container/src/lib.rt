//! Avro object container files: what their bytes hold.
//!
//! | Module | What it has |
//! |---|---|
//! | `refusal` | why bytes are no container |
//! | `container` | a container as plain data |
//! | `pairs` | the pairs of a header, kept as places in the input, with distinct keys |
//! | `header` | reading the magic bytes and the header's map |
//! | `block` | reading one block |
//! | `walk` | the whole framing checked, and its blocks returned one after the other |
//! | `reading` | a container as plain data, from its bytes |
//! | `writing` | the bytes of a container |
#![tactic(auto)]

mod block;
mod container;
mod header;
mod pairs;
mod reading;
mod refusal;
mod walk;
mod writing;

pub use container::{Block, Blocks, Container, Meta, bound_to};
pub use reading::read;
pub use refusal::ContainerRefusal;
pub use walk::{Walk, open_walk, reading_agrees};
pub use writing::write;
