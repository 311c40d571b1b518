//! What the engine asks of the world outside it: traits, a form of each in memory, and readers and writers as theirs.
//!
//! | Module | What it has |
//! |---|---|
//! | `failure` | how a call on the outside fails |
//! | `source`, `sink` | bytes that come in, bytes that go out |
//! | `calls` | which calls of a form in memory fail |
//! | `mem_source`, `mem_sink` | the same in memory, with calls that fail when they are told to |
//! | `reader_source`, `writer_sink` | readers and writers as sources and sinks |
#![tactic(auto)]

mod calls;
mod failure;
mod mem_sink;
mod mem_source;
mod reader_source;
mod sink;
mod source;
mod writer_sink;

pub use failure::{Failed, PortError};
pub use mem_sink::MemSink;
pub use mem_source::MemSource;
pub use reader_source::ReaderSource;
pub use sink::Sink;
pub use source::Source;
pub use writer_sink::WriterSink;
