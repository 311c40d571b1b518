//! A run of the program over any source and sinks.
//!
//! | Module | What it has |
//! |---|---|
//! | `run` | a run of the program over any source and sinks |
//! | `laws` | what follows for every run |
//! | `command` | what the words of a command line ask for, and doing it: a module for each command |
//! | `natural` | the number that a word stands for |
//! | `ending`, `class` | the status and the line of a run that doesn't answer |
//! | `line` | the text of a refusal |
//! | `printing`, `row_line` | the lines of rows |
//! | `parts` | bytes that may be longer than the buffer |
//! | `input`, `output` | reading a source to its end, writing text to a sink |
#![tactic(auto)]

mod class;
mod command;
mod ending;
mod input;
pub mod laws;
mod line;
mod natural;
mod output;
mod parts;
mod printing;
mod row_line;
mod run;

pub use ending::{Ending, status_of, tell};
pub use run::run_alone;
