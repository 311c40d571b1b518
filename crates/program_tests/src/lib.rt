//! Tests of whole runs of the program, and of the sources and sinks in memory that they use.
//!
//! | Module | What it has |
//! |---|---|
//! | `running` | a run in a table: its words and its input, and how it ends |
//! | `command_lines` | words that ask for no command |
//! | `files` | `rows` of data files, with their lines or their refusals |
//! | `long_cells` | `rows` of data files with cells that are longer than the buffer |
//! | `lineage` | the ids and the last changes in the lines of `rows` |
//! | `audits` | `audit` of reports |
//! | `outside` | calls that fail or move few bytes, and inputs at their limits |
//! | `ports` | sources and sinks in memory, each through its trait |
//! | `wanting` | an output for which memory runs out |
//! | `first_calls` | readers and writers whose first call answers otherwise than the later ones |
#![tactic(auto)]

#[cfg(test)]
mod audits;
#[cfg(test)]
mod command_lines;
#[cfg(test)]
mod files;
#[cfg(test)]
mod first_calls;
#[cfg(test)]
mod lineage;
#[cfg(test)]
mod long_cells;
#[cfg(test)]
mod outside;
#[cfg(test)]
mod ports;
#[cfg(test)]
mod running;
#[cfg(test)]
mod wanting;
