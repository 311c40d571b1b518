//! Tests of containers, from the standard, from outside and by hand.
//!
//! | Module | What it tries |
//! |---|---|
//! | `rows` | what is asserted of a table |
//! | `containers`, `no_containers`, `walks` | files that are containers, that are none, and their blocks |
#![tactic(auto)]

#[cfg(test)]
mod containers;
#[cfg(test)]
mod no_containers;
#[cfg(test)]
mod rows;
#[cfg(test)]
mod walks;
