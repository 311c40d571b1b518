//! Tests of the pieces of texts.
//!
//! | Module | What it tries |
//! |---|---|
//! | `marks`, `numbers`, `literals` | words and marks, numbers, and texts and bytes in quotes or digits |
#![tactic(auto)]

#[cfg(test)]
mod literals;
#[cfg(test)]
mod marks;
#[cfg(test)]
mod numbers;
