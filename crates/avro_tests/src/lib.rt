//! Tests of Avro's numbers, texts and values: the standard's examples, and others by hand.
//!
//! | Module | What it tries |
//! |---|---|
//! | `rows` | what is asserted of a table, and the schema that a row names |
//! | `numbers`, `sized` | numbers, and bytes and texts with their lengths, in `avro_wire` |
//! | `parts` | the parts of a value, as tables name them |
//! | `values`, `no_values`, `fitting` | bytes that are values, that are none, and values that fit |
#![tactic(auto)]

#[cfg(test)]
mod fitting;
#[cfg(test)]
mod no_values;
#[cfg(test)]
mod numbers;
#[cfg(test)]
mod parts;
#[cfg(test)]
mod rows;
#[cfg(test)]
mod sized;
#[cfg(test)]
mod values;
