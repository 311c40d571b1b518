//! Avro values, written as bytes.
#![tactic(auto)]

mod writing;

pub use writing::encode;
