//! Tests of rows, requests, entries, histories and reports as texts.
//!
//! | Module | What it tries |
//! |---|---|
//! | `rows` | what is asserted of a table |
//! | `tables` | nothing: it makes columns and cells of what a table tells |
//! | `answers` | nothing: it compares what texts are read as with what a table tells |
//! | `cells`, `requests`, `entries` | rows, requests and entries, with the runs of ids in them |
//! | `audits` | histories, and what is said of them |
//! | `reports` | reports, read and printed |
#![tactic(auto)]

#[cfg(test)]
mod answers;
#[cfg(test)]
mod audits;
#[cfg(test)]
mod cells;
#[cfg(test)]
mod entries;
#[cfg(test)]
mod reports;
#[cfg(test)]
mod requests;
#[cfg(test)]
mod rows;
#[cfg(test)]
mod tables;
