//! Tests of what files inherit from their manifests, and of what a commit gives to manifests.
//!
//! | Module | What it has |
//! |---|---|
//! | `assignment` | the first row ids of manifests, and the next id, or the refusal |
//! | `copies` | entries with all statistics, and their copies |
//! | `files` | entries and manifests made from tables |
//! | `first_ids` | the first row ids of entries, or the refusal |
//! | `sequences` | the data sequence numbers of entries, or the refusal |
#![tactic(auto)]

#[cfg(test)]
mod assignment;
#[cfg(test)]
mod copies;
#[cfg(test)]
mod files;
#[cfg(test)]
mod first_ids;
#[cfg(test)]
mod sequences;
