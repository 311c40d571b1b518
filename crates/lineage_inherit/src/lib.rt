//! What the files of a table inherit from their manifests, and what a commit gives to manifests.
//!
//! | Module | What it has |
//! |---|---|
//! | `sequence` | the data sequence numbers of a manifest's files |
//! | `first_row_id` | their first row ids |
//! | `assignment` | the first row ids that a commit gives to manifests |
//! | `live` | whether an entry is live |
//! | `refusal` | why there is none |
#![tactic(auto)]

mod assignment;
mod first_row_id;
mod live;
mod refusal;
mod sequence;

pub use assignment::assign;
pub use first_row_id::first_ids;
pub use refusal::InheritRefusal;
pub use sequence::sequences;
