//! Histories: the texts of their requests and entries, and the audit that tries each entry as a
//! step from the state before it.
//!
//! | Module | What it has |
//! |---|---|
//! | `refusal` | why a text or a history is refused |
//! | `runs` | runs of ids in a text |
//! | `request`, `entry` | requests and entries in a text |
//! | `ids` | the ids of runs, one by one |
//! | `opening` | the test of the state that a history begins with |
//! | `rules` | the rules of one entry |
//! | `step` | the state after an entry |
//! | `history` | the audit of a whole history |
//! | `taker` | what takes the entries of a history, one by one |
//! | `auditor` | an audit that takes the entries one by one, and keeps no row |
#![tactic(auto)]

mod auditor;
mod entry;
mod history;
mod ids;
mod opening;
mod refusal;
mod request;
mod rules;
mod runs;
mod step;
mod taker;

pub use auditor::{Audit, audit_agrees};
pub use entry::{print_entry, read_entry};
pub use history::audit;
pub use lineage_model::{Rule, Tally};
pub use refusal::HistoryRefusal;
pub use request::{print_request, put_request, read_request, take_request};
pub use taker::Taker;
