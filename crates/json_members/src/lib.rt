//! The members of a JSON object: looked up, taken out, put in, and checked by a table.
//!
//! | Module | What it has |
//! |---|---|
//! | `parsing` | the value of a JSON text |
//! | `members` | the member of a name, borrowed or taken out; members put in |
//! | `form` | what a value has to be, and numbers |
//! | `fault` | why a member is refused |
//! | `rows` | a table of members, the first fault in an object or in a list of objects |
//! | `values` | the values of members that a table has checked |
#![tactic(auto)]

mod fault;
mod form;
mod members;
mod parsing;
mod rows;
mod values;

pub use fault::{Fault, missing, wrong};
pub use form::{Form, has_form, int_of, is_whole, long_of, natural_of};
pub use members::{Members, member, put, put_some, take, take_items};
pub use parsing::parse;
pub use rows::{Keep, Need, Row, Version, check, check_all, each_right, leave_out_fields};
pub use values::{number_at, number_or_0, number_since, text_at};
