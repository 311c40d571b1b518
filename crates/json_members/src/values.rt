//! The values of members that a table has checked.

ghost use Rattle.std.specs.Prelude.{◌≡◌, option_map};
ghost use Rattle.serde_json.specs.Find.{get_member};
ghost use Rattle.serde_json.specs.View.{members_view};
ghost use Rattle.json_members.specs.Values as spec;

use crate::form::long_of;
use crate::members::{Members, member};
use crate::rows::Version;

/// The member's whole number of 64 bits. `None`: it is missing, or is something else.
pub fn number_at(members: &Members, name: &str) -> Option<i64>
    ensures { result ≡ spec.number_in (get_member name.now (members_view members.now.entries)) }
{
    match member(members, name) {
        Some(value) => long_of(value),
        None => None,
    }
}

/// The same of a member that only the newer version has. `None` in the older version.
pub fn number_since(version: Version, members: &Members, name: &str) -> Option<i64>
    ensures { result ≡ spec.number_since version
        (get_member name.now (members_view members.now.entries)) }
{
    match version {
        Version::Older => None,
        Version::Newer => number_at(members, name),
    }
}

/// The member's whole number of 64 bits, or 0 if there is none.
pub fn number_or_0(members: &Members, name: &str) -> i64
    ensures { result ≡ spec.number_or_0 (get_member name.now (members_view members.now.entries)) }
{
    match number_at(members, name) {
        Some(number) => number,
        None => 0,
    }
}

/// The member's text, borrowed. `None`: it is missing, or is something else.
pub fn text_at<'v>(members: &'v Members, name: &str) -> Option<&'v str>
    ensures { option_map (λ text. text.now) result
        ≡ spec.text_in (get_member name.now (members_view members.now.entries)) }
{
    match member(members, name) {
        Some(value) => value.as_str(),
        None => None,
    }
}
