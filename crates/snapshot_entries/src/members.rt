//! The members of a snapshot's object, as a table.

ghost use Rattle.std.specs.Prelude.{◌≡◌, take, drop};
ghost use Rattle.json_members.specs.Rows.{rows_of};
ghost use Rattle.snapshot_entries.specs.Members as spec;

use json_members::{Form, Keep, Need, Row, Version};

static MEMBERS: [Row; 8] = [
    Row {
        name: "snapshot-id",
        need: Need::Needed,
        form: Form::Natural,
        since: Version::Older,
        keep: Keep::InField,
    },
    Row {
        name: "timestamp-ms",
        need: Need::Needed,
        form: Form::Long,
        since: Version::Older,
        keep: Keep::InField,
    },
    Row {
        name: "sequence-number",
        need: Need::MayBeAbsent,
        form: Form::Natural,
        since: Version::Older,
        keep: Keep::InField,
    },
    Row {
        name: "parent-snapshot-id",
        need: Need::MayBeNull,
        form: Form::Long,
        since: Version::Older,
        keep: Keep::InField,
    },
    Row {
        name: "schema-id",
        need: Need::MayBeNull,
        form: Form::Long,
        since: Version::Older,
        keep: Keep::InField,
    },
    Row {
        name: "first-row-id",
        need: Need::MayBeNull,
        form: Form::Natural,
        since: Version::Newer,
        keep: Keep::InField,
    },
    Row {
        name: "added-rows",
        need: Need::MayBeNull,
        form: Form::Natural,
        since: Version::Newer,
        keep: Keep::InField,
    },
    Row {
        name: "manifest-list",
        need: Need::MayBeAbsent,
        form: Form::Any,
        since: Version::Older,
        keep: Keep::InField,
    },
];

/// All members, in the order of their checks.
pub fn members() -> &'static [Row]
    ensures { rows_of result.now ≡ spec.members }
{
    &MEMBERS
}

/// The members that are checked before the sequence number is compared.
pub fn first_members() -> &'static [Row]
    ensures { rows_of result.now ≡ take 3 spec.members }
{
    &MEMBERS[..3]
}

/// The members that are checked after it.
pub fn other_members() -> &'static [Row]
    ensures { rows_of result.now ≡ drop 3 spec.members }
{
    &MEMBERS[3..]
}
