//! The members of table metadata, as a table.

ghost use Rattle.std.specs.Prelude.{◌≡◌, take, drop};
ghost use Rattle.json_members.specs.Rows.{rows_of};
ghost use Rattle.metadata_reading.specs.Members as spec;

use json_members::{Form, Keep, Need, Row, Version};

static MEMBERS: [Row; 18] = [
    Row {
        name: "format-version",
        need: Need::Needed,
        form: Form::Long,
        since: Version::Older,
        keep: Keep::InField,
    },
    Row {
        name: "table-uuid",
        need: Need::Needed,
        form: Form::Text,
        since: Version::Older,
        keep: Keep::InField,
    },
    Row {
        name: "location",
        need: Need::Needed,
        form: Form::Text,
        since: Version::Older,
        keep: Keep::InField,
    },
    Row {
        name: "last-sequence-number",
        need: Need::Needed,
        form: Form::Natural,
        since: Version::Older,
        keep: Keep::InField,
    },
    Row {
        name: "last-updated-ms",
        need: Need::Needed,
        form: Form::Long,
        since: Version::Older,
        keep: Keep::InField,
    },
    Row {
        name: "last-column-id",
        need: Need::Needed,
        form: Form::Long,
        since: Version::Older,
        keep: Keep::Carried,
    },
    Row {
        name: "schemas",
        need: Need::Needed,
        form: Form::List,
        since: Version::Older,
        keep: Keep::Carried,
    },
    Row {
        name: "current-schema-id",
        need: Need::Needed,
        form: Form::Long,
        since: Version::Older,
        keep: Keep::InField,
    },
    Row {
        name: "partition-specs",
        need: Need::Needed,
        form: Form::List,
        since: Version::Older,
        keep: Keep::Carried,
    },
    Row {
        name: "default-spec-id",
        need: Need::Needed,
        form: Form::Int,
        since: Version::Older,
        keep: Keep::InField,
    },
    Row {
        name: "next-row-id",
        need: Need::Needed,
        form: Form::Natural,
        since: Version::Newer,
        keep: Keep::InField,
    },
    Row {
        name: "snapshots",
        need: Need::MayBeAbsent,
        form: Form::List,
        since: Version::Older,
        keep: Keep::InField,
    },
    Row {
        name: "current-snapshot-id",
        need: Need::MayBeNull,
        form: Form::Long,
        since: Version::Older,
        keep: Keep::InField,
    },
    Row {
        name: "snapshot-log",
        need: Need::MayBeAbsent,
        form: Form::List,
        since: Version::Older,
        keep: Keep::Carried,
    },
    Row {
        name: "metadata-log",
        need: Need::MayBeAbsent,
        form: Form::List,
        since: Version::Older,
        keep: Keep::Carried,
    },
    Row {
        name: "refs",
        need: Need::MayBeAbsent,
        form: Form::Object,
        since: Version::Older,
        keep: Keep::Carried,
    },
    Row {
        name: "properties",
        need: Need::MayBeAbsent,
        form: Form::Object,
        since: Version::Older,
        keep: Keep::Carried,
    },
    Row {
        name: "encryption-keys",
        need: Need::MayBeAbsent,
        form: Form::List,
        since: Version::Older,
        keep: Keep::Carried,
    },
];

/// All members, in the order of their checks.
pub fn members() -> &'static [Row]
    ensures { rows_of result.now ≡ spec.members }
{
    &MEMBERS
}

/// The member `table-uuid`.
pub fn uuid_members() -> &'static [Row]
    ensures { rows_of result.now ≡ take 1 (drop 1 spec.members) }
{
    &MEMBERS[1..2]
}

/// From `location` to `schemas`.
pub fn first_members() -> &'static [Row]
    ensures { rows_of result.now ≡ take 5 (drop 2 spec.members) }
{
    &MEMBERS[2..7]
}

/// The member `current-schema-id`.
pub fn schema_members() -> &'static [Row]
    ensures { rows_of result.now ≡ take 1 (drop 7 spec.members) }
{
    &MEMBERS[7..8]
}

/// The member `partition-specs`.
pub fn partition_members() -> &'static [Row]
    ensures { rows_of result.now ≡ take 1 (drop 8 spec.members) }
{
    &MEMBERS[8..9]
}

/// From `default-spec-id` to `snapshots`.
pub fn number_members() -> &'static [Row]
    ensures { rows_of result.now ≡ take 3 (drop 9 spec.members) }
{
    &MEMBERS[9..12]
}

/// The member `current-snapshot-id`.
pub fn current_members() -> &'static [Row]
    ensures { rows_of result.now ≡ take 1 (drop 12 spec.members) }
{
    &MEMBERS[12..13]
}

/// The members after it.
pub fn last_members() -> &'static [Row]
    ensures { rows_of result.now ≡ take 5 (drop 13 spec.members) }
{
    &MEMBERS[13..18]
}
