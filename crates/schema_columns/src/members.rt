//! The members of a column's object, as a table.

ghost use Rattle.std.specs.Prelude.{◌≡◌};
ghost use Rattle.json_members.specs.Rows.{rows_of};
ghost use Rattle.schema_columns.specs.Members as spec;

use json_members::{Form, Keep, Need, Row, Version};

static MEMBERS: [Row; 3] = [
    Row {
        name: "id",
        need: Need::Needed,
        form: Form::Long,
        since: Version::Older,
        keep: Keep::InField,
    },
    Row {
        name: "name",
        need: Need::Needed,
        form: Form::Text,
        since: Version::Older,
        keep: Keep::InField,
    },
    Row {
        name: "required",
        need: Need::Needed,
        form: Form::Flag,
        since: Version::Older,
        keep: Keep::InField,
    },
];

/// The members that each column has, in the order of their checks.
pub fn members() -> &'static [Row]
    ensures { rows_of result.now ≡ spec.members }
{
    &MEMBERS
}
