//! One column of a schema's list.

ghost use Rattle.std.specs.Prelude.{◌≡◌};
ghost use Rattle.serde_json.specs.View.{view, members_view};
ghost use Rattle.words.specs.Reading.{Gives};
ghost use Rattle.schema_columns.specs.Reading as spec;
ghost use Rattle.schema_columns.specs.Refusal.{is_memory};

use crate::kind::kind_of;
use crate::refusal::ColumnRefusal;
use avro_wire::Text;
use json_members::{Members, int_of, member, text_at};
use row_types::{Column, Kind};
use std::alloc::Global;

/// The kind of a column. `None`: its type is none that rowline has, or it has a default value.
pub fn kind_in(members: &Members) -> Option<Kind>
    ensures { result ≡ spec.kind_in (members_view members.now.entries) }
{
    if is_set(members, "initial-default") || is_set(members, "write-default") {
        return None;
    }
    match text_at(members, "type") {
        Some(word) => kind_of(word),
        None => None,
    }
}

/// The name of a column, borrowed. Empty: it has none.
pub fn name_in(members: &Members) -> &str
    ensures { result.now ≡ spec.name_in (members_view members.now.entries) }
{
    match text_at(members, "name") {
        Some(name) => name,
        None => "",
    }
}

/// The column of the members, once they and its kind were checked.
pub fn column_in(alloc: Global, members: &Members) -> Result<Column, ColumnRefusal>
    ensures exact { Gives is_memory (λ column. column) result
        (spec.column_in (members_view members.now.entries)) }
{
    let Some(id) = id_in(members) else {
        return Err(ColumnRefusal::Fields);
    };
    let kind = kind_or_boolean(members);
    let required = required_in(members);
    let name = Text::from_str(alloc, name_in(members))?;
    Ok(Column {
        id,
        name,
        kind,
        required,
    })
}

/// The id of a column. `None`: it has none of 32 bits.
fn id_in(members: &Members) -> Option<i32>
    ensures { result ≡ spec.id_in (members_view members.now.entries) }
{
    match member(members, "id") {
        Some(value) => int_of(value),
        None => None,
    }
}

fn kind_or_boolean(members: &Members) -> Kind
    ensures { result ≡ spec.kind_or_boolean (members_view members.now.entries) }
{
    match kind_in(members) {
        Some(kind) => kind,
        None => Kind::Boolean,
    }
}

/// Whether no cell of the column may be null.
fn required_in(members: &Members) -> bool
    ensures { result ≡ spec.required_in (members_view members.now.entries) }
{
    let flag = match member(members, "required") {
        Some(value) => value.as_bool(),
        None => None,
    };
    match flag {
        Some(flag) => flag,
        None => false,
    }
}

/// Whether there is a member of the name that isn't null.
fn is_set(members: &Members, name: &str) -> bool
    ensures { result ≡ spec.is_set_at name.now (members_view members.now.entries) }
{
    match member(members, name) {
        Some(value) => !value.is_null(),
        None => false,
    }
}
