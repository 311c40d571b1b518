//! Definitions of names: enums and fixed types, and the begin and the end of any definition.

ghost use Rattle.std.specs.Prelude.{◌≡◌, [], map, option_map, IfOk};
ghost use Rattle.serde_json.specs.View.{view, members_view};
ghost use Rattle.std.specs.Fmt.{decimal};
ghost use Rattle.schema_tree.specs.declared.schema.Schema.TheVariants.{Enum, Rec};
ghost use Rattle.avro_schema.specs.Defined.{begun};
ghost use Rattle.avro_schema.specs.Member.{or_form, text_of};
ghost use Rattle.avro_schema.specs.Parts.{whole};
ghost use Rattle.avro_schema.specs.Reading as spec;
ghost use Rattle.avro_schema.specs.Refusal.{is_memory};
ghost use Rattle.words.specs.Reading.{Gives};

use crate::member::{fixed_size_at, list_at, text_at};
use crate::refusal::{SchemaRefusal, form, form_at, under};
use crate::seen::Seen;
use avro_wire::Text;
use json_members::{Members, member};
use lists::{Copied, List};
use schema_tree::{Fields, Name, Names, Schema, full_name};
use serde_json::Value;
use sharing::Shared;
use std::alloc::Global;

/// The namespace that a definition names. `None`: it names none. `Some(None)`: it is no text.
fn namespace_at(members: &Members) -> Option<Option<&str>>
    ensures { option_map (option_map (λ text. text.now)) result
        ≡ spec.namespace_at (members_view members.now.entries) }
{
    match member(members, "namespace") {
        Some(value) => Some(value.as_str()),
        None => None,
    }
}

/// The namespace that a definition names, or the one that it is in.
fn scope_of<'v>(scope: &'v str, namespace: Option<Option<&'v str>>) -> &'v str
    ensures { result.now
        ≡ spec.scope_of scope.now (option_map (option_map (λ text. text.now)) namespace.entry) }
{
    match namespace {
        Some(Some(namespace)) => namespace,
        _ => scope,
    }
}

/// The full name of a definition in the namespace `scope`.
pub fn name_at(
    alloc: Global,
    members: &Members,
    scope: &str,
    seen: &Seen,
) -> Result<Name, SchemaRefusal>
    ensures exact { Gives is_memory (λ name. name) result
        (spec.name_at scope.now seen.now (members_view members.now.entries)) }
{
    let word = match text_at(alloc, members, "name") {
        Ok(word) => word,
        Err(refusal) => return Err(refusal),
    };
    let namespace = namespace_at(members);
    let name = full_name(alloc, scope_of(scope, namespace), word)?;
    if seen.is_taken(name.as_str()) {
        return Err(form(alloc, "name"));
    }
    if let Some(None) = namespace {
        return Err(form(alloc, "namespace"));
    }
    Ok(Shared::new(alloc, name)?)
}

/// Takes the full name of a record in the namespace `scope`: its definition begins.
pub fn begin_record(
    alloc: Global,
    members: &Members,
    scope: &str,
    seen: &mut Seen,
) -> Result<Name, SchemaRefusal>
    ensures exact { Gives is_memory (λ name. name) result
        (spec.name_at scope.now seen.old (members_view members.now.entries)) }
    ensures ok { IfOk result (λ name. seen.new ≡ begun seen.old name) }
{
    let name = name_at(alloc, members, scope, seen)?;
    seen.begin(alloc, name.get().as_str())?;
    Ok(name)
}

/// Defines the name as the schema, and returns the schema.
fn defined_as(
    alloc: Global,
    name: Name,
    schema: Schema,
    seen: &mut Seen,
) -> Result<Schema, SchemaRefusal>
    ensures exact { Gives is_memory (λ made. (made, seen.new)) result
        (whole seen.old name schema) }
{
    seen.define(alloc, name.get().as_str(), &schema)?;
    Ok(schema)
}

/// Makes the record of these fields, and defines its name as it.
pub fn whole_record(
    alloc: Global,
    name: Name,
    fields: Fields,
    seen: &mut Seen,
) -> Result<Schema, SchemaRefusal>
    ensures exact { Gives is_memory (λ schema. (schema, seen.new)) result
        (whole seen.old name (Rec name fields)) }
{
    let key = name.copy(alloc)?;
    let fields = Shared::new(alloc, fields)?;
    defined_as(alloc, key, Schema::Rec { name, fields }, seen)
}

/// Makes the enum of these symbols, and defines its name as it.
fn whole_enum(
    alloc: Global,
    name: Name,
    symbols: Names,
    seen: &mut Seen,
) -> Result<Schema, SchemaRefusal>
    ensures exact { Gives is_memory (λ schema. (schema, seen.new)) result
        (whole seen.old name (Enum name symbols)) }
{
    let key = name.copy(alloc)?;
    let symbols = Shared::new(alloc, symbols)?;
    defined_as(alloc, key, Schema::Enum { name, symbols }, seen)
}

/// The text at a place in a list, counted from 1.
fn text_at_place(alloc: Global, place: usize, value: &Value) -> Result<Text, SchemaRefusal>
    ensures exact { Gives is_memory (λ text. text) result
        (or_form (decimal place) (text_of (view value.now))) }
{
    match value.as_str() {
        Some(text) => Ok(Text::from_str(alloc, text)?),
        None => Err(form_at(alloc, place)),
    }
}

/// The texts of a list.
fn texts_of(alloc: Global, values: &[Value]) -> Result<Names, SchemaRefusal>
    ensures exact { Gives is_memory (λ texts. texts) result
        (spec.texts_at 1 [] (map view values.now)) }
{
    let mut texts = List::new(alloc);
    let mut place = 1;
    for value in values {
        let text = text_at_place(alloc, place, value)?;
        texts.push(text)?;
        place += 1;
    }
    Ok(texts)
}

/// An enum: its name, and its symbols.
pub fn enum_of(
    alloc: Global,
    members: &Members,
    scope: &str,
    seen: &mut Seen,
) -> Result<Schema, SchemaRefusal>
    ensures exact { Gives is_memory (λ schema. (schema, seen.new)) result
        (spec.enum_at scope.now seen.old (members_view members.now.entries)) }
{
    let name = name_at(alloc, members, scope, seen)?;
    let values = list_at(alloc, members, "symbols")?;
    let symbols = under(alloc, "symbols", texts_of(alloc, values))?;
    whole_enum(alloc, name, symbols, seen)
}

/// A fixed: its name, and its size.
pub fn fixed_of(
    alloc: Global,
    members: &Members,
    scope: &str,
    seen: &mut Seen,
) -> Result<Schema, SchemaRefusal>
    ensures exact { Gives is_memory (λ schema. (schema, seen.new)) result
        (spec.fixed_at scope.now seen.old (members_view members.now.entries)) }
{
    let name = name_at(alloc, members, scope, seen)?;
    let size = fixed_size_at(alloc, members, "size")?;
    let key = name.copy(alloc)?;
    defined_as(alloc, key, Schema::Fixed { name, size }, seen)
}
