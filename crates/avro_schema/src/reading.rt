//! The schema that a JSON text is.

ghost use Rattle.std.specs.Prelude.{◌≡◌, [], false, is_some, map, Ok, IfOk};
ghost use Rattle.serde_json.specs.Data.{object};
ghost use Rattle.serde_json.specs.Find.{as_array};
ghost use Rattle.serde_json.specs.View.{view, members_view};
ghost use Rattle.schema_tree.specs.declared.schema.Field.{out-Field};
ghost use Rattle.schema_tree.specs.declared.schema.Schema.{Schema as ASchema};
ghost use Rattle.avro_schema.specs.Meaning.{IsSchemaText};
ghost use Rattle.avro_schema.specs.Reading as spec;
ghost use Rattle.avro_schema.specs.Parts.{schema_below, field_name_at};
ghost use Rattle.avro_schema.specs.Refusal.{is_memory, under as under_piece};
ghost use Rattle.words.specs.Reading.{Gives};

use crate::definition::{begin_record, enum_of, fixed_of, whole_record};
use crate::member::{id_at, is_text, list_at, needed, text_at};
use crate::primitive::{logical_of, primitive_of};
use crate::refusal::{SchemaRefusal, form, under, under_place};
use crate::seen::Seen;
use avro_wire::Text;
use json_members::{Members, parse};
use lists::{Distinct, List};
use schema_tree::{Branches, Field, Fields, Name, Schema, full_name, namespace_of};
use serde_json::Value;
use sharing::Shared;
use sqlite_items::Boxed;
use std::alloc::Global;

/// A schema is less deep than this: one has the depth 1, and 64 is the most.
const LEVELS: usize = 65;

/// The schema that the text is, in which each name stands as what it was defined as.
///
/// A text that is no JSON text is refused first (`NotJson`), then the first place from the top that
/// is no schema: the members of an object in the order of their bytes, all of them before what any
/// of them holds, and a list's first item with all that it holds before the second one. At one place
/// `Form` comes before `Unknown`, and that before `Nesting`. Members that say nothing of a schema are
/// ignored. docs/FORMATS.md, "Avro schemas".
#[tactic(auto, using(crate::proofs::MeansText::answers))]
pub fn read_schema(alloc: Global, text: &[u8]) -> Result<Schema, SchemaRefusal>
    ensures exact { Gives is_memory (λ schema. schema) result (spec.schema_of text.now) }
    ensures found { IfOk result (λ schema. IsSchemaText text.now schema) }
    ensures only { (schema : ASchema) → IsSchemaText text.now schema
        → Gives is_memory (λ schema. schema) result (Ok schema) }
{
    schema_of_text(alloc, text)
}

fn schema_of_text(alloc: Global, text: &[u8]) -> Result<Schema, SchemaRefusal>
    ensures exact { Gives is_memory (λ schema. schema) result (spec.schema_of text.now) }
{
    let Some(value) = parse(alloc, text)? else {
        return Err(SchemaRefusal::NotJson);
    };
    let mut seen = Seen::new(alloc);
    schema_of(alloc, &value, "", LEVELS, &mut seen)
}

/// A word alone: a primitive type, or a name.
fn word_of(
    alloc: Global,
    word: &str,
    scope: &str,
    room: usize,
    seen: &mut Seen,
) -> Result<Schema, SchemaRefusal>
    ensures exact { Gives is_memory (λ schema. (schema, seen.new)) result
        (spec.word_at room scope.now seen.old word.now (spec.primitive_of word.now)) }
{
    if let Some(primitive) = primitive_of(word) {
        seen.count_one(room)?;
        return Ok(primitive);
    }
    let name = full_name(alloc, scope, word)?;
    seen.take_use(alloc, room, word, name.as_str())
}

/// The name of a field after others.
fn field_name(
    alloc: Global,
    members: &Members,
    before: &Distinct<Field>,
) -> Result<Name, SchemaRefusal>
    ensures exact { Gives is_memory (λ name. name) result
        (field_name_at before.now (members_view members.now.entries)) }
    ensures new { IfOk result (λ name. spec.has_field before.now name ≡ false) }
{
    let name = match text_at(alloc, members, "name") {
        Ok(name) => name,
        Err(refusal) => return Err(refusal),
    };
    if before.has(name) {
        return Err(form(alloc, "name"));
    }
    Ok(Shared::new(alloc, Text::from_str(alloc, name)?)?)
}

/// The schema that the member `key` is, less deep than `room`, in the namespace `scope`.
#[cycle(read)]
fn piece_of(
    alloc: Global,
    key: &str,
    value: &Value,
    scope: &str,
    room: usize,
    seen: &mut Seen,
) -> Result<Schema, SchemaRefusal>
    ensures exact { Gives is_memory (λ schema. (schema, seen.new)) result
        (under_piece key.now (schema_below room scope.now seen.old (view value.now))) }
{
    under(alloc, key, schema_of(alloc, value, scope, room, seen))
}

/// A field after others.
#[cycle(read)]
fn field_of(
    alloc: Global,
    value: &Value,
    before: &Distinct<Field>,
    scope: &str,
    room: usize,
    seen: &mut Seen,
) -> Result<Field, SchemaRefusal>
    ensures exact { Gives is_memory (λ field. (field, seen.new)) result
        (spec.field_at (schema_below room scope.now) before.now seen.old (view value.now)) }
    ensures new { IfOk result (λ field. spec.has_field before.now (out-Field field).name ≡ false) }
{
    let Some(members) = value.as_object() else {
        return Err(form(alloc, ""));
    };
    let id = id_at(alloc, members, "field-id")?;
    let name = field_name(alloc, members, before)?;
    let value = needed(alloc, members, "type")?;
    let schema = piece_of(alloc, "type", value, scope, room, seen)?;
    Ok(Field { name, id, schema })
}

/// The fields of a record.
#[cycle(read)]
fn fields_of(
    alloc: Global,
    values: &[Value],
    scope: &str,
    room: usize,
    seen: &mut Seen,
) -> Result<Fields, SchemaRefusal>
    ensures exact { Gives is_memory (λ fields. (fields, seen.new)) result
        (spec.fields_at (schema_below room scope.now) 1 [] seen.old (map view values.now)) }
{
    let mut fields = Distinct::new(alloc);
    let mut place = 1;
    for value in values {
        let field = under_place(
            alloc,
            place,
            field_of(alloc, value, &fields, scope, room, seen),
        )?;
        fields.push(alloc, field)?;
        place += 1;
    }
    Ok(fields.into_list())
}

/// Whether the value is a union: a list.
fn is_union(value: &Value) -> bool
    ensures { result ≡ is_some (as_array (view value.now)) }
{
    value.is_array()
}

/// A branch of a union, which is no union.
#[cycle(read)]
fn branch_of(
    alloc: Global,
    value: &Value,
    scope: &str,
    room: usize,
    seen: &mut Seen,
) -> Result<Schema, SchemaRefusal>
    ensures exact { Gives is_memory (λ schema. (schema, seen.new)) result
        (spec.branch_at (schema_below room scope.now) seen.old (view value.now)) }
{
    if is_union(value) {
        return Err(form(alloc, ""));
    }
    schema_of(alloc, value, scope, room, seen)
}

/// The branches of a union.
#[cycle(read)]
fn branches_of(
    alloc: Global,
    values: &[Value],
    scope: &str,
    room: usize,
    seen: &mut Seen,
) -> Result<Branches, SchemaRefusal>
    ensures exact { Gives is_memory (λ branches. (branches, seen.new)) result
        (spec.branches_at (schema_below room scope.now) 1 [] seen.old (map view values.now)) }
{
    let mut branches = List::new(alloc);
    let mut place = 1;
    for value in values {
        let branch = under_place(alloc, place, branch_of(alloc, value, scope, room, seen))?;
        branches.push(branch)?;
        place += 1;
    }
    Ok(branches)
}

/// A union: its branches, of which there is one at least.
#[cycle(read)]
fn union_of(
    alloc: Global,
    values: &[Value],
    scope: &str,
    room: usize,
    seen: &mut Seen,
) -> Result<Schema, SchemaRefusal>
    ensures exact { Gives is_memory (λ schema. (schema, seen.new)) result
        (spec.union_at (schema_below room) scope.now room seen.old (map view values.now)) }
{
    if values.is_empty() {
        return Err(form(alloc, ""));
    }
    seen.count_one(room)?;
    Ok(Schema::Union(branches_of(alloc, values, scope, room, seen)?))
}

/// A record: its fields, and its name.
#[cycle(read)]
fn record_of(
    alloc: Global,
    members: &Members,
    scope: &str,
    room: usize,
    seen: &mut Seen,
) -> Result<Schema, SchemaRefusal>
    ensures exact { Gives is_memory (λ schema. (schema, seen.new)) result
        (spec.record_at (schema_below room) scope.now seen.old (members_view members.now.entries)) }
{
    let values = list_at(alloc, members, "fields")?;
    let name = begin_record(alloc, members, scope, seen)?;
    let inside = namespace_of(name.get().as_str());
    let fields = under(
        alloc,
        "fields",
        fields_of(alloc, values, inside, room, seen),
    )?;
    whole_record(alloc, name, fields, seen)
}

/// An array: the schema of its items.
#[cycle(read)]
fn array_of(
    alloc: Global,
    members: &Members,
    scope: &str,
    room: usize,
    seen: &mut Seen,
) -> Result<Schema, SchemaRefusal>
    ensures exact { Gives is_memory (λ schema. (schema, seen.new)) result
        (spec.array_at (schema_below room) scope.now seen.old (members_view members.now.entries)) }
{
    let element_id = id_at(alloc, members, "element-id")?;
    let value = needed(alloc, members, "items")?;
    let items = piece_of(alloc, "items", value, scope, room, seen)?;
    Ok(Schema::Array {
        items: Boxed::new(alloc, items)?,
        element_id,
        keyed: is_text(members, "logicalType", "map"),
    })
}

/// A map: the schema of its values.
#[cycle(read)]
fn map_of(
    alloc: Global,
    members: &Members,
    scope: &str,
    room: usize,
    seen: &mut Seen,
) -> Result<Schema, SchemaRefusal>
    ensures exact { Gives is_memory (λ schema. (schema, seen.new)) result
        (spec.map_at (schema_below room) scope.now seen.old (members_view members.now.entries)) }
{
    let key_id = id_at(alloc, members, "key-id")?;
    let value_id = id_at(alloc, members, "value-id")?;
    let value = needed(alloc, members, "values")?;
    let values = piece_of(alloc, "values", value, scope, room, seen)?;
    Ok(Schema::Map {
        values: Boxed::new(alloc, values)?,
        key_id,
        value_id,
    })
}

/// An object whose type is no primitive one.
#[cycle(read)]
fn complex_of(
    alloc: Global,
    word: &str,
    members: &Members,
    scope: &str,
    room: usize,
    seen: &mut Seen,
) -> Result<Schema, SchemaRefusal>
    ensures exact { Gives is_memory (λ schema. (schema, seen.new)) result
        (spec.complex_at (schema_below room) scope.now seen.old (members_view members.now.entries)
        word.now) }
{
    match word {
        "record" => record_of(alloc, members, scope, room, seen),
        "enum" => enum_of(alloc, members, scope, seen),
        "fixed" => fixed_of(alloc, members, scope, seen),
        "array" => array_of(alloc, members, scope, room, seen),
        "map" => map_of(alloc, members, scope, room, seen),
        _ => Err(form(alloc, "type")),
    }
}

/// An object, by the word of its type.
#[cycle(read)]
fn object_of(
    alloc: Global,
    members: &Members,
    scope: &str,
    room: usize,
    seen: &mut Seen,
) -> Result<Schema, SchemaRefusal>
    ensures exact { Gives is_memory (λ schema. (schema, seen.new)) result
        (spec.layer_at (schema_below room) room scope.now seen.old
        (object (members_view members.now.entries))) }
{
    seen.count_one(room)?;
    let word = match text_at(alloc, members, "type") {
        Ok(word) => word,
        Err(refusal) => return Err(refusal),
    };
    match primitive_of(word) {
        Some(primitive) => Ok(logical_of(word, members, primitive)),
        None => complex_of(alloc, word, members, scope, room, seen),
    }
}

/// The schema that a value is, where `room` levels may stand from it down.
#[cycle(read)]
fn layer_of(
    alloc: Global,
    value: &Value,
    scope: &str,
    room: usize,
    seen: &mut Seen,
) -> Result<Schema, SchemaRefusal>
    ensures exact { Gives is_memory (λ schema. (schema, seen.new)) result
        (spec.layer_at (schema_below room) room scope.now seen.old (view value.now)) }
{
    match value {
        Value::String(word) => word_of(alloc, word.as_str(), scope, room, seen),
        Value::Array(values) => union_of(alloc, values.as_slice(), scope, room, seen),
        Value::Object(members) => object_of(alloc, members, scope, room, seen),
        _ => Err(form(alloc, "")),
    }
}

/// The schema that a value is, less deep than `levels`, in the namespace `scope`.
#[cycle(read)]
fn schema_of(
    alloc: Global,
    value: &Value,
    scope: &str,
    levels: usize,
    seen: &mut Seen,
) -> Result<Schema, SchemaRefusal>
    ensures exact { Gives is_memory (λ schema. (schema, seen.new)) result
        (schema_below levels scope.now seen.old (view value.now)) }
{
    if levels == 0 {
        return Err(SchemaRefusal::Nesting);
    }
    layer_of(alloc, value, scope, levels - 1, seen)
}
