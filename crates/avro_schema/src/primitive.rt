//! Primitive types, and what their numbers stand for.

ghost use Rattle.std.specs.Prelude.{◌≡◌};
ghost use Rattle.serde_json.specs.View.{members_view};
ghost use Rattle.avro_schema.specs.Reading as spec;

use crate::member::{is_true, text_of};
use json_members::Members;
use schema_tree::{Logical, Schema};

/// The type that the word names. `None`: it names no primitive type.
pub fn primitive_of(word: &str) -> Option<Schema>
    ensures { result ≡ spec.primitive_of word.now }
{
    match word {
        "null" => Some(Schema::Null),
        "boolean" => Some(Schema::Boolean),
        "int" => Some(Schema::Int(Logical::Plain)),
        "long" => Some(Schema::Long(Logical::Plain)),
        "float" => Some(Schema::Float),
        "double" => Some(Schema::Double),
        "bytes" => Some(Schema::Raw),
        "string" => Some(Schema::Str),
        _ => None,
    }
}

/// What an int with these members stands for.
fn logical_int(members: &Members) -> Logical
    ensures { result ≡ spec.logical_int (members_view members.now.entries) }
{
    match text_of(members, "logicalType") {
        Some(logical_type) => Logical::of_int(logical_type),
        None => Logical::Plain,
    }
}

/// What a long with these members stands for. `adjust-to-utc` counts only if it is true.
fn logical_long(members: &Members) -> Logical
    ensures { result ≡ spec.logical_long (members_view members.now.entries) }
{
    match text_of(members, "logicalType") {
        Some(logical_type) => Logical::of_long(logical_type, is_true(members, "adjust-to-utc")),
        None => Logical::Plain,
    }
}

/// The type that the word names, which is `schema`, with what the other members say of it.
pub fn logical_of(word: &str, members: &Members, schema: Schema) -> Schema
    ensures { result ≡ spec.logical_of word.now (members_view members.now.entries) schema }
{
    match word {
        "int" => Schema::Int(logical_int(members)),
        "long" => Schema::Long(logical_long(members)),
        _ => schema,
    }
}
