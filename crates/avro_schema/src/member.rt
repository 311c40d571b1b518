//! The members of a JSON object, as far as a schema needs them.

ghost use Rattle.std.specs.Prelude.{◌≡◌, map, option_map, option_and_then};
ghost use Rattle.serde_json.specs.Find.{get_member};
ghost use Rattle.serde_json.specs.View.{view, members_view};
ghost use Rattle.avro_schema.specs.Member as spec;
ghost use Rattle.avro_schema.specs.Refusal.{is_memory};
ghost use Rattle.words.specs.Reading.{Gives};

use crate::refusal::{SchemaRefusal, form};
use json_members::{Members, int_of, member};
use serde_json::Value;
use std::alloc::Global;

/// A member that has to be there.
pub fn needed<'v>(
    alloc: Global,
    members: &'v Members,
    key: &str,
) -> Result<&'v Value, SchemaRefusal>
    ensures exact { Gives is_memory (λ value. view value.now) result
        (spec.needed key.now (members_view members.now.entries)) }
{
    match member(members, key) {
        Some(value) => Ok(value),
        None => Err(form(alloc, key)),
    }
}

/// The text of a member. `None`: there is no such member, or it is no text.
pub fn text_of<'v>(members: &'v Members, key: &str) -> Option<&'v str>
    ensures { option_map (λ text. text.now) result
        ≡ option_and_then spec.text_of (get_member key.now (members_view members.now.entries)) }
{
    match member(members, key) {
        Some(value) => value.as_str(),
        None => None,
    }
}

/// A member that has to be a text.
pub fn text_at<'v>(alloc: Global, members: &'v Members, key: &str) -> Result<&'v str, SchemaRefusal>
    ensures exact { Gives is_memory (λ text. text.now) result
        (spec.text_at key.now (members_view members.now.entries)) }
{
    match text_of(members, key) {
        Some(text) => Ok(text),
        None => Err(form(alloc, key)),
    }
}

/// The items of a list. `None`: the value is none.
fn items_of(value: &Value) -> Option<&[Value]>
    ensures { option_map (λ values. map view values.now) result ≡ spec.list_of (view value.now) }
{
    match value.as_array() {
        Some(values) => Some(values.as_slice()),
        None => None,
    }
}

/// The items of a member. `None`: there is no such member, or it is no list.
fn list_of<'v>(members: &'v Members, key: &str) -> Option<&'v [Value]>
    ensures { option_map (λ values. map view values.now) result
        ≡ option_and_then spec.list_of (get_member key.now (members_view members.now.entries)) }
{
    match member(members, key) {
        Some(value) => items_of(value),
        None => None,
    }
}

/// A member that has to be a list.
pub fn list_at<'v>(
    alloc: Global,
    members: &'v Members,
    key: &str,
) -> Result<&'v [Value], SchemaRefusal>
    ensures exact { Gives is_memory (λ values. map view values.now) result
        (spec.list_at key.now (members_view members.now.entries)) }
{
    match list_of(members, key) {
        Some(values) => Ok(values),
        None => Err(form(alloc, key)),
    }
}

/// A size of a fixed, in bytes. `None`: the value is no whole number up to 1,048,576.
fn size_of(value: &Value) -> Option<u32>
    ensures { result ≡ spec.fixed_size_of (view value.now) }
{
    let size = value.as_u64()?;
    if size > 1_048_576 {
        return None;
    }
    Some(size as u32)
}

/// A member that has to be a size of a fixed, in bytes.
pub fn fixed_size_at(alloc: Global, members: &Members, key: &str) -> Result<u32, SchemaRefusal>
    ensures exact { Gives is_memory (λ size. size) result
        (spec.fixed_size_at key.now (members_view members.now.entries)) }
{
    if let Some(value) = member(members, key) {
        if let Some(size) = size_of(value) {
            return Ok(size);
        }
    }
    Err(form(alloc, key))
}

/// An id, which may be absent. `None`: it is.
pub fn id_at(alloc: Global, members: &Members, key: &str) -> Result<Option<i32>, SchemaRefusal>
    ensures exact { Gives is_memory (λ id. id) result
        (spec.id_at key.now (members_view members.now.entries)) }
{
    let Some(value) = member(members, key) else {
        return Ok(None);
    };
    match int_of(value) {
        Some(id) => Ok(Some(id)),
        None => Err(form(alloc, key)),
    }
}

/// Whether the member is there, and is this text.
pub fn is_text(members: &Members, key: &str, word: &str) -> bool
    ensures { result
        ≡ spec.is_text (get_member key.now (members_view members.now.entries)) word.now }
{
    match text_of(members, key) {
        Some(text) => text == word,
        None => false,
    }
}

/// Whether the member is there, and is true.
pub fn is_true(members: &Members, key: &str) -> bool
    ensures { result ≡ spec.is_true (get_member key.now (members_view members.now.entries)) }
{
    match member(members, key) {
        Some(value) => value.as_bool() == Some(true),
        None => false,
    }
}
