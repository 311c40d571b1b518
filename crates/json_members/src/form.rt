//! What a value has to be, and numbers.

ghost use Rattle.std.specs.Prelude.{◌≡◌, not};
ghost use Rattle.serde_json.specs.View.{view, items_view, members_view};
ghost use Rattle.serde_json.specs.Written.{has_float, items_have_float, members_have_float};
ghost use Rattle.json_members.specs.Form as spec;

use serde_json::{Map, Value};

/// What a value has to be.
#[derive(Clone, Copy)]
pub enum Form {
    /// Anything.
    Any,
    /// A text.
    Text,
    /// A whole number of 64 bits with a sign.
    Long,
    /// A whole number from 0 to 2^63 - 1.
    Natural,
    /// A whole number of 32 bits with a sign.
    Int,
    /// A boolean.
    Flag,
    /// A list.
    List,
    /// An object.
    Object,
}

/// The value as a whole number of 64 bits with a sign. `None`: it isn't one.
pub fn long_of(value: &Value) -> Option<i64>
    ensures { result ≡ spec.long_of (view value.now) }
{
    value.as_i64()
}

/// The value as a whole number from 0 to 2^63 - 1. `None`: it isn't one.
pub fn natural_of(value: &Value) -> Option<i64>
    ensures { result ≡ spec.natural_of (view value.now) }
{
    let number = value.as_i64()?;
    if number < 0 { None } else { Some(number) }
}

/// The value as a whole number of 32 bits with a sign. `None`: it isn't one.
pub fn int_of(value: &Value) -> Option<i32>
    ensures { result ≡ spec.int_of (view value.now) }
{
    let wide = value.as_i64()?;
    if wide < -2_147_483_648 || wide > 2_147_483_647 {
        return None;
    }
    Some(wide as i32)
}

/// Whether the value has the form.
pub fn has_form(form: Form, value: &Value) -> bool
    ensures { result ≡ spec.has_form form (view value.now) }
{
    match form {
        Form::Any => true,
        Form::Text => value.is_string(),
        Form::Long => value.is_i64(),
        Form::Natural => natural_of(value).is_some(),
        Form::Int => int_of(value).is_some(),
        Form::Flag => value.is_boolean(),
        Form::List => value.is_array(),
        Form::Object => value.is_object(),
    }
}

/// Whether each number in the value is a whole number of 64 bits, with or without a sign. `1.0`,
/// `1e2` and `-0` are not.
#[cycle(whole)]
pub fn is_whole(value: &Value) -> bool
    ensures { result ≡ not (has_float (view value.now)) }
{
    match value {
        Value::Number(number) => !number.is_f64(),
        Value::Array(items) => are_whole(items),
        Value::Object(members) => have_whole(members),
        _ => true,
    }
}

#[cycle(whole)]
fn are_whole(items: &Vec<Value>) -> bool
    ensures { result ≡ not (items_have_float (items_view items.now.items)) }
{
    for item in items {
        if !is_whole(item) {
            return false;
        }
    }
    true
}

#[cycle(whole)]
fn have_whole(members: &Map<String, Value>) -> bool
    ensures { result ≡ not (members_have_float (members_view members.now.entries)) }
{
    for (_name, value) in members.iter() {
        if !is_whole(value) {
            return false;
        }
    }
    true
}
