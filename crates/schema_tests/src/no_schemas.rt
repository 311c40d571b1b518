//! Texts that are no schemas, and why.

use crate::rows::all_right;
use avro_schema::{SchemaRefusal, read_schema};
use std::alloc::Global;
use std::test::*;

/// A text, the cause for which it is refused, and the path or the name that the refusal tells.
type Refused = (&'static str, &'static str, &'static str);

/// Places that have no form of a schema.
static FORMS: [Refused; 42] = [
    ("null", "Form", ""),
    ("true", "Form", ""),
    ("7", "Form", ""),
    ("[]", "Form", ""),
    ("{}", "Form", "type"),
    (r#"{"type":{"type":"int"}}"#, "Form", "type"),
    (r#"{"type":["int"]}"#, "Form", "type"),
    (r#"{"type":null}"#, "Form", "type"),
    (r#"["null",["int"]]"#, "Form", "2"),
    (r#"["null",7]"#, "Form", "2"),
    (r#"["null",{"type":"array"}]"#, "Form", "2/items"),
    (r#"{"type":"array","items":7}"#, "Form", "items"),
    (r#"{"type":"array","items":[]}"#, "Form", "items"),
    (
        r#"{"type":"array","items":"int","element-id":null}"#,
        "Form",
        "element-id",
    ),
    (r#"{"type":"array","element-id":"1"}"#, "Form", "element-id"),
    (
        r#"{"type":"map","values":"int","key-id":1.5}"#,
        "Form",
        "key-id",
    ),
    (
        r#"{"type":"map","values":"int","value-id":true}"#,
        "Form",
        "value-id",
    ),
    (r#"{"type":"map"}"#, "Form", "values"),
    (r#"{"type":"fixed","size":4}"#, "Form", "name"),
    (r#"{"type":"fixed","name":7,"size":4}"#, "Form", "name"),
    (
        r#"{"type":"fixed","name":"f","namespace":null,"size":4}"#,
        "Form",
        "namespace",
    ),
    (r#"{"type":"fixed","name":"f"}"#, "Form", "size"),
    (
        r#"{"type":"fixed","name":"f","size":1048577}"#,
        "Form",
        "size",
    ),
    (r#"{"type":"fixed","name":"f","size":-1}"#, "Form", "size"),
    (r#"{"type":"fixed","name":"f","size":4.0}"#, "Form", "size"),
    (r#"{"type":"enum","name":"e"}"#, "Form", "symbols"),
    (
        r#"{"type":"enum","name":"e","symbols":["a",7]}"#,
        "Form",
        "symbols/2",
    ),
    (r#"{"type":"record","name":"r"}"#, "Form", "fields"),
    (r#"{"type":"record","fields":[]}"#, "Form", "name"),
    (
        r#"{"type":"record","name":"r","fields":[7]}"#,
        "Form",
        "fields/1",
    ),
    (
        r#"{"type":"record","name":"r","fields":[{"type":"int"}]}"#,
        "Form",
        "fields/1/name",
    ),
    (
        r#"{"type":"record","name":"r","fields":[{"name":"x"}]}"#,
        "Form",
        "fields/1/type",
    ),
    (
        r#"{"type":"record","name":"r","fields":[
            {"name":"x","type":"int"},
            {"name":"x","type":"int"}]}"#,
        "Form",
        "fields/2/name",
    ),
    (
        r#"{"type":"record","name":"r","fields":[
            {"name":"x","type":{"type":"array","items":[]}}]}"#,
        "Form",
        "fields/1/type/items",
    ),
    (
        r#"{"type":"record","name":"r","fields":[{"name":"x","type":"int","field-id":null}]}"#,
        "Form",
        "fields/1/field-id",
    ),
    (
        r#"{"type":"record","name":"r","fields":[{"field-id":1.0}]}"#,
        "Form",
        "fields/1/field-id",
    ),
    (
        r#"{"type":"record","name":"r","fields":[
            {"name":"x","type":"int","field-id":2147483648}]}"#,
        "Form",
        "fields/1/field-id",
    ),
    (
        r#"{"type":"record","name":"r","fields":[
            {"name":"x","type":"int","field-id":-2147483649}]}"#,
        "Form",
        "fields/1/field-id",
    ),
    (
        r#"{"type":"record","name":"r","fields":[
            {"name":"x","type":{"type":"fixed","name":"f","size":1}},
            {"name":"y","type":{"type":"fixed","name":"f","size":1}}]}"#,
        "Form",
        "fields/2/type/name",
    ),
    (
        r#"{"type":"record","name":"r","fields":[
            {"name":"x","type":{"type":"fixed","name":"r","size":1}}]}"#,
        "Form",
        "fields/1/type/name",
    ),
    (r#"{"type":"foo"}"#, "Form", "type"),
    (r#"{"type":"foo","name":"int"}"#, "Form", "type"),
];

/// Names that were not wholly defined before.
static NAMES: [Refused; 6] = [
    (
        r#"[{"type":"fixed","name":"a.f","size":4},"f"]"#,
        "Unknown",
        "f",
    ),
    (
        r#"{"type":"record","name":"a.r","fields":[
            {"name":"x","type":{"type":"fixed","name":"f","namespace":"","size":4}},
            {"name":"y","type":"f"}]}"#,
        "Unknown",
        "f",
    ),
    (
        r#"["f",{"type":"fixed","name":"f","size":4}]"#,
        "Unknown",
        "f",
    ),
    (
        r#"{"type":"record","name":"r","fields":[{"name":"x","type":"r"}]}"#,
        "Unknown",
        "r",
    ),
    (r#""date""#, "Unknown", "date"),
    (r#""""#, "Unknown", ""),
];

/// Texts that are no JSON texts.
static NOT_JSON: [Refused; 8] = [
    ("", "NotJson", ""),
    ("long", "NotJson", ""),
    (r#""long" x"#, "NotJson", ""),
    (r#""long"#, "NotJson", ""),
    (r#"["int",]"#, "NotJson", ""),
    ("\u{feff}\"long\"", "NotJson", ""),
    (r#""\ud800""#, "NotJson", ""),
    (r#"{"type":"int""#, "NotJson", ""),
];

/// The cause of a refusal.
pub fn cause_of(refusal: &SchemaRefusal) -> &'static str {
    match refusal {
        SchemaRefusal::NotJson => "NotJson",
        SchemaRefusal::Form { .. } => "Form",
        SchemaRefusal::Unknown { .. } => "Unknown",
        SchemaRefusal::Nesting => "Nesting",
        SchemaRefusal::Memory => "Memory",
    }
}

/// The path or the name that a refusal tells. Empty: it tells none.
fn told_by(refusal: &SchemaRefusal) -> &str {
    match refusal {
        SchemaRefusal::Form { path } => path.as_str(),
        SchemaRefusal::Unknown { name } => name.as_str(),
        _ => "",
    }
}

/// Whether the refusal has this cause, and tells this.
fn tells(refusal: &SchemaRefusal, cause: &str, told: &str) -> bool {
    cause_of(refusal) == cause && told_by(refusal) == told
}

/// Whether the text is refused for this cause, and the refusal tells this.
fn is_refused(alloc: Global, text: &[u8], cause: &str, told: &str) -> bool {
    match read_schema(alloc, text) {
        Ok(_) => false,
        Err(refusal) => tells(&refusal, cause, told),
    }
}

/// The first row whose text isn't refused so.
fn first_accepted(alloc: Global, rows: &[Refused]) -> Option<usize> {
    for number in 0..rows.len() {
        let row = &rows[number];
        if !is_refused(alloc, row.0.as_bytes(), row.1, row.2) {
            return Some(number);
        }
    }
    None
}

#[test]
fn a_place_without_a_form_is_named(rt: HostRuntime) {
    all_right(&rt, first_accepted(rt.alloc(), &FORMS));
}

#[test]
fn a_name_that_is_not_wholly_defined_is_named(rt: HostRuntime) {
    all_right(&rt, first_accepted(rt.alloc(), &NAMES));
}

#[test]
fn a_text_that_is_no_json_text_is_refused(rt: HostRuntime) {
    all_right(&rt, first_accepted(rt.alloc(), &NOT_JSON));
    assert!(rt; is_refused(rt.alloc(), &[b'"', 0xff, b'"'], "NotJson", ""));
}
