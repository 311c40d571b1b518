//! The order of the checks: a text with every fault, which are mended one after the other.

use crate::metadata::tells;
use std::alloc::{AllocError, Global};
use std::test::Fail;
use table_metadata::read_meta;

/// A text whose members have all faults. They stand in the opposite order of their checks.
static FAULTY: &str =
    r#"{"encryption-keys":null,"properties":null,"refs":null,"metadata-log":null,"snapshot-log":null,"current-snapshot-id":"1","snapshots":null,"next-row-id":null,"default-spec-id":null,"partition-specs":null,"current-schema-id":null,"schemas":null,"last-column-id":null,"last-updated-ms":null,"last-sequence-number":null,"location":null,"table-uuid":null,"format-version":null,"x":1.5}]"#;

/// How the text is refused, the part that has the fault, and the part without it.
type Step = (&'static str, &'static str, &'static str);

static ORDER: [Step; 29] = [
    ("NotJson", "}]", "}"),
    ("Fraction", "1.5", "1"),
    ("Wrong format-version", "version\":null", "version\":1"),
    ("Version 1", "version\":1", "version\":3"),
    ("Wrong table-uuid", "uuid\":null", "uuid\":\"0\""),
    (
        "Wrong table-uuid",
        "uuid\":\"0\"",
        "uuid\":\"00000000-0000-4000-8000-000000000001\"",
    ),
    ("Wrong location", "location\":null", "location\":\"t\""),
    (
        "Wrong last-sequence-number",
        "sequence-number\":null",
        "sequence-number\":0",
    ),
    (
        "Wrong last-updated-ms",
        "updated-ms\":null",
        "updated-ms\":0",
    ),
    ("Wrong last-column-id", "column-id\":null", "column-id\":0"),
    (
        "Wrong schemas",
        "schemas\":null",
        "schemas\":[{\"fields\":0}]",
    ),
    ("Wrong schemas", "{\"fields\":0}", "{\"schema-id\":5}"),
    (
        "Wrong current-schema-id",
        "schema-id\":null",
        "schema-id\":6",
    ),
    ("Wrong current-schema-id", "schema-id\":6", "schema-id\":5"),
    ("Wrong partition-specs", "specs\":null", "specs\":[{}]"),
    (
        "Wrong partition-specs",
        "specs\":[{}]",
        "specs\":[{\"spec-id\":0,\"fields\":[0]}]",
    ),
    ("Wrong default-spec-id", "spec-id\":null", "spec-id\":0"),
    ("Wrong next-row-id", "row-id\":null", "row-id\":0"),
    ("Wrong snapshots", "snapshots\":null", "snapshots\":[{},0]"),
    (
        "Wrong snapshots",
        "[{},0]",
        "[{\"snapshot-id\":1,\"key-id\":0}]",
    ),
    (
        "Wrong current-snapshot-id",
        "snapshot-id\":\"1\"",
        "snapshot-id\":2",
    ),
    (
        "Wrong current-snapshot-id",
        "snapshot-id\":2",
        "snapshot-id\":1",
    ),
    (
        "Wrong snapshot-log",
        "snapshot-log\":null",
        "snapshot-log\":[]",
    ),
    (
        "Wrong metadata-log",
        "metadata-log\":null",
        "metadata-log\":[]",
    ),
    ("Wrong refs", "refs\":null", "refs\":{}"),
    ("Wrong properties", "properties\":null", "properties\":{}"),
    ("Wrong encryption-keys", "keys\":null", "keys\":[]"),
    (
        "Missing timestamp-ms",
        "\"key-id\":0",
        "\"key-id\":0,\"timestamp-ms\":0,\"manifest-list\":\"a\"",
    ),
    ("Encrypted", "\"key-id\":0", "\"key-id\":null"),
];

/// What comes after nothing is encrypted.
static LAST: [Step; 3] = [
    ("Partitioned", "\"fields\":[0]", "\"fields\":[]"),
    (
        "Wrong fields",
        "{\"schema-id\":5}",
        r#"{"schema-id":5,"fields":[{"id":1,"name":"n","required":true,"type":"uuid"},{"id":1,"name":"s","required":true,"type":"int"}]}"#,
    ),
    ("ColumnType n", "\"type\":\"uuid\"", "\"type\":\"long\""),
];

/// Whether the text is refused so.
fn is_refused(alloc: Global, text: &str, refusal: &str) -> bool {
    match read_meta(alloc, text.as_bytes()) {
        Ok(_) => false,
        Err(found) => tells(&found, refusal),
    }
}

/// The text after all steps, or `None` if a step isn't refused as it says.
fn mended(alloc: Global, text: &str, steps: &[Step]) -> Result<Option<String>, AllocError> {
    let mut text = format!(in alloc; "{text}")?;
    for place in 0..steps.len() {
        let (refusal, fault, right) = steps[place];
        if !is_refused(alloc, text.as_str(), refusal) {
            return Ok(None);
        }
        text = text.as_str().replacen(alloc, fault, right, 1)?;
    }
    Ok(Some(text))
}

/// How the text is refused that has been mended: the two columns have one id.
fn ends_in_order(alloc: Global) -> Result<bool, AllocError> {
    let Some(text) = mended(alloc, FAULTY, &ORDER)? else {
        return Ok(false);
    };
    match mended(alloc, text.as_str(), &LAST)? {
        Some(text) => Ok(is_refused(alloc, text.as_str(), "Wrong fields")),
        None => Ok(false),
    }
}

#[test]
fn the_first_fault_in_the_order_of_the_checks_is_told(rt: HostRuntime) -> Result<(), Fail> {
    assert!(rt; ends_in_order(rt.alloc())?);
    Ok(())
}
