//! The metadata of tables, read and printed, or refused.

use std::alloc::{AllocError, Global};
use std::test::Fail;
use table_metadata::{MetaRefusal, print_meta, read_meta, schema_text};

/// A table of version 3 without snapshots, and its current schema.
static TABLE: &str =
    r#"{"current-schema-id":0,"default-sort-order-id":0,"default-spec-id":0,"format-version":3,"last-column-id":2,"last-partition-id":999,"last-sequence-number":0,"last-updated-ms":1000,"location":"t","metadata-log":[],"next-row-id":0,"partition-specs":[{"fields":[],"spec-id":0}],"properties":{},"refs":{},"schemas":[{"fields":[{"id":1,"name":"n","required":true,"type":"long"},{"id":2,"name":"s","required":false,"type":"string"}],"schema-id":0,"type":"struct"}],"snapshot-log":[],"snapshots":[],"sort-orders":[{"fields":[],"order-id":0}],"table-uuid":"00000000-0000-4000-8000-000000000001"}"#;

static SCHEMA: &str =
    r#"{"fields":[{"id":1,"name":"n","required":true,"type":"long"},{"id":2,"name":"s","required":false,"type":"string"}],"schema-id":0,"type":"struct"}"#;

/// A part of that text, what stands there instead, and what is printed there.
type Read = (&'static str, &'static str, &'static str);

static READ: [Read; 29] = [
    ("", "", ""),
    // The table's id, in each form that is read.
    (
        "00000000-0000-4000-8000-000000000001",
        "ABCDEF00-0000-4000-8000-00000000000A",
        "abcdef00-0000-4000-8000-00000000000a",
    ),
    (
        "00000000-0000-4000-8000-000000000001",
        "{abcdef00-0000-4000-8000-00000000000a}",
        "abcdef00-0000-4000-8000-00000000000a",
    ),
    (
        "00000000-0000-4000-8000-000000000001",
        "urn:uuid:abcdef00-0000-4000-8000-00000000000a",
        "abcdef00-0000-4000-8000-00000000000a",
    ),
    (
        "00000000-0000-4000-8000-000000000001",
        "abcdef000000400080000000000000aa",
        "abcdef00-0000-4000-8000-0000000000aa",
    ),
    // The least and the largest numbers.
    (
        "\"last-updated-ms\":1000",
        "\"last-updated-ms\":-9223372036854775808",
        "\"last-updated-ms\":-9223372036854775808",
    ),
    (
        "\"last-sequence-number\":0",
        "\"last-sequence-number\":9223372036854775807",
        "\"last-sequence-number\":9223372036854775807",
    ),
    (
        "\"default-spec-id\":0",
        "\"default-spec-id\":-2147483648",
        "\"default-spec-id\":-2147483648",
    ),
    (
        "\"default-spec-id\":0",
        "\"default-spec-id\":2147483647",
        "\"default-spec-id\":2147483647",
    ),
    // Numbers of 64 bits without a sign are carried.
    (
        "\"last-partition-id\":999",
        "\"last-partition-id\":18446744073709551615",
        "\"last-partition-id\":18446744073709551615",
    ),
    // No current snapshot, in each form.
    (
        "{\"current-schema-id\":0,",
        "{\"current-schema-id\":0,\"current-snapshot-id\":null,",
        "{\"current-schema-id\":0,",
    ),
    (
        "{\"current-schema-id\":0,",
        "{\"current-schema-id\":0,\"current-snapshot-id\":-1,",
        "{\"current-schema-id\":0,",
    ),
    // Members that may be missing.
    (",\"snapshots\":[]", "", ",\"snapshots\":[]"),
    (",\"snapshot-log\":[]", "", ""),
    (",\"metadata-log\":[]", "", ""),
    (",\"refs\":{}", "", ""),
    (",\"properties\":{}", "", ""),
    // The last of two members with one name counts.
    (
        "\"location\":\"t\"",
        "\"location\":5,\"location\":\"u\"",
        "\"location\":\"u\"",
    ),
    (
        "\"location\":\"t\"",
        "\"location\":1.5,\"location\":\"u\"",
        "\"location\":\"u\"",
    ),
    // Unknown members are carried, and their members are put in order.
    (
        "\"properties\":{}",
        r#""properties":{"b":"x","a":{"d":[1,-2,null,true,"\u00e9\n"],"c":{}}}"#,
        r#""properties":{"a":{"c":{},"d":[1,-2,null,true,"é\n"]},"b":"x"}"#,
    ),
    (
        "\"properties\":{}",
        r#""partition-statistics":[{"snapshot-id":7}],"properties":{}"#,
        r#""partition-statistics":[{"snapshot-id":7}],"properties":{}"#,
    ),
    (
        "\"table-uuid\"",
        r#""statistics":[{"snapshot-id":7}],"table-uuid""#,
        r#""statistics":[{"snapshot-id":7}],"table-uuid""#,
    ),
    (
        "\"format-version\"",
        "\"encryption-keys\":[],\"format-version\"",
        "\"encryption-keys\":[],\"format-version\"",
    ),
    // A snapshot, branches and tags.
    (
        "\"snapshots\":[]",
        r#""snapshots":[{"manifest-list":"t/a.avro","snapshot-id":7,"summary":{"operation":"append"},"timestamp-ms":5}]"#,
        r#""snapshots":[{"manifest-list":"t/a.avro","sequence-number":0,"snapshot-id":7,"summary":{"operation":"append"},"timestamp-ms":5}]"#,
    ),
    (
        "\"refs\":{}",
        r#""refs":{"audit":{"max-ref-age-ms":10,"snapshot-id":7,"type":"tag"},"main":{"min-snapshots-to-keep":2,"snapshot-id":7,"type":"branch"}}"#,
        r#""refs":{"audit":{"max-ref-age-ms":10,"snapshot-id":7,"type":"tag"},"main":{"min-snapshots-to-keep":2,"snapshot-id":7,"type":"branch"}}"#,
    ),
    // A version 2 table carries a next row id unread.
    (
        "\"format-version\":3,\"last-column-id\":2",
        "\"format-version\":2,\"last-column-id\":2",
        "\"format-version\":2,\"last-column-id\":2",
    ),
    // The first of two schemas with the current id counts.
    (
        "\"schema-id\":0,\"type\":\"struct\"}]",
        "\"schema-id\":0,\"type\":\"struct\"},{\"schema-id\":0}]",
        "\"schema-id\":0,\"type\":\"struct\"},{\"schema-id\":0}]",
    ),
    // Schemas with other ids may stand before the current one, whatever their columns are.
    (
        "\"schemas\":[",
        "\"schemas\":[{\"fields\":[],\"schema-id\":7},",
        "\"schemas\":[{\"fields\":[],\"schema-id\":7},",
    ),
    (
        "\"schemas\":[",
        "\"schemas\":[{\"schema-id\":-1},",
        "\"schemas\":[{\"schema-id\":-1},",
    ),
];

/// A part of that text, what stands there instead, and why the text is refused.
type Refused = (&'static str, &'static str, &'static str);

static REFUSED: [Refused; 56] = [
    // No object of whole numbers.
    ("{\"current-schema-id\":0,", "", "NotJson"),
    ("{\"current-schema-id\":0,", "\u{feff}{", "NotJson"),
    ("\"properties\":{}", "\"properties\":\"\\ud800\"", "NotJson"),
    (
        "\"properties\":{}",
        "\"properties\":{\"a\":[1.5]}",
        "Fraction",
    ),
    ("\"properties\":{}", "\"properties\":1e2", "Fraction"),
    (
        "\"last-updated-ms\":1000",
        "\"last-updated-ms\":18446744073709551616",
        "Fraction",
    ),
    (
        "\"last-updated-ms\":1000",
        "\"last-updated-ms\":-0",
        "Fraction",
    ),
    // The version.
    ("\"format-version\":3,", "", "Missing format-version"),
    (
        "\"format-version\":3",
        "\"format-version\":\"3\"",
        "Wrong format-version",
    ),
    (
        "\"format-version\":3",
        "\"format-version\":null",
        "Wrong format-version",
    ),
    ("\"format-version\":3", "\"format-version\":1", "Version 1"),
    ("\"format-version\":3", "\"format-version\":4", "Version 4"),
    // The members, in the order of their checks.
    (
        ",\"table-uuid\":\"00000000-0000-4000-8000-000000000001\"",
        "",
        "Missing table-uuid",
    ),
    (
        "\"00000000-0000-4000-8000-000000000001\"",
        "1",
        "Wrong table-uuid",
    ),
    (
        "00000000-0000-4000-8000-000000000001",
        "x",
        "Wrong table-uuid",
    ),
    ("\"location\":\"t\",", "", "Missing location"),
    ("\"location\":\"t\"", "\"location\":null", "Wrong location"),
    (
        "\"last-sequence-number\":0,",
        "",
        "Missing last-sequence-number",
    ),
    (
        "\"last-sequence-number\":0",
        "\"last-sequence-number\":-1",
        "Wrong last-sequence-number",
    ),
    ("\"last-updated-ms\":1000,", "", "Missing last-updated-ms"),
    (
        "\"last-updated-ms\":1000",
        "\"last-updated-ms\":9223372036854775808",
        "Wrong last-updated-ms",
    ),
    ("\"last-column-id\":2,", "", "Missing last-column-id"),
    (
        "\"last-column-id\":2",
        "\"last-column-id\":null",
        "Wrong last-column-id",
    ),
    ("\"schemas\":[", "\"schemas\":[1,", "Wrong schemas"),
    ("\"schemas\":[", "\"schemas\":[{},", "Wrong schemas"),
    ("\"schema-id\":0,", "\"schema-id\":\"0\",", "Wrong schemas"),
    (
        "{\"current-schema-id\":0,",
        "{",
        "Missing current-schema-id",
    ),
    (
        "\"current-schema-id\":0",
        "\"current-schema-id\":1",
        "Wrong current-schema-id",
    ),
    (
        "\"partition-specs\":[{\"fields\":[],\"spec-id\":0}],",
        "",
        "Missing partition-specs",
    ),
    (
        "\"fields\":[],\"spec-id\":0",
        "\"fields\":[]",
        "Wrong partition-specs",
    ),
    (
        "\"fields\":[],\"spec-id\":0",
        "\"spec-id\":0",
        "Wrong partition-specs",
    ),
    ("\"default-spec-id\":0,", "", "Missing default-spec-id"),
    (
        "\"default-spec-id\":0",
        "\"default-spec-id\":2147483648",
        "Wrong default-spec-id",
    ),
    (
        "\"default-spec-id\":0",
        "\"default-spec-id\":-2147483649",
        "Wrong default-spec-id",
    ),
    ("\"next-row-id\":0,", "", "Missing next-row-id"),
    (
        "\"next-row-id\":0",
        "\"next-row-id\":-1",
        "Wrong next-row-id",
    ),
    ("\"snapshots\":[]", "\"snapshots\":null", "Wrong snapshots"),
    (
        "\"snapshots\":[]",
        "\"snapshots\":[{\"snapshot-id\":1},{\"snapshot-id\":1}]",
        "Wrong snapshots",
    ),
    (
        "{\"current-schema-id\":0,",
        "{\"current-schema-id\":0,\"current-snapshot-id\":\"1\",",
        "Wrong current-snapshot-id",
    ),
    (
        "{\"current-schema-id\":0,",
        "{\"current-schema-id\":0,\"current-snapshot-id\":1,",
        "Wrong current-snapshot-id",
    ),
    (
        "\"snapshot-log\":[]",
        "\"snapshot-log\":null",
        "Wrong snapshot-log",
    ),
    (
        "\"metadata-log\":[]",
        "\"metadata-log\":{}",
        "Wrong metadata-log",
    ),
    ("\"refs\":{}", "\"refs\":null", "Wrong refs"),
    ("\"properties\":{}", "\"properties\":[]", "Wrong properties"),
    (
        "\"refs\":{}",
        "\"encryption-keys\":{},\"refs\":{}",
        "Wrong encryption-keys",
    ),
    // The snapshots.
    (
        "\"snapshots\":[]",
        "\"snapshots\":[{\"snapshot-id\":1}]",
        "Missing timestamp-ms",
    ),
    (
        "\"snapshots\":[]",
        "\"snapshots\":[{\"snapshot-id\":1,\"timestamp-ms\":1,\"manifest-list\":\"a\",\"sequence-number\":1}]",
        "Wrong sequence-number",
    ),
    (
        "\"snapshots\":[]",
        "\"snapshots\":[{\"snapshot-id\":5,\"timestamp-ms\":1}]",
        "NoManifestList 5",
    ),
    // What rowline can't honour.
    (
        "\"snapshots\":[]",
        "\"snapshots\":[{\"snapshot-id\":1,\"timestamp-ms\":1,\"manifest-list\":\"a\",\"key-id\":\"k\"}]",
        "Encrypted",
    ),
    (
        "\"refs\":{}",
        "\"encryption-keys\":[{}],\"refs\":{}",
        "Encrypted",
    ),
    (
        "\"partition-specs\":[",
        "\"partition-specs\":[{\"fields\":[{}],\"spec-id\":1},",
        "Partitioned",
    ),
    ("\"type\":\"long\"", "\"type\":\"uuid\"", "ColumnType n"),
    (
        "\"type\":\"string\"",
        "\"type\":\"string\",\"write-default\":\"\"",
        "ColumnType s",
    ),
    ("\"id\":2,", "\"id\":1,", "Wrong fields"),
    ("\"id\":2,", "\"id\":2147483648,", "Wrong fields"),
    ("\"required\":true,", "", "Wrong fields"),
];

/// The printed text of the metadata of a text.
fn printed(alloc: Global, text: &str) -> Result<Vec<u8>, MetaRefusal> {
    let meta = read_meta(alloc, text.as_bytes())?;
    Ok(print_meta(alloc, &meta)?.into_vec())
}

/// The few numbers that refusals name here.
fn number_text(number: i64) -> &'static str {
    match number {
        1 => "1",
        4 => "4",
        5 => "5",
        _ => "another number",
    }
}

/// The name of the refusal, and what it holds.
fn told(refusal: &MetaRefusal) -> (&'static str, &str) {
    match refusal {
        MetaRefusal::NotJson => ("NotJson", ""),
        MetaRefusal::Fraction => ("Fraction", ""),
        MetaRefusal::Missing { member } => ("Missing ", member.as_str()),
        MetaRefusal::Wrong { member } => ("Wrong ", member.as_str()),
        MetaRefusal::Version { n } => ("Version ", number_text(*n)),
        MetaRefusal::Encrypted => ("Encrypted", ""),
        MetaRefusal::Partitioned => ("Partitioned", ""),
        MetaRefusal::ColumnType { name } => ("ColumnType ", name.as_str()),
        MetaRefusal::NoManifestList { id } => ("NoManifestList ", number_text(*id)),
        MetaRefusal::Limit { .. } => ("Limit", ""),
        MetaRefusal::Memory => ("Memory", ""),
    }
}

/// Whether this is the text of the refusal: its name, and what it holds.
pub(crate) fn tells(refusal: &MetaRefusal, text: &str) -> bool {
    let (name, rest) = told(refusal);
    text.strip_prefix(name) == Some(rest)
}

/// Whether the text is read, and printed as it says.
fn is_read(alloc: Global, case: &Read) -> Result<bool, AllocError> {
    let (part, instead, shown) = *case;
    let text = TABLE.replacen(alloc, part, instead, 1)?;
    let wanted = TABLE.replacen(alloc, part, shown, 1)?;
    match printed(alloc, text.as_str()) {
        Ok(text) => Ok(text.as_slice() == wanted.as_bytes()),
        Err(_) => Ok(false),
    }
}

/// Whether the text is refused as it says.
fn is_refused(alloc: Global, case: &Refused) -> Result<bool, AllocError> {
    let (part, instead, refusal) = *case;
    let text = TABLE.replacen(alloc, part, instead, 1)?;
    match read_meta(alloc, text.as_bytes()) {
        Ok(_) => Ok(false),
        Err(found) => Ok(tells(&found, refusal)),
    }
}

/// The place of the first text that isn't read so, counted from 0. `None`: all are.
fn first_not_read(alloc: Global) -> Result<Option<usize>, AllocError> {
    for place in 0..READ.len() {
        if !is_read(alloc, &READ[place])? {
            return Ok(Some(place));
        }
    }
    Ok(None)
}

/// The place of the first text that isn't refused so, counted from 0. `None`: all are.
fn first_not_refused(alloc: Global) -> Result<Option<usize>, AllocError> {
    for place in 0..REFUSED.len() {
        if !is_refused(alloc, &REFUSED[place])? {
            return Ok(Some(place));
        }
    }
    Ok(None)
}

/// Bytes that are no metadata, and an empty name if they are JSON.
static BYTES: [(&[u8], &str); 7] = [
    (b"", "NotJson"),
    (b"\xff", "NotJson"),
    (b"[]", "Wrong "),
    (b"[1.5]", "Fraction"),
    (b"{\"format-version\":1,\"a\":1.5}", "Fraction"),
    (b"null", "Wrong "),
    (b"{}", "Missing format-version"),
];

/// The place of the first bytes that aren't refused so, counted from 0. `None`: all are.
fn first_wrong_bytes(alloc: Global) -> Option<usize> {
    for place in 0..BYTES.len() {
        let (bytes, refusal) = BYTES[place];
        match read_meta(alloc, bytes) {
            Ok(_) => return Some(place),
            Err(found) => {
                if !tells(&found, refusal) {
                    return Some(place);
                }
            }
        }
    }
    None
}

/// The first table of these three with a wrong row, and the row's place. `None`: there is none.
fn first_fault(alloc: Global) -> Result<Option<(&'static str, usize)>, AllocError> {
    if let Some(place) = first_not_read(alloc)? {
        return Ok(Some(("texts that are read", place)));
    }
    if let Some(place) = first_not_refused(alloc)? {
        return Ok(Some(("texts that are refused", place)));
    }
    match first_wrong_bytes(alloc) {
        Some(place) => Ok(Some(("bytes", place))),
        None => Ok(None),
    }
}

#[test]
fn metadata_is_printed_as_read_or_refused(rt: HostRuntime) -> Result<(), Fail> {
    assert_eq!(rt; first_fault(rt.alloc())?, None);
    Ok(())
}

/// The text of an object with a list of one object, and of so many more.
fn with_more_objects(alloc: Global, more: usize) -> Result<Vec<u8>, AllocError> {
    let mut text = Vec::new(alloc);
    text.extend_from_slice(b"{\"properties\":[{}")?;
    for _ in 0..more {
        text.extend_from_slice(b",{}")?;
    }
    text.extend_from_slice(b"]}")?;
    Ok(text)
}

/// How the text ends that has two opening braces and so many more, and lacks the version: by the
/// member that is checked first, or by want of memory.
fn end_with_more_braces(alloc: Global, more: usize) -> Result<&'static str, AllocError> {
    let text = with_more_objects(alloc, more)?;
    match read_meta(alloc, &text) {
        Err(MetaRefusal::Missing { .. }) => Ok("Missing"),
        Err(MetaRefusal::Memory) => Ok("Memory"),
        _ => Ok("another end"),
    }
}

/// Whether a text at the bound lacks its version, and one above it takes too much memory.
fn braces_are_bounded(alloc: Global) -> Result<bool, AllocError> {
    Ok(
        end_with_more_braces(alloc, 999_998)? == "Missing"
            && end_with_more_braces(alloc, 999_999)? == "Memory",
    )
}

#[test]
fn a_text_above_the_bound_on_braces_takes_too_much_memory(rt: HostRuntime) -> Result<(), Fail> {
    assert!(rt; braces_are_bounded(rt.alloc())?);
    Ok(())
}

/// Whether the text of the current schema is `SCHEMA`, after this part was put before the schemas.
fn prints_schema(alloc: Global, before: &str) -> Result<bool, AllocError> {
    let text = TABLE.replacen(alloc, "\"schemas\":[", before, 1)?;
    match read_meta(alloc, text.as_bytes()) {
        Ok(meta) => Ok(schema_text(alloc, &meta)?.as_slice() == SCHEMA.as_bytes()),
        Err(_) => Ok(false),
    }
}

/// Whether it is so alone, and behind another schema.
fn schemas_print(alloc: Global) -> Result<bool, AllocError> {
    let another = "\"schemas\":[{\"fields\":[],\"schema-id\":7},";
    Ok(prints_schema(alloc, "\"schemas\":[")? && prints_schema(alloc, another)?)
}

#[test]
fn the_current_schema_is_printed_as_in_the_metadata(rt: HostRuntime) -> Result<(), Fail> {
    assert!(rt; schemas_print(rt.alloc())?);
    Ok(())
}
