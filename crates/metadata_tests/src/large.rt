//! Large and deep texts: read, or refused, in time that grows with the text.

use limits::Which;
use std::alloc::{AllocError, Global};
use std::test::Fail;
use table_metadata::{MetaRefusal, read_meta};

/// A table up to the name of one more member.
static TABLE: &str =
    r#"{"current-schema-id":0,"default-spec-id":0,"format-version":2,"last-column-id":1,"last-sequence-number":0,"last-updated-ms":0,"location":"t","partition-specs":[],"schemas":[{"fields":[{"id":1,"name":"n","required":true,"type":"long"}],"schema-id":0}],"table-uuid":"00000000-0000-4000-8000-000000000001","#;

/// How a text ends: it is read, or the refusal with what that names.
fn end_of(alloc: Global, text: &[u8]) -> (&'static str, u64) {
    match read_meta(alloc, text) {
        Ok(_) => ("read", 0),
        Err(MetaRefusal::NotJson) => ("NotJson", 0),
        Err(MetaRefusal::Missing { member }) => ("Missing", member.as_str().len() as u64),
        Err(
            MetaRefusal::Limit {
                which: Which::Snapshots,
                found,
            },
        ) => ("Snapshots", found),
        Err(
            MetaRefusal::Limit {
                which: Which::Path,
                found,
            },
        ) => ("Path", found),
        Err(_) => ("another refusal", 0),
    }
}

fn repeat(text: &mut Vec<u8>, part: &[u8], times: usize) -> Result<(), AllocError> {
    for _ in 0..times {
        text.extend_from_slice(part)?;
    }
    Ok(())
}

/// The table with a member that is so many lists, one in the other.
fn end_of_nested_lists(alloc: Global, many: usize) -> Result<(&'static str, u64), AllocError> {
    let mut text = Vec::new(alloc);
    text.extend_from_slice(TABLE.as_bytes())?;
    text.extend_from_slice(b"\"nested\":")?;
    repeat(&mut text, b"[", many)?;
    repeat(&mut text, b"]", many)?;
    text.push(b'}')?;
    Ok(end_of(alloc, &text))
}

/// Lists that nest so deep, and how their text ends.
static NESTED: [(usize, (&str, u64)); 3] = [
    (126, ("read", 0)),
    (127, ("NotJson", 0)),
    (200, ("NotJson", 0)),
];

/// The first depth that ends otherwise. `None`: all end so.
fn first_wrong_depth(alloc: Global) -> Result<Option<usize>, AllocError> {
    for (depth, end) in NESTED {
        if end_of_nested_lists(alloc, depth)? != end {
            return Ok(Some(depth));
        }
    }
    Ok(None)
}

/// The table with so many snapshots, and a last one with these members beside its id.
fn end_of_snapshots(
    alloc: Global,
    many: usize,
    last: &str,
) -> Result<(&'static str, u64), AllocError> {
    let mut text = Vec::new(alloc);
    text.extend_from_slice(TABLE.as_bytes())?;
    text.extend_from_slice(b"\"snapshots\":[")?;
    for id in 0..many {
        let item = format!(in alloc;
            "{{\"snapshot-id\":{id},\"timestamp-ms\":0,\"manifest-list\":\"a\"}},"
        )?;
        text.extend_from_slice(item.as_bytes())?;
    }
    text.extend_from_slice(b"{\"snapshot-id\":10001")?;
    text.extend_from_slice(last.as_bytes())?;
    text.extend_from_slice(b"}]}")?;
    Ok(end_of(alloc, &text))
}

/// How many snapshots stand before the last, what the last has beside its id, and how the text ends.
static SNAPSHOTS: [(usize, &str, (&str, u64)); 3] = [
    (
        9_999,
        ",\"timestamp-ms\":0,\"manifest-list\":\"a\"",
        ("read", 0),
    ),
    (9_999, "", ("Missing", 12)),
    (10_000, "", ("Snapshots", 10_001)),
];

/// The place of the first row that ends otherwise, counted from 0. `None`: all end so.
fn first_wrong_count(alloc: Global) -> Result<Option<usize>, AllocError> {
    for place in 0..SNAPSHOTS.len() {
        let (many, last, end) = SNAPSHOTS[place];
        if end_of_snapshots(alloc, many, last)? != end {
            return Ok(Some(place));
        }
    }
    Ok(None)
}

/// The table with these snapshots, and one whose manifest list has a path of so many bytes.
fn end_of_path(
    alloc: Global,
    others: &str,
    length: usize,
) -> Result<(&'static str, u64), AllocError> {
    let mut text = Vec::new(alloc);
    text.extend_from_slice(TABLE.as_bytes())?;
    text.extend_from_slice(b"\"snapshots\":[")?;
    text.extend_from_slice(others.as_bytes())?;
    text.extend_from_slice(b"{\"snapshot-id\":1,\"timestamp-ms\":0,\"manifest-list\":\"")?;
    repeat(&mut text, b"x", length)?;
    text.extend_from_slice(b"\"}]}")?;
    Ok(end_of(alloc, &text))
}

/// What stands before the snapshot, how long its path is, and how the text ends.
static PATHS: [(&str, usize, (&str, u64)); 3] = [
    ("", 1_024, ("read", 0)),
    ("", 1_025, ("Path", 1_025)),
    ("{},", 1_025, ("Path", 1_025)),
];

/// The place of the first row that ends otherwise, counted from 0. `None`: all end so.
fn first_wrong_path(alloc: Global) -> Result<Option<usize>, AllocError> {
    for place in 0..PATHS.len() {
        let (others, length, end) = PATHS[place];
        if end_of_path(alloc, others, length)? != end {
            return Ok(Some(place));
        }
    }
    Ok(None)
}

/// An object of so many members without the version, each with its own name.
fn end_of_names(alloc: Global, many: usize) -> Result<(&'static str, u64), AllocError> {
    let mut text = Vec::new(alloc);
    text.push(b'{')?;
    for name in 0..many {
        let member = format!(in alloc; "\"{name}\":0,")?;
        text.extend_from_slice(member.as_bytes())?;
    }
    text.extend_from_slice(b"\"last\":0}")?;
    Ok(end_of(alloc, &text))
}

/// The table with one more member, so many times.
fn end_of_one_name(alloc: Global, many: usize) -> Result<(&'static str, u64), AllocError> {
    let mut text = Vec::new(alloc);
    text.extend_from_slice(TABLE.as_bytes())?;
    repeat(&mut text, b"\"same\":0,", many)?;
    text.extend_from_slice(b"\"same\":1}")?;
    Ok(end_of(alloc, &text))
}

/// Whether a million members end as few would: without the version, and as a table.
fn members_end(alloc: Global) -> Result<bool, AllocError> {
    Ok(
        end_of_names(alloc, 999_999)? == ("Missing", 14)
            && end_of_one_name(alloc, 999_999)? == ("read", 0),
    )
}

#[test]
fn a_million_members_end_as_few(rt: HostRuntime) -> Result<(), Fail> {
    assert!(rt; members_end(rt.alloc())?);
    Ok(())
}

/// The first table of this file with a wrong row, and the row's place. `None`: there is none.
fn first_fault(alloc: Global) -> Result<Option<(&'static str, usize)>, AllocError> {
    if let Some(depth) = first_wrong_depth(alloc)? {
        return Ok(Some(("lists", depth)));
    }
    if let Some(place) = first_wrong_count(alloc)? {
        return Ok(Some(("snapshots", place)));
    }
    match first_wrong_path(alloc)? {
        Some(place) => Ok(Some(("paths", place))),
        None => Ok(None),
    }
}

#[test]
fn deep_and_long_texts_end_as_their_rows(rt: HostRuntime) -> Result<(), Fail> {
    assert_eq!(rt; first_fault(rt.alloc())?, None);
    Ok(())
}
