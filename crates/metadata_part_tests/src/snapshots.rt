//! Lists of snapshots, read and printed, or refused.

use json_members::{Version, parse};
use serde_json::Value;
use snapshot_entries::{
    SnapshotRefusal, Snapshots, Tree, check_ids, has_snapshot, read_snapshots, snapshot_values,
};
use std::alloc::{AllocError, Global};
use std::test::Fail;

/// A version of the format, the text of a list of snapshots, and what becomes of it if the table's
/// last sequence number is 7: the printed text, or why it is refused.
type Case = (Version, &'static str, &'static str);

static LISTS: [Case; 28] = [
    (Version::Newer, "[]", "[]"),
    // All members, in another order, and one that is carried.
    (
        Version::Newer,
        r#"[{"summary":{"operation":"append"},"timestamp-ms":1000,"schema-id":0,"added-rows":2,"first-row-id":0,"manifest-list":"t/a.avro","parent-snapshot-id":4,"sequence-number":7,"snapshot-id":5}]"#,
        r#"[{"added-rows":2,"first-row-id":0,"manifest-list":"t/a.avro","parent-snapshot-id":4,"schema-id":0,"sequence-number":7,"snapshot-id":5,"summary":{"operation":"append"},"timestamp-ms":1000}]"#,
    ),
    // The least and the largest numbers.
    (
        Version::Newer,
        r#"[{"snapshot-id":9223372036854775807,"timestamp-ms":-1,"manifest-list":"","parent-snapshot-id":-1,"schema-id":-1,"first-row-id":0,"added-rows":9223372036854775807}]"#,
        r#"[{"added-rows":9223372036854775807,"first-row-id":0,"manifest-list":"","parent-snapshot-id":-1,"schema-id":-1,"sequence-number":0,"snapshot-id":9223372036854775807,"timestamp-ms":-1}]"#,
    ),
    // Members that may be missing, and nulls that count as missing.
    (
        Version::Newer,
        r#"[{"snapshot-id":1,"timestamp-ms":-1,"manifest-list":""},{"snapshot-id":0,"timestamp-ms":2,"manifest-list":"b","parent-snapshot-id":null,"schema-id":null,"first-row-id":null,"added-rows":null,"key-id":null}]"#,
        r#"[{"manifest-list":"","sequence-number":0,"snapshot-id":1,"timestamp-ms":-1},{"key-id":null,"manifest-list":"b","sequence-number":0,"snapshot-id":0,"timestamp-ms":2}]"#,
    ),
    // The last of two members with one name counts.
    (
        Version::Newer,
        r#"[{"snapshot-id":1,"snapshot-id":2,"timestamp-ms":1,"manifest-list":"a"}]"#,
        r#"[{"manifest-list":"a","sequence-number":0,"snapshot-id":2,"timestamp-ms":1}]"#,
    ),
    // In version 2 two members are carried unread, and all others are checked.
    (
        Version::Older,
        r#"[{"snapshot-id":1,"timestamp-ms":1,"manifest-list":"a","parent-snapshot-id":null,"first-row-id":"x","added-rows":null}]"#,
        r#"[{"added-rows":null,"first-row-id":"x","manifest-list":"a","sequence-number":0,"snapshot-id":1,"timestamp-ms":1}]"#,
    ),
    (
        Version::Older,
        r#"[{"snapshot-id":1,"timestamp-ms":1,"schema-id":"x"}]"#,
        "Wrong schema-id",
    ),
    (
        Version::Older,
        r#"[{"snapshot-id":1,"timestamp-ms":1,"added-rows":-1}]"#,
        "NoManifestList",
    ),
    (
        Version::Older,
        r#"[{"snapshot-id":1,"timestamp-ms":1,"sequence-number":8}]"#,
        "Wrong sequence-number",
    ),
    // The list.
    (Version::Newer, "[1]", "Wrong snapshots"),
    (
        Version::Newer,
        r#"[{"snapshot-id":1},{"snapshot-id":2},{"snapshot-id":1}]"#,
        "Wrong snapshots",
    ),
    (
        Version::Newer,
        r#"[{"snapshot-id":-1},{"snapshot-id":-1}]"#,
        "Wrong snapshots",
    ),
    (
        Version::Newer,
        r#"[{"snapshot-id":9223372036854775808},{"snapshot-id":9223372036854775808}]"#,
        "Wrong snapshot-id",
    ),
    (Version::Newer, "[{},{}]", "Missing snapshot-id"),
    // A snapshot, in the order of its checks.
    (
        Version::Newer,
        r#"[{"snapshot-id":-1,"timestamp-ms":""}]"#,
        "Wrong snapshot-id",
    ),
    (
        Version::Newer,
        r#"[{"snapshot-id":null}]"#,
        "Wrong snapshot-id",
    ),
    (
        Version::Newer,
        r#"[{"snapshot-id":1,"sequence-number":-1}]"#,
        "Missing timestamp-ms",
    ),
    (
        Version::Newer,
        r#"[{"snapshot-id":1,"timestamp-ms":"1"}]"#,
        "Wrong timestamp-ms",
    ),
    (
        Version::Newer,
        r#"[{"snapshot-id":1,"timestamp-ms":1,"sequence-number":-1}]"#,
        "Wrong sequence-number",
    ),
    (
        Version::Newer,
        r#"[{"snapshot-id":1,"timestamp-ms":1,"sequence-number":null}]"#,
        "Wrong sequence-number",
    ),
    (
        Version::Newer,
        r#"[{"snapshot-id":1,"timestamp-ms":1,"sequence-number":8,"parent-snapshot-id":""}]"#,
        "Wrong sequence-number",
    ),
    (
        Version::Newer,
        r#"[{"snapshot-id":1,"timestamp-ms":1,"parent-snapshot-id":"","schema-id":""}]"#,
        "Wrong parent-snapshot-id",
    ),
    (
        Version::Newer,
        r#"[{"snapshot-id":1,"timestamp-ms":1,"schema-id":"","first-row-id":-1}]"#,
        "Wrong schema-id",
    ),
    (
        Version::Newer,
        r#"[{"snapshot-id":1,"timestamp-ms":1,"first-row-id":-1,"added-rows":-1}]"#,
        "Wrong first-row-id",
    ),
    (
        Version::Newer,
        r#"[{"snapshot-id":1,"timestamp-ms":1,"added-rows":-1}]"#,
        "Wrong added-rows",
    ),
    // One snapshot after the other.
    (
        Version::Newer,
        r#"[{"snapshot-id":1,"timestamp-ms":1},{}]"#,
        "NoManifestList",
    ),
    (
        Version::Newer,
        r#"[{"snapshot-id":1,"timestamp-ms":1,"manifest-list":null}]"#,
        "NoManifestList",
    ),
    (
        Version::Newer,
        r#"[{"snapshot-id":2,"timestamp-ms":1,"manifest-list":"a"},{"snapshot-id":1}]"#,
        "Missing timestamp-ms",
    ),
];

/// The printed text of a list of snapshots that is read.
fn printed(alloc: Global, version: Version, items: Vec<Value>) -> Result<Vec<u8>, SnapshotRefusal> {
    check_ids(alloc, &items)?;
    let snapshots = read_snapshots(alloc, version, 7, items)?;
    let values = snapshot_values(alloc, snapshots.as_slice())?;
    Ok(Value::Array(values).to_vec(alloc)?)
}

/// The name of the refusal, and the name of its member.
fn told(refusal: &SnapshotRefusal) -> (&'static str, &str) {
    match refusal {
        SnapshotRefusal::Missing { member } => ("Missing ", member.as_str()),
        SnapshotRefusal::Wrong { member } => ("Wrong ", member.as_str()),
        SnapshotRefusal::NoManifestList { id } => {
            ("NoManifestList", if *id == 1 { "" } else { " another" })
        }
        SnapshotRefusal::Snapshots { .. } => ("Snapshots", ""),
        SnapshotRefusal::Path { .. } => ("Path", ""),
        SnapshotRefusal::Memory => ("Memory", ""),
    }
}

/// Whether this is the text of the refusal: its name, and the name of its member.
fn tells(refusal: &SnapshotRefusal, text: &str) -> bool {
    let (name, rest) = told(refusal);
    text.strip_prefix(name) == Some(rest)
}

/// Whether the case ends as it says.
fn ends_so(alloc: Global, case: &Case) -> Result<bool, AllocError> {
    let (version, text, wanted) = *case;
    let Some(Value::Array(items)) = parse(alloc, text.as_bytes())? else {
        return Ok(false);
    };
    match printed(alloc, version, items) {
        Ok(text) => Ok(text.as_slice() == wanted.as_bytes()),
        Err(refusal) => Ok(tells(&refusal, wanted)),
    }
}

/// The place of the first case that ends otherwise, counted from 0. `None`: all end so.
fn first_wrong(alloc: Global) -> Result<Option<usize>, AllocError> {
    for place in 0..LISTS.len() {
        if !ends_so(alloc, &LISTS[place])? {
            return Ok(Some(place));
        }
    }
    Ok(None)
}

/// How many snapshots with an empty path stand first, how long the paths of the later ones are, and what
/// is refused: the number of snapshots, or the length of a path.
type Limit = (usize, &'static [usize], Option<u64>, Option<u64>);

static LIMITS: [Limit; 5] = [
    (9_999, &[1_024], None, None),
    (10_000, &[1_025], Some(10_001), None),
    (0, &[1_024, 1_024], None, None),
    (0, &[1_025], None, Some(1_025)),
    (1, &[3, 1_026, 1_025], None, Some(1_026)),
];

/// A snapshot whose manifest list has a path of so many bytes. `None` never comes.
fn item_with_path(alloc: Global, length: usize) -> Result<Option<Value>, AllocError> {
    let mut text = Vec::new(alloc);
    text.extend_from_slice(b"{\"snapshot-id\":1,\"timestamp-ms\":1,\"manifest-list\":\"")?;
    for _ in 0..length {
        text.push(b'x')?;
    }
    text.extend_from_slice(b"\"}")?;
    parse(alloc, &text)
}

fn items_of(alloc: Global, empty: usize, lengths: &[usize]) -> Result<Vec<Value>, AllocError> {
    let mut items = Vec::new(alloc);
    for _ in 0..empty {
        if let Some(item) = item_with_path(alloc, 0)? {
            items.push(item)?;
        }
    }
    for length in lengths {
        if let Some(item) = item_with_path(alloc, *length)? {
            items.push(item)?;
        }
    }
    Ok(items)
}

/// The number of snapshots, or the length of a path, that is refused. `None`: something else is.
fn refused_at(answer: &Result<Snapshots, SnapshotRefusal>) -> Option<(Option<u64>, Option<u64>)> {
    match answer {
        Ok(_) => Some((None, None)),
        Err(SnapshotRefusal::Snapshots { found }) => Some((Some(*found), None)),
        Err(SnapshotRefusal::Path { found }) => Some((None, Some(*found))),
        Err(_) => None,
    }
}

/// Whether these items are read, or refused so.
fn is_limited_so(alloc: Global, limit: &Limit) -> Result<bool, AllocError> {
    let (empty, lengths, many, long) = *limit;
    let items = items_of(alloc, empty, lengths)?;
    let answer = read_snapshots(alloc, Version::Newer, 7, items);
    Ok(refused_at(&answer) == Some((many, long)))
}

/// The place of the first list that ends otherwise, counted from 0. `None`: all end so.
fn first_wrong_limit(alloc: Global) -> Result<Option<usize>, AllocError> {
    for place in 0..LIMITS.len() {
        if !is_limited_so(alloc, &LIMITS[place])? {
            return Ok(Some(place));
        }
    }
    Ok(None)
}

/// Ids that are looked for among 3, -5 and two that are no numbers of 64 bits, and whether they are
/// there.
static IDS: [(i64, bool); 4] = [(3, true), (-5, true), (0, false), (4, false)];

/// The place of the first id that is found, or isn't, against its row, counted from 0. `None`: there
/// is none.
fn first_wrong_id(alloc: Global) -> Result<Option<usize>, AllocError> {
    let text =
        r#"[{"snapshot-id":"4"},{"snapshot-id":9223372036854775808},{"snapshot-id":-5},{"snapshot-id":3}]"#;
    let Some(Value::Array(items)) = parse(alloc, text.as_bytes())? else {
        return Ok(Some(0));
    };
    for place in 0..IDS.len() {
        let (id, is_there) = IDS[place];
        if has_snapshot(&items, id) != is_there {
            return Ok(Some(place));
        }
    }
    Ok(None)
}

/// Operations that a summary names.
static OPERATIONS: [&str; 2] = ["", "append"];

/// Members of a snapshot, and the operation that their summary names. An empty one: it names none.
static SUMMARIES: [(&str, &str); 6] = [
    ("{}", ""),
    ("{\"operation\":\"x\"}", ""),
    ("{\"summary\":5}", ""),
    ("{\"summary\":{}}", ""),
    ("{\"summary\":{\"operation\":5}}", ""),
    ("{\"summary\":{\"a\":1,\"operation\":\"b\"}}", "b"),
];

/// Whether these members name this operation.
fn names_so(alloc: Global, case: &(&str, &str)) -> Result<bool, AllocError> {
    let (text, operation) = *case;
    let Some(Value::Object(members)) = parse(alloc, text.as_bytes())? else {
        return Ok(false);
    };
    let tree = Tree::from_members(members);
    let named = if operation == "" {
        None
    } else {
        Some(operation)
    };
    Ok(tree.operation() == named)
}

/// The place of the first members that name another operation, counted from 0. `None`: there are
/// none.
fn first_wrong_name(alloc: Global) -> Result<Option<usize>, AllocError> {
    for place in 0..SUMMARIES.len() {
        if !names_so(alloc, &SUMMARIES[place])? {
            return Ok(Some(place));
        }
    }
    Ok(None)
}

/// The place of the first operation that isn't found in its own summary, counted from 0. `None`:
/// there is none.
fn first_wrong_summary(alloc: Global) -> Result<Option<usize>, AllocError> {
    for place in 0..OPERATIONS.len() {
        let operation = OPERATIONS[place];
        if Tree::with_operation(alloc, operation)?.operation() != Some(operation) {
            return Ok(Some(place));
        }
    }
    Ok(None)
}

/// The first table of this file with a wrong row, and the row's place. `None`: there is none.
fn first_fault(alloc: Global) -> Result<Option<(&'static str, usize)>, AllocError> {
    if let Some(place) = first_wrong(alloc)? {
        return Ok(Some(("lists", place)));
    }
    if let Some(place) = first_wrong_limit(alloc)? {
        return Ok(Some(("limits", place)));
    }
    if let Some(place) = first_wrong_id(alloc)? {
        return Ok(Some(("ids", place)));
    }
    if let Some(place) = first_wrong_summary(alloc)? {
        return Ok(Some(("operations", place)));
    }
    match first_wrong_name(alloc)? {
        Some(place) => Ok(Some(("summaries", place))),
        None => Ok(None),
    }
}

#[test]
fn snapshots_are_printed_as_read_or_refused(rt: HostRuntime) -> Result<(), Fail> {
    assert_eq!(rt; first_fault(rt.alloc())?, None);
    Ok(())
}
