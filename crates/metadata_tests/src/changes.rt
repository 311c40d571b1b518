//! New tables, and tables after commits and upgrades, as their printed texts.

use avro_wire::Text;
use lists::Copied;
use row_types::{Column, Columns, Kind};
use std::alloc::{AllocError, Global};
use std::test::Fail;
use table_metadata::{
    Snapshot, TableMeta, Tree, fresh, print_meta, read_meta, upgraded, with_snapshot,
};

/// A new table of version 3, in parts that its commits change, and one of version 2.
static NEW: &str =
    r#"{"current-schema-id":0,"default-sort-order-id":0,"default-spec-id":0,"format-version":3,"last-column-id":2,"last-partition-id":999,"last-sequence-number":0,"last-updated-ms":1000,"location":"t","metadata-log":[],"next-row-id":0,"partition-specs":[{"fields":[],"spec-id":0}],"properties":{},"refs":{},"schemas":[{"fields":[{"id":1,"name":"n","required":true,"type":"long"},{"id":2,"name":"s","required":false,"type":"string"}],"schema-id":0,"type":"struct"}],"snapshot-log":[],"snapshots":[],"sort-orders":[{"fields":[],"order-id":0}],"table-uuid":"00000000-0000-4000-8000-000000000001"}"#;

static NEW_OLDER: &str =
    r#"{"current-schema-id":0,"default-sort-order-id":0,"default-spec-id":0,"format-version":2,"last-column-id":7,"last-partition-id":999,"last-sequence-number":0,"last-updated-ms":1000,"location":"t","metadata-log":[],"partition-specs":[{"fields":[],"spec-id":0}],"properties":{},"refs":{},"schemas":[{"fields":[{"id":7,"name":"n","required":true,"type":"long"},{"id":3,"name":"s","required":false,"type":"string"}],"schema-id":0,"type":"struct"}],"snapshot-log":[],"snapshots":[],"sort-orders":[{"fields":[],"order-id":0}],"table-uuid":"00000000-0000-4000-8000-000000000001"}"#;

/// The new table of version 3 after a commit with a snapshot.
static COMMITTED: &str =
    r#"{"current-schema-id":0,"current-snapshot-id":1,"default-sort-order-id":0,"default-spec-id":0,"format-version":3,"last-column-id":2,"last-partition-id":999,"last-sequence-number":1,"last-updated-ms":1005,"location":"t","metadata-log":[{"metadata-file":"t/meta-00001.metadata.json","timestamp-ms":1000}],"next-row-id":2,"partition-specs":[{"fields":[],"spec-id":0}],"properties":{},"refs":{"main":{"snapshot-id":1,"type":"branch"}},"schemas":[{"fields":[{"id":1,"name":"n","required":true,"type":"long"},{"id":2,"name":"s","required":false,"type":"string"}],"schema-id":0,"type":"struct"}],"snapshot-log":[{"snapshot-id":1,"timestamp-ms":1005}],"snapshots":[{"added-rows":2,"first-row-id":0,"manifest-list":"t/list-00004.avro","schema-id":0,"sequence-number":1,"snapshot-id":1,"summary":{"operation":"append"},"timestamp-ms":1005}],"sort-orders":[{"fields":[],"order-id":0}],"table-uuid":"00000000-0000-4000-8000-000000000001"}"#;

/// A table of version 2 whose carried members a change touches, and that table after the change.
type Change = (&'static str, &'static str);

/// Commits with the same snapshot, in tables whose sequence number is 7.
static COMMITS: [Change; 4] = [
    // Logs that are missing, and no `refs`.
    (
        r#"{"current-schema-id":0,"default-spec-id":0,"format-version":3,"last-column-id":1,"last-sequence-number":7,"last-updated-ms":3,"location":"t","next-row-id":5,"partition-specs":[],"schemas":[{"fields":[{"id":1,"name":"n","required":true,"type":"long"}],"schema-id":0}],"table-uuid":"00000000-0000-4000-8000-000000000001"}"#,
        r#"{"current-schema-id":0,"current-snapshot-id":1,"default-spec-id":0,"format-version":3,"last-column-id":1,"last-sequence-number":8,"last-updated-ms":1005,"location":"t","metadata-log":[{"metadata-file":"t/meta-00001.metadata.json","timestamp-ms":3}],"next-row-id":2,"partition-specs":[],"refs":{"main":{"snapshot-id":1,"type":"branch"}},"schemas":[{"fields":[{"id":1,"name":"n","required":true,"type":"long"}],"schema-id":0}],"snapshot-log":[{"snapshot-id":1,"timestamp-ms":1005}],"snapshots":[{"added-rows":2,"first-row-id":0,"manifest-list":"t/list-00004.avro","schema-id":0,"sequence-number":8,"snapshot-id":1,"summary":{"operation":"append"},"timestamp-ms":1005}],"table-uuid":"00000000-0000-4000-8000-000000000001"}"#,
    ),
    // Logs with entries, other branches, and other members of `main`.
    (
        r#"{"current-schema-id":0,"current-snapshot-id":9,"default-spec-id":0,"format-version":3,"last-column-id":1,"last-sequence-number":7,"last-updated-ms":3,"location":"t","metadata-log":[{"a":1}],"next-row-id":5,"partition-specs":[],"refs":{"audit":{"snapshot-id":9,"type":"tag"},"main":{"max-snapshot-age-ms":4,"snapshot-id":9,"type":"branch"}},"schemas":[{"fields":[{"id":1,"name":"n","required":true,"type":"long"}],"schema-id":0}],"snapshot-log":[{"b":2}],"snapshots":[{"manifest-list":"m","sequence-number":7,"snapshot-id":9,"timestamp-ms":2}],"statistics":[],"table-uuid":"00000000-0000-4000-8000-000000000001"}"#,
        r#"{"current-schema-id":0,"current-snapshot-id":1,"default-spec-id":0,"format-version":3,"last-column-id":1,"last-sequence-number":8,"last-updated-ms":1005,"location":"t","metadata-log":[{"a":1},{"metadata-file":"t/meta-00001.metadata.json","timestamp-ms":3}],"next-row-id":2,"partition-specs":[],"refs":{"audit":{"snapshot-id":9,"type":"tag"},"main":{"max-snapshot-age-ms":4,"snapshot-id":1,"type":"branch"}},"schemas":[{"fields":[{"id":1,"name":"n","required":true,"type":"long"}],"schema-id":0}],"snapshot-log":[{"b":2},{"snapshot-id":1,"timestamp-ms":1005}],"snapshots":[{"manifest-list":"m","sequence-number":7,"snapshot-id":9,"timestamp-ms":2},{"added-rows":2,"first-row-id":0,"manifest-list":"t/list-00004.avro","schema-id":0,"sequence-number":8,"snapshot-id":1,"summary":{"operation":"append"},"timestamp-ms":1005}],"statistics":[],"table-uuid":"00000000-0000-4000-8000-000000000001"}"#,
    ),
    // A `main` that is no object.
    (
        r#"{"current-schema-id":0,"default-spec-id":0,"format-version":3,"last-column-id":1,"last-sequence-number":7,"last-updated-ms":3,"location":"t","next-row-id":5,"partition-specs":[],"refs":{"main":[]},"schemas":[{"fields":[{"id":1,"name":"n","required":true,"type":"long"}],"schema-id":0}],"table-uuid":"00000000-0000-4000-8000-000000000001"}"#,
        r#"{"current-schema-id":0,"current-snapshot-id":1,"default-spec-id":0,"format-version":3,"last-column-id":1,"last-sequence-number":8,"last-updated-ms":1005,"location":"t","metadata-log":[{"metadata-file":"t/meta-00001.metadata.json","timestamp-ms":3}],"next-row-id":2,"partition-specs":[],"refs":{"main":{"snapshot-id":1,"type":"branch"}},"schemas":[{"fields":[{"id":1,"name":"n","required":true,"type":"long"}],"schema-id":0}],"snapshot-log":[{"snapshot-id":1,"timestamp-ms":1005}],"snapshots":[{"added-rows":2,"first-row-id":0,"manifest-list":"t/list-00004.avro","schema-id":0,"sequence-number":8,"snapshot-id":1,"summary":{"operation":"append"},"timestamp-ms":1005}],"table-uuid":"00000000-0000-4000-8000-000000000001"}"#,
    ),
    // All else stays: other ids, schemas, sort orders, properties and unknown members.
    (
        r#"{"current-schema-id":1,"current-snapshot-id":9,"default-sort-order-id":2,"default-spec-id":4,"format-version":3,"last-column-id":1,"last-partition-id":1003,"last-sequence-number":7,"last-updated-ms":5000,"location":"t","next-row-id":0,"partition-specs":[{"fields":[],"spec-id":4}],"properties":{"owner":"etl"},"refs":{"main":{"snapshot-id":9,"type":"branch"}},"schemas":[{"fields":[],"schema-id":5},{"fields":[{"id":1,"name":"n","required":true,"type":"long"}],"schema-id":1}],"snapshot-log":[],"snapshots":[{"added-rows":5,"manifest-list":"m","note":"x","parent-snapshot-id":3,"schema-id":5,"sequence-number":6,"snapshot-id":8,"timestamp-ms":2},{"manifest-list":"n","note":[],"parent-snapshot-id":8,"schema-id":1,"sequence-number":7,"snapshot-id":9,"timestamp-ms":3}],"sort-orders":[{"fields":[],"order-id":2}],"statistics":[],"table-uuid":"00000000-0000-4000-8000-000000000001","unknown":{"a":-1}}"#,
        r#"{"current-schema-id":1,"current-snapshot-id":1,"default-sort-order-id":2,"default-spec-id":4,"format-version":3,"last-column-id":1,"last-partition-id":1003,"last-sequence-number":8,"last-updated-ms":1005,"location":"t","metadata-log":[{"metadata-file":"t/meta-00001.metadata.json","timestamp-ms":5000}],"next-row-id":2,"partition-specs":[{"fields":[],"spec-id":4}],"properties":{"owner":"etl"},"refs":{"main":{"snapshot-id":1,"type":"branch"}},"schemas":[{"fields":[],"schema-id":5},{"fields":[{"id":1,"name":"n","required":true,"type":"long"}],"schema-id":1}],"snapshot-log":[{"snapshot-id":1,"timestamp-ms":1005}],"snapshots":[{"added-rows":5,"manifest-list":"m","note":"x","parent-snapshot-id":3,"schema-id":5,"sequence-number":6,"snapshot-id":8,"timestamp-ms":2},{"manifest-list":"n","note":[],"parent-snapshot-id":8,"schema-id":1,"sequence-number":7,"snapshot-id":9,"timestamp-ms":3},{"added-rows":2,"first-row-id":0,"manifest-list":"t/list-00004.avro","schema-id":0,"sequence-number":8,"snapshot-id":1,"summary":{"operation":"append"},"timestamp-ms":1005}],"sort-orders":[{"fields":[],"order-id":2}],"statistics":[],"table-uuid":"00000000-0000-4000-8000-000000000001","unknown":{"a":-1}}"#,
    ),
];

/// Upgrades at the moment 2000.
static UPGRADES: [Change; 3] = [
    // Carried numbers of version 3 leave the table and its snapshots.
    (
        r#"{"current-schema-id":0,"current-snapshot-id":9,"default-spec-id":0,"format-version":2,"last-column-id":1,"last-sequence-number":7,"last-updated-ms":3,"location":"t","metadata-log":[{"a":1}],"next-row-id":77,"partition-specs":[],"refs":{"main":{"snapshot-id":9}},"schemas":[{"fields":[{"id":1,"name":"n","required":true,"type":"long"}],"schema-id":0}],"snapshots":[{"added-rows":"x","first-row-id":4,"manifest-list":"m","sequence-number":7,"snapshot-id":9,"summary":{},"timestamp-ms":2}],"table-uuid":"00000000-0000-4000-8000-000000000001"}"#,
        r#"{"current-schema-id":0,"current-snapshot-id":9,"default-spec-id":0,"format-version":3,"last-column-id":1,"last-sequence-number":7,"last-updated-ms":2000,"location":"t","metadata-log":[{"a":1},{"metadata-file":"t/meta-00001.metadata.json","timestamp-ms":3}],"next-row-id":0,"partition-specs":[],"refs":{"main":{"snapshot-id":9}},"schemas":[{"fields":[{"id":1,"name":"n","required":true,"type":"long"}],"schema-id":0}],"snapshots":[{"manifest-list":"m","sequence-number":7,"snapshot-id":9,"summary":{},"timestamp-ms":2}],"table-uuid":"00000000-0000-4000-8000-000000000001"}"#,
    ),
    // A log that is missing.
    (
        r#"{"current-schema-id":0,"default-spec-id":0,"format-version":2,"last-column-id":1,"last-sequence-number":7,"last-updated-ms":3,"location":"t","partition-specs":[],"schemas":[{"fields":[{"id":1,"name":"n","required":true,"type":"long"}],"schema-id":0}],"table-uuid":"00000000-0000-4000-8000-000000000001"}"#,
        r#"{"current-schema-id":0,"default-spec-id":0,"format-version":3,"last-column-id":1,"last-sequence-number":7,"last-updated-ms":2000,"location":"t","metadata-log":[{"metadata-file":"t/meta-00001.metadata.json","timestamp-ms":3}],"next-row-id":0,"partition-specs":[],"schemas":[{"fields":[{"id":1,"name":"n","required":true,"type":"long"}],"schema-id":0}],"snapshots":[],"table-uuid":"00000000-0000-4000-8000-000000000001"}"#,
    ),
    // All else stays, and so does a moment that is later than the upgrade.
    (
        r#"{"current-schema-id":1,"current-snapshot-id":9,"default-sort-order-id":2,"default-spec-id":4,"format-version":2,"last-column-id":1,"last-partition-id":1003,"last-sequence-number":7,"last-updated-ms":5000,"location":"t","partition-specs":[{"fields":[],"spec-id":4}],"properties":{"owner":"etl"},"refs":{"main":{"snapshot-id":9,"type":"branch"}},"schemas":[{"fields":[],"schema-id":5},{"fields":[{"id":1,"name":"n","required":true,"type":"long"}],"schema-id":1}],"snapshots":[{"added-rows":5,"manifest-list":"m","note":"x","parent-snapshot-id":3,"schema-id":5,"sequence-number":6,"snapshot-id":8,"timestamp-ms":2},{"manifest-list":"n","note":[],"parent-snapshot-id":8,"schema-id":1,"sequence-number":7,"snapshot-id":9,"timestamp-ms":3}],"sort-orders":[{"fields":[],"order-id":2}],"statistics":[],"table-uuid":"00000000-0000-4000-8000-000000000001","unknown":{"a":-1}}"#,
        r#"{"current-schema-id":1,"current-snapshot-id":9,"default-sort-order-id":2,"default-spec-id":4,"format-version":3,"last-column-id":1,"last-partition-id":1003,"last-sequence-number":7,"last-updated-ms":5000,"location":"t","metadata-log":[{"metadata-file":"t/meta-00001.metadata.json","timestamp-ms":5000}],"next-row-id":0,"partition-specs":[{"fields":[],"spec-id":4}],"properties":{"owner":"etl"},"refs":{"main":{"snapshot-id":9,"type":"branch"}},"schemas":[{"fields":[],"schema-id":5},{"fields":[{"id":1,"name":"n","required":true,"type":"long"}],"schema-id":1}],"snapshots":[{"manifest-list":"m","note":"x","parent-snapshot-id":3,"schema-id":5,"sequence-number":6,"snapshot-id":8,"timestamp-ms":2},{"manifest-list":"n","note":[],"parent-snapshot-id":8,"schema-id":1,"sequence-number":7,"snapshot-id":9,"timestamp-ms":3}],"sort-orders":[{"fields":[],"order-id":2}],"statistics":[],"table-uuid":"00000000-0000-4000-8000-000000000001","unknown":{"a":-1}}"#,
    ),
];

/// The columns of the new tables, with these ids. `None` never comes.
fn columns(alloc: Global, first: i32, second: i32) -> Result<Option<Columns>, AllocError> {
    let mut list = Vec::new(alloc);
    list.push(Column {
        id: second,
        name: Text::from_str(alloc, "s")?,
        kind: Kind::Text,
        required: false,
    })?;
    list.insert(
        0,
        Column {
            id: first,
            name: Text::from_str(alloc, "n")?,
            kind: Kind::Long,
            required: true,
        },
    )?;
    match Columns::from_list(list) {
        Ok(columns) => Ok(Some(columns)),
        Err(_) => Ok(None),
    }
}

/// A new table of version 3, or of version 2. `None` never comes.
fn new_table(alloc: Global, older: bool) -> Result<Option<TableMeta>, AllocError> {
    let uuid = [0, 0, 0, 0, 0, 0, 64, 0, 128, 0, 0, 0, 0, 0, 0, 1];
    let location = Text::from_str(alloc, "t")?;
    let version = if older { 2 } else { 3 };
    let first = if older { 7 } else { 1 };
    let second = if older { 3 } else { 2 };
    match columns(alloc, first, second)? {
        Some(columns) => {
            let meta = fresh(alloc, uuid, version, &location, &columns, 1_000)?;
            Ok(Some(meta))
        }
        None => Ok(None),
    }
}

/// The table after a commit with the snapshot 1, whose sequence number is the next one.
fn committed(alloc: Global, meta: &TableMeta) -> Result<TableMeta, AllocError> {
    let path = Text::from_str(alloc, "t/meta-00001.metadata.json")?;
    let snapshot = Snapshot {
        id: 1,
        parent: None,
        sequence: meta.last_sequence.saturating_add(1),
        time: 1_005,
        list: Text::from_str(alloc, "t/list-00004.avro")?,
        schema_id: Some(0),
        first_row_id: Some(0),
        added_rows: Some(2),
        rest: Tree::with_operation(alloc, "append")?,
    };
    with_snapshot(alloc, meta, &path, snapshot, Some(2))
}

/// The table after an upgrade.
fn after_upgrade(alloc: Global, meta: &TableMeta) -> Result<TableMeta, AllocError> {
    let path = Text::from_str(alloc, "t/meta-00001.metadata.json")?;
    upgraded(alloc, meta, &path, 2_000)
}

/// Whether the metadata prints so, and so does its copy.
fn prints(alloc: Global, meta: &TableMeta, text: &str) -> Result<bool, AllocError> {
    let copy = meta.copy(alloc)?;
    let printed = print_meta(alloc, meta)?;
    let again = print_meta(alloc, &copy)?;
    Ok(printed.as_slice() == text.as_bytes() && again.as_slice() == text.as_bytes())
}

/// Whether the table of the first text prints as the second one after the change.
fn changes_so(alloc: Global, change: &Change, is_upgrade: bool) -> Result<bool, AllocError> {
    let (before, after) = *change;
    let Ok(meta) = read_meta(alloc, before.as_bytes()) else {
        return Ok(false);
    };
    if is_upgrade {
        return prints(alloc, &after_upgrade(alloc, &meta)?, after);
    }
    prints(alloc, &committed(alloc, &meta)?, after)
}

/// The place of the first change that ends otherwise, counted from 0. `None`: all end so.
fn first_wrong(
    alloc: Global,
    changes: &[Change],
    is_upgrade: bool,
) -> Result<Option<usize>, AllocError> {
    for place in 0..changes.len() {
        if !changes_so(alloc, &changes[place], is_upgrade)? {
            return Ok(Some(place));
        }
    }
    Ok(None)
}

/// Whether a new table prints so, before a commit and after it.
fn new_table_prints(alloc: Global) -> Result<bool, AllocError> {
    let Some(meta) = new_table(alloc, false)? else {
        return Ok(false);
    };
    Ok(prints(alloc, &meta, NEW)? && prints(alloc, &committed(alloc, &meta)?, COMMITTED)?)
}

/// Whether a new table of version 2 prints so.
fn new_older_table_prints(alloc: Global) -> Result<bool, AllocError> {
    let Some(meta) = new_table(alloc, true)? else {
        return Ok(false);
    };
    prints(alloc, &meta, NEW_OLDER)
}

/// Whether new tables of both versions print so.
fn new_tables_print(alloc: Global) -> Result<bool, AllocError> {
    Ok(new_table_prints(alloc)? && new_older_table_prints(alloc)?)
}

#[test]
fn new_tables_print_as_their_texts(rt: HostRuntime) -> Result<(), Fail> {
    assert!(rt; new_tables_print(rt.alloc())?);
    Ok(())
}

/// The first change that ends otherwise. `None`: all end so.
fn first_fault(alloc: Global) -> Result<Option<(&'static str, usize)>, AllocError> {
    if let Some(place) = first_wrong(alloc, &COMMITS, false)? {
        return Ok(Some(("commits", place)));
    }
    match first_wrong(alloc, &UPGRADES, true)? {
        Some(place) => Ok(Some(("upgrades", place))),
        None => Ok(None),
    }
}

#[test]
fn changed_tables_print_as_their_texts(rt: HostRuntime) -> Result<(), Fail> {
    assert_eq!(rt; first_fault(rt.alloc())?, None);
    Ok(())
}
