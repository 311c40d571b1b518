//! Metadata of the shapes that other engines write, and the texts that are printed of it.

use std::alloc::{AllocError, Global};
use std::test::Fail;
use table_metadata::{print_meta, read_meta};

/// A text, and what is printed of its metadata.
type Shape = (&'static str, &'static str);

static SHAPES: [Shape; 2] = [
    // As the Java library writes a table of version 2.
    (
        r#"{
  "format-version" : 2,
  "table-uuid" : "5F2E9C1A-7B3D-4E6F-8A9B-0C1D2E3F4A5B",
  "location" : "s3://lake/sales/orders",
  "last-sequence-number" : 12,
  "last-updated-ms" : 1711111111111,
  "last-column-id" : 4,
  "current-schema-id" : 2,
  "schemas" : [ {
    "type" : "struct", "schema-id" : 0, "fields" : [ { "id" : 1, "name" : "order id", "required" : true, "type" : "long" } ]
  }, {
    "type" : "struct", "schema-id" : 2, "identifier-field-ids" : [ 1 ],
    "fields" : [ { "id" : 1, "name" : "order id", "required" : true, "type" : "long", "doc" : "key" },
      { "id" : 4, "name" : "placed", "required" : false, "type" : "timestamptz" } ]
  } ],
  "default-spec-id" : 0,
  "partition-specs" : [ { "spec-id" : 0, "fields" : [ ] } ],
  "last-partition-id" : 999,
  "default-sort-order-id" : 1,
  "sort-orders" : [ { "order-id" : 0, "fields" : [ ] },
    { "order-id" : 1, "fields" : [ { "transform" : "identity", "source-id" : 1, "direction" : "asc", "null-order" : "nulls-first" } ] } ],
  "properties" : { "write.format.default" : "avro", "owner" : "caf\u00e9" },
  "current-snapshot-id" : 4358109269873137077,
  "refs" : { "nightly" : { "snapshot-id" : 3051729675574597004, "type" : "tag", "max-ref-age-ms" : 86400000 },
    "main" : { "snapshot-id" : 4358109269873137077, "type" : "branch" },
    "audit" : { "snapshot-id" : 3051729675574597004, "type" : "branch", "min-snapshots-to-keep" : 3, "max-snapshot-age-ms" : 7 } },
  "snapshots" : [ {
    "sequence-number" : 11, "snapshot-id" : 3051729675574597004, "timestamp-ms" : 1711111110000,
    "summary" : { "operation" : "append", "spark.app.id" : "app-1", "added-data-files" : "2" },
    "manifest-list" : "s3://lake/sales/orders/metadata/snap-1.avro", "schema-id" : 0
  }, {
    "sequence-number" : 12, "snapshot-id" : 4358109269873137077, "parent-snapshot-id" : 3051729675574597004,
    "timestamp-ms" : 1711111111111, "summary" : { "operation" : "overwrite" },
    "manifest-list" : "s3://lake/sales/orders/metadata/snap-2.avro", "schema-id" : 2
  } ],
  "statistics" : [ { "snapshot-id" : 3051729675574597004, "statistics-path" : "s3://lake/s.puffin", "file-size-in-bytes" : 413,
    "file-footer-size-in-bytes" : 42, "blob-metadata" : [ { "type" : "ndv", "snapshot-id" : 1, "sequence-number" : 1, "fields" : [ 1 ] } ] } ],
  "partition-statistics" : [ { "snapshot-id" : 3051729675574597004, "statistics-path" : "s3://lake/p.avro", "file-size-in-bytes" : 43 } ],
  "snapshot-log" : [ { "timestamp-ms" : 1711111110000, "snapshot-id" : 3051729675574597004 },
    { "timestamp-ms" : 1711111111111, "snapshot-id" : 4358109269873137077 } ],
  "metadata-log" : [ { "timestamp-ms" : 1711111110000, "metadata-file" : "s3://lake/sales/orders/metadata/v1.metadata.json" } ]
}"#,
        r#"{"current-schema-id":2,"current-snapshot-id":4358109269873137077,"default-sort-order-id":1,"default-spec-id":0,"format-version":2,"last-column-id":4,"last-partition-id":999,"last-sequence-number":12,"last-updated-ms":1711111111111,"location":"s3://lake/sales/orders","metadata-log":[{"metadata-file":"s3://lake/sales/orders/metadata/v1.metadata.json","timestamp-ms":1711111110000}],"partition-specs":[{"fields":[],"spec-id":0}],"partition-statistics":[{"file-size-in-bytes":43,"snapshot-id":3051729675574597004,"statistics-path":"s3://lake/p.avro"}],"properties":{"owner":"café","write.format.default":"avro"},"refs":{"audit":{"max-snapshot-age-ms":7,"min-snapshots-to-keep":3,"snapshot-id":3051729675574597004,"type":"branch"},"main":{"snapshot-id":4358109269873137077,"type":"branch"},"nightly":{"max-ref-age-ms":86400000,"snapshot-id":3051729675574597004,"type":"tag"}},"schemas":[{"fields":[{"id":1,"name":"order id","required":true,"type":"long"}],"schema-id":0,"type":"struct"},{"fields":[{"doc":"key","id":1,"name":"order id","required":true,"type":"long"},{"id":4,"name":"placed","required":false,"type":"timestamptz"}],"identifier-field-ids":[1],"schema-id":2,"type":"struct"}],"snapshot-log":[{"snapshot-id":3051729675574597004,"timestamp-ms":1711111110000},{"snapshot-id":4358109269873137077,"timestamp-ms":1711111111111}],"snapshots":[{"manifest-list":"s3://lake/sales/orders/metadata/snap-1.avro","schema-id":0,"sequence-number":11,"snapshot-id":3051729675574597004,"summary":{"added-data-files":"2","operation":"append","spark.app.id":"app-1"},"timestamp-ms":1711111110000},{"manifest-list":"s3://lake/sales/orders/metadata/snap-2.avro","parent-snapshot-id":3051729675574597004,"schema-id":2,"sequence-number":12,"snapshot-id":4358109269873137077,"summary":{"operation":"overwrite"},"timestamp-ms":1711111111111}],"sort-orders":[{"fields":[],"order-id":0},{"fields":[{"direction":"asc","null-order":"nulls-first","source-id":1,"transform":"identity"}],"order-id":1}],"statistics":[{"blob-metadata":[{"fields":[1],"sequence-number":1,"snapshot-id":1,"type":"ndv"}],"file-footer-size-in-bytes":42,"file-size-in-bytes":413,"snapshot-id":3051729675574597004,"statistics-path":"s3://lake/s.puffin"}],"table-uuid":"5f2e9c1a-7b3d-4e6f-8a9b-0c1d2e3f4a5b"}"#,
    ),
    // As the Python library writes one of version 3, with nulls.
    (
        r#"{"location":"file:///tmp/t","table-uuid":"urn:uuid:5f2e9c1a-7b3d-4e6f-8a9b-0c1d2e3f4a5b","last-updated-ms":1711111111111,"last-column-id":2,"schemas":[{"type":"struct","fields":[{"id":1,"name":"","type":"binary","required":false,"initial-default":null,"write-default":null}],"schema-id":-1,"identifier-field-ids":[]},{"type":"struct","fields":[{"id":2,"name":"day","type":"date","required":true}],"schema-id":0}],"current-schema-id":0,"partition-specs":[{"spec-id":0,"fields":[]},{"spec-id":1,"fields":[]}],"default-spec-id":1,"last-partition-id":null,"properties":{},"current-snapshot-id":null,"snapshots":[{"snapshot-id":7,"parent-snapshot-id":null,"timestamp-ms":-1,"manifest-list":"m","schema-id":null,"first-row-id":null,"added-rows":0,"key-id":null}],"snapshot-log":[],"metadata-log":[],"sort-orders":[],"default-sort-order-id":0,"refs":{},"statistics":null,"encryption-keys":[],"format-version":3,"last-sequence-number":0,"next-row-id":9223372036854775807,"vendor":{"z":[],"a":18446744073709551615}}"#,
        r#"{"current-schema-id":0,"default-sort-order-id":0,"default-spec-id":1,"encryption-keys":[],"format-version":3,"last-column-id":2,"last-partition-id":null,"last-sequence-number":0,"last-updated-ms":1711111111111,"location":"file:///tmp/t","metadata-log":[],"next-row-id":9223372036854775807,"partition-specs":[{"fields":[],"spec-id":0},{"fields":[],"spec-id":1}],"properties":{},"refs":{},"schemas":[{"fields":[{"id":1,"initial-default":null,"name":"","required":false,"type":"binary","write-default":null}],"identifier-field-ids":[],"schema-id":-1,"type":"struct"},{"fields":[{"id":2,"name":"day","required":true,"type":"date"}],"schema-id":0,"type":"struct"}],"snapshot-log":[],"snapshots":[{"added-rows":0,"key-id":null,"manifest-list":"m","sequence-number":0,"snapshot-id":7,"timestamp-ms":-1}],"sort-orders":[],"statistics":null,"table-uuid":"5f2e9c1a-7b3d-4e6f-8a9b-0c1d2e3f4a5b","vendor":{"a":18446744073709551615,"z":[]}}"#,
    ),
];

/// Whether the text is read and printed so, and what is printed is printed as it is.
fn prints_so(alloc: Global, text: &str, wanted: &str) -> Result<bool, AllocError> {
    match read_meta(alloc, text.as_bytes()) {
        Ok(meta) => Ok(print_meta(alloc, &meta)?.as_slice() == wanted.as_bytes()),
        Err(_) => Ok(false),
    }
}

/// The place of the first text that isn't, counted from 0. `None`: all are.
fn first_wrong(alloc: Global) -> Result<Option<usize>, AllocError> {
    for place in 0..SHAPES.len() {
        let (text, wanted) = SHAPES[place];
        if !prints_so(alloc, text, wanted)? || !prints_so(alloc, wanted, wanted)? {
            return Ok(Some(place));
        }
    }
    Ok(None)
}

#[test]
fn metadata_of_other_engines_is_printed_with_all_it_has(rt: HostRuntime) -> Result<(), Fail> {
    assert_eq!(rt; first_wrong(rt.alloc())?, None);
    Ok(())
}
