//! The ids and the last changes in the lines of `rows`.

use crate::running::Part::{Block, Raw, Text, Zeros};
use crate::running::{Case, Input, THREE_ROWS, first_wrong};
use std::test::Fail;

/// The schema of a required long and an optional text, with the two lineage columns behind them.
const SCHEMA_WITH_IDS: &str =
    r#"{"type":"record","name":"row","fields":[{"name":"n","type":"long","field-id":1},{"name":"s","type":["null","string"],"default":null,"field-id":2},{"name":"_row_id","type":["null","long"],"default":null,"field-id":2147483540},{"name":"_last_updated_sequence_number","type":["null","long"],"default":null,"field-id":2147483539}]}"#;

/// The file of 10 "a", 11 null, 12 "b", with the ids 5, null and 9, and the last changes 2, null
/// and null: 416 bytes.
const WITH_IDS: Input = &[
    Raw(b"Obj\x01\x04\x16avro.schema\x8E\x05"),
    Text(SCHEMA_WITH_IDS),
    Raw(b"\x14avro.codec\x08null\x00"),
    Zeros(16),
    Block(b"\x06\x26\x14\x02\x02a\x02\x0A\x02\x04\x16\x00\x00\x00\x18\x02\x02b\x02\x12\x00"),
];

/// Files with and without ids of their own.
static LINEAGE: [Case; 5] = [
    // A file without a first row id, and with the largest sequence number.
    (
        &["rows", "-", "9223372036854775807"],
        THREE_ROWS,
        0,
        "- 9223372036854775807 10 \"a\"\n- 9223372036854775807 11 null\n- 9223372036854775807 12 \"b\"\n",
        "",
    ),
    // Stored ids, and the least first row id for the row without one.
    (
        &["rows", "0", "3"],
        WITH_IDS,
        0,
        "5 2 10 \"a\"\n1 3 11 null\n9 3 12 \"b\"\n",
        "",
    ),
    // Stored ids alone.
    (
        &["rows", "-", "3"],
        WITH_IDS,
        0,
        "5 2 10 \"a\"\n- 3 11 null\n9 3 12 \"b\"\n",
        "",
    ),
    // The last id is the largest of 63 bits but one. The sequence number is the least.
    (
        &["rows", "9223372036854775804", "0"],
        THREE_ROWS,
        0,
        "9223372036854775804 0 10 \"a\"\n9223372036854775805 0 11 null\n9223372036854775806 0 12 \"b\"\n",
        "",
    ),
    // The next id would be past 63 bits.
    (
        &["rows", "9223372036854775805", "7"],
        THREE_ROWS,
        3,
        "",
        "rowline: table IdsSpent 9223372036854775805 3\n",
    ),
];

#[test]
fn a_row_has_its_stored_lineage_or_inherits_it(rt: HostRuntime) -> Result<(), Fail> {
    assert_eq!(rt; first_wrong(rt.alloc(), &LINEAGE)?, None);
    Ok(())
}
