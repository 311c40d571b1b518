//! Files that are written, by their bytes, their fields and their blocks.

ghost use Rattle.std.specs.Prelude.{◌≡◌, true, All};
ghost use Rattle.std.specs.Bool.{OnTrue};
ghost use Rattle.row_types.specs.Fits.{fits, fits_row, has_number};

use crate::columns::has_columns;
use crate::files::{Named, columns_of};
use crate::rows::all_right;
use avro_container::{Block, Container, Meta, bound_to, read};
use avro_schema::{Field, Schema, read_schema};
use avro_wire::{Bytes, Text};
use lists::List;
use row_file::write_rows;
use row_types::{Cell, Column, Columns, Kind, StoredRow, StoredRows};
use std::alloc::{AllocError, Global};
use std::test::*;

/// The schema of the first file below.
const SCHEMA: &[u8] = b"{\"type\":\"record\",\"name\":\"row\",\"fields\":[\
    {\"name\":\"n\",\"type\":\"long\",\"field-id\":1},\
    {\"name\":\"s\",\"type\":[\"null\",\"string\"],\"default\":null,\"field-id\":2},\
    {\"name\":\"_row_id\",\"type\":[\"null\",\"long\"],\
    \"default\":null,\"field-id\":2147483540},\
    {\"name\":\"_last_updated_sequence_number\",\"type\":[\"null\",\"long\"],\
    \"default\":null,\"field-id\":2147483539}]}";

/// The marker of the files below.
const MARKER: &[u8] = &[7; 16];

/// A row's number and text, its id and its last change.
type Told = (i64, Option<&'static str>, Option<i64>, Option<i64>);

const THREE: &[Told] = &[
    (1, Some("a"), Some(7), Some(3)),
    (-1, None, None, None),
    (64, Some(""), Some(0), None),
];

/// The three rows, one behind the other, with the count and the size before them.
const THREE_BYTES: &[u8] =
    b"\x06\x26\x02\x02\x02a\x02\x0e\x02\x06\x01\x00\x00\x00\x80\x01\x02\x00\x02\x00\x00";

/// What the file of the three rows is, one part behind the other.
const PARTS: &[&[u8]] = &[
    b"Obj\x01\x04\x16avro.schema\x8e\x05",
    SCHEMA,
    b"\x14avro.codec\x08null\x00",
    MARKER,
    THREE_BYTES,
    MARKER,
];

/// A row of the table.
fn row(alloc: Global, told: &Told) -> Result<StoredRow, AllocError> {
    let mut cells = List::new(alloc);
    cells.push(Cell::Num(told.0))?;
    cells.push(match told.1 {
        Some(text) => Cell::Text(Text::from_str(alloc, text)?),
        None => Cell::Null,
    })?;
    Ok(StoredRow {
        id: told.2,
        last: told.3,
        cells,
    })
}

/// What the row at the place is: that of the table, and behind it one whose number is its place.
fn told_at(table: &[Told], place: u32) -> Told {
    match table.get(place as usize) {
        Some(told) => *told,
        None => (i64::from(place), None, None, None),
    }
}

/// So many rows, first those of the table.
fn rows(alloc: Global, table: &[Told], many: u32) -> Result<StoredRows, AllocError> {
    let mut rows = List::new(alloc);
    for place in 0..many {
        rows.push(row(alloc, &told_at(table, place))?)?;
    }
    Ok(rows)
}

/// Whether the number stands in a column of longs.
fn is_long(kind: Kind, number: i64) -> bool
    ensures { OnTrue result (has_number kind number ≡ true) }
{
    matches!(kind, Kind::Long)
}

/// Whether the cell is one that these tests put into the column.
fn is_cell(column: &Column, cell: &Cell) -> bool
    ensures { OnTrue result (fits column.now cell.now ≡ true) }
{
    match cell {
        Cell::Null => !column.required,
        Cell::Num(number) => is_long(column.kind, *number),
        Cell::Text(_) => matches!(column.kind, Kind::Text),
        _ => false,
    }
}

/// Whether the cells are such, one in each of the two columns.
#[tactic(auto, unfolding(row_types::specs::Fits::fits_row))]
fn is_row(columns: &[Column], cells: &[Cell]) -> bool
    ensures { OnTrue result (fits_row columns.now cells.now ≡ true) }
{
    let ([first, second], [number, text]) = (columns, cells) else {
        return false;
    };
    is_cell(first, number) && is_cell(second, text)
}

/// Whether all rows are such.
fn are_rows(columns: &[Column], rows: &[StoredRow]) -> bool
    ensures { OnTrue result (All (λ row. fits_row columns.now row.cells ≡ true) rows.now) }
{
    for row in rows {
        if !is_row(columns, row.cells.as_slice()) {
            return false;
        }
    }
    true
}

/// The file of the rows in the columns; None where they don't fit.
fn file_in(alloc: Global, columns: &Columns, lineage: bool, rows: &StoredRows) -> Option<Bytes> {
    if !are_rows(columns.as_slice(), rows.as_slice()) {
        return None;
    }
    write_rows(alloc, columns, [7; 16], lineage, rows).ok()
}

const TWO_COLUMNS: &[Named] = &[(1, "n", Kind::Long, true), (2, "s", Kind::Text, false)];

/// What a file has.
enum Wanted {
    /// These bytes, one part behind the other.
    Parts(&'static [&'static [u8]]),
    /// Fields of these names and ids.
    Fields(&'static [(&'static str, i32)]),
    /// Blocks of these counts.
    Counts(&'static [i64]),
    /// The columns that it is written of.
    Columns,
}

/// The columns of a file, whether lineage is written, its first rows, how many there are, and what
/// the file has.
struct Case {
    columns: &'static [Named],
    lineage: bool,
    told: &'static [Told],
    many: u32,
    wanted: Wanted,
}

/// A file of three rows has its schema and then its rows.
static WHOLE: [Case; 1] = [Case {
    columns: TWO_COLUMNS,
    lineage: true,
    told: THREE,
    many: 3,
    wanted: Wanted::Parts(PARTS),
}];

const BY_IDS: &[(&str, i32)] = &[("f1", 1), ("f2", 2)];

static FIELDS: [Case; 7] = [
    // A field has its name where all are names of Avro.
    Case {
        columns: &[(1, "n", Kind::Long, true), (2, "_2", Kind::Text, false)],
        lineage: false,
        told: &[],
        many: 0,
        wanted: Wanted::Fields(&[("n", 1), ("_2", 2)]),
    },
    Case {
        columns: &[(1, "n", Kind::Long, true), (2, "a b", Kind::Text, false)],
        lineage: false,
        told: &[],
        many: 0,
        wanted: Wanted::Fields(BY_IDS),
    },
    Case {
        columns: &[(1, "n", Kind::Long, true), (2, "2a", Kind::Text, false)],
        lineage: false,
        told: &[],
        many: 0,
        wanted: Wanted::Fields(BY_IDS),
    },
    Case {
        columns: &[
            (1, "_row_id", Kind::Long, true),
            (2, "s", Kind::Text, false),
        ],
        lineage: false,
        told: &[],
        many: 0,
        wanted: Wanted::Fields(BY_IDS),
    },
    Case {
        columns: &[
            (1, "n", Kind::Long, true),
            (2, "_last_updated_sequence_number", Kind::Text, false),
        ],
        lineage: false,
        told: &[],
        many: 0,
        wanted: Wanted::Fields(BY_IDS),
    },
    Case {
        columns: &[(1, "é", Kind::Long, true), (2, "s", Kind::Text, false)],
        lineage: false,
        told: &[],
        many: 0,
        wanted: Wanted::Fields(BY_IDS),
    },
    Case {
        columns: &[(1, "n", Kind::Long, true), (2, "s", Kind::Text, false)],
        lineage: true,
        told: &[],
        many: 0,
        wanted: Wanted::Fields(&[
            ("n", 1),
            ("s", 2),
            ("_row_id", 2_147_483_540),
            ("_last_updated_sequence_number", 2_147_483_539),
        ]),
    },
];

/// A block has no more than 1000 rows.
static COUNTS: [Case; 4] = [
    Case {
        columns: TWO_COLUMNS,
        lineage: false,
        told: &[],
        many: 0,
        wanted: Wanted::Counts(&[]),
    },
    Case {
        columns: TWO_COLUMNS,
        lineage: false,
        told: &[],
        many: 1,
        wanted: Wanted::Counts(&[1]),
    },
    Case {
        columns: TWO_COLUMNS,
        lineage: false,
        told: &[],
        many: 1_000,
        wanted: Wanted::Counts(&[1000]),
    },
    Case {
        columns: TWO_COLUMNS,
        lineage: false,
        told: &[],
        many: 1_001,
        wanted: Wanted::Counts(&[1000, 1]),
    },
];

/// A column of each kind.
const KINDS: &[Named] = &[
    (1, "c1", Kind::Boolean, false),
    (2, "c2", Kind::Int, true),
    (3, "c3", Kind::Long, false),
    (4, "c4", Kind::Date, true),
    (5, "c5", Kind::Time, false),
    (6, "c6", Kind::Timestamp, true),
    (7, "c7", Kind::Timestamptz, false),
    (8, "c8", Kind::Text, true),
    (9, "c9", Kind::Bytes, false),
];

/// A file has the columns that it is written of.
static KEPT: [Case; 1] = [Case {
    columns: KINDS,
    lineage: true,
    told: &[],
    many: 0,
    wanted: Wanted::Columns,
}];

/// The parts, one behind the other.
fn joined(alloc: Global, parts: &[&[u8]]) -> Result<Vec<u8>, AllocError> {
    let mut bytes = Vec::new(alloc);
    for part in parts {
        bytes.extend_from_slice(part)?;
    }
    Ok(bytes)
}

/// Whether the bytes are these parts.
fn are_parts(alloc: Global, bytes: &[u8], parts: &[&[u8]]) -> bool {
    match joined(alloc, parts) {
        Ok(wanted) => bytes == wanted.as_slice(),
        Err(_) => false,
    }
}

/// Whether there is a field, and it has the name and the id.
fn is_field(field: Option<&Field>, wanted: (&str, i32)) -> bool {
    match field {
        Some(field) => field.name.get().as_str() == wanted.0 && field.id == Some(wanted.1),
        None => false,
    }
}

/// Whether the fields have these names and ids.
fn are_fields(fields: &[Field], wanted: &[(&str, i32)]) -> bool {
    for place in 0..wanted.len() {
        if !is_field(fields.get(place), wanted[place]) {
            return false;
        }
    }
    fields.len() == wanted.len()
}

/// Whether it is a record of such fields.
fn has_fields(schema: &Schema, wanted: &[(&str, i32)]) -> bool {
    match schema {
        Schema::Rec { fields, .. } => are_fields(fields.get().as_slice(), wanted),
        _ => false,
    }
}

/// Whether the text is the schema of a record of such fields.
fn spells_fields(alloc: Global, text: &[u8], wanted: &[(&str, i32)]) -> bool {
    match read_schema(alloc, text) {
        Ok(schema) => has_fields(&schema, wanted),
        Err(_) => false,
    }
}

/// Whether the header binds such a schema.
fn binds_fields(alloc: Global, meta: &Meta, wanted: &[(&str, i32)]) -> bool {
    match bound_to(meta, "avro.schema") {
        Some(text) => spells_fields(alloc, text, wanted),
        None => false,
    }
}

/// Whether the blocks have these counts.
fn have_counts(blocks: &[Block], wanted: &[i64]) -> bool {
    for place in 0..wanted.len() {
        match blocks.get(place) {
            Some(block) if block.count == wanted[place] => {}
            _ => return false,
        }
    }
    blocks.len() == wanted.len()
}

/// Whether the container has such a header or such blocks.
fn has_parts(alloc: Global, container: &Container, wanted: &Wanted) -> bool {
    match wanted {
        Wanted::Fields(fields) => binds_fields(alloc, &container.meta, fields),
        Wanted::Counts(counts) => have_counts(container.blocks.as_slice(), counts),
        _ => false,
    }
}

/// Whether the bytes are such a container.
fn is_container(alloc: Global, bytes: &[u8], wanted: &Wanted) -> bool {
    match read(alloc, bytes) {
        Ok(container) => has_parts(alloc, &container, wanted),
        Err(_) => false,
    }
}

/// Whether the file has what is wanted of the case.
fn has_wanted(alloc: Global, bytes: &[u8], case: &Case) -> bool {
    match &case.wanted {
        Wanted::Parts(parts) => are_parts(alloc, bytes, parts),
        Wanted::Columns => has_columns(alloc, bytes, case.columns, &None),
        wanted => is_container(alloc, bytes, wanted),
    }
}

/// Whether the file of the rows in the columns has what is wanted.
fn is_file_of(alloc: Global, columns: &Columns, rows: &StoredRows, case: &Case) -> bool {
    match file_in(alloc, columns, case.lineage, rows) {
        Some(bytes) => has_wanted(alloc, bytes.as_slice(), case),
        None => false,
    }
}

/// Whether the file of the rows has what is wanted.
fn is_file(alloc: Global, rows: &StoredRows, case: &Case) -> bool {
    match columns_of(alloc, case.columns) {
        Some(columns) => is_file_of(alloc, &columns, rows, case),
        None => false,
    }
}

/// Whether the file of the case has what is wanted.
fn is_right(alloc: Global, case: &Case) -> bool {
    match rows(alloc, case.told, case.many) {
        Ok(rows) => is_file(alloc, &rows, case),
        Err(_) => false,
    }
}

/// The number of the first case whose file lacks what is wanted; None where there is none.
fn first_wrong(alloc: Global, cases: &[Case]) -> Option<usize> {
    for place in 0..cases.len() {
        if !is_right(alloc, &cases[place]) {
            return Some(place);
        }
    }
    None
}

#[test]
fn a_file_has_its_schema_and_then_its_rows_in_blocks_of_1000(rt: HostRuntime) {
    all_right(&rt, first_wrong(rt.alloc(), &WHOLE));
    all_right(&rt, first_wrong(rt.alloc(), &COUNTS));
}

#[test]
fn a_file_has_the_columns_that_it_is_written_of_by_their_names_of_avro(rt: HostRuntime) {
    all_right(&rt, first_wrong(rt.alloc(), &KEPT));
    all_right(&rt, first_wrong(rt.alloc(), &FIELDS));
}
