//! Files, columns and refusals, as the tables of the tests name them.

use avro_container::{Block, Blocks, Container, Meta, write};
use avro_schema::SchemaRefusal;
use avro_wire::{Bytes, Text};
use datum_reading::DatumRefusal;
use limits::Which;
use row_file::RowRefusal;
use row_types::{Column, Columns, Kind};
use sqlite_items::Items;
use std::alloc::{AllocError, Global};

/// How many objects a block says that it has, and its bytes.
pub type Told = (i64, &'static [u8]);

/// A file of the schema and of these blocks. Its marker is 7, 16 times.
pub fn file_of(alloc: Global, schema: &str, blocks: &[Told]) -> Result<Bytes, AllocError> {
    let container = Container {
        meta: header(alloc, schema)?,
        sync: [7; 16],
        blocks: all_blocks(alloc, blocks)?,
    };
    write(alloc, &container)
}

/// The header that binds the schema, and names no codec.
fn header(alloc: Global, schema: &str) -> Result<Meta, AllocError> {
    let mut meta = Items::new(alloc);
    meta.push((
        Text::from_str(alloc, "avro.schema")?,
        Bytes::from_slice(alloc, schema.as_bytes())?,
    ))?;
    Ok(meta)
}

/// The blocks.
fn all_blocks(alloc: Global, table: &[Told]) -> Result<Blocks, AllocError> {
    let mut blocks = Items::new(alloc);
    for told in table {
        blocks.push(Block {
            count: told.0,
            bytes: Bytes::from_slice(alloc, told.1)?,
        })?;
    }
    Ok(blocks)
}

/// A column: its id, its name, its kind, and whether it is required.
pub type Named = (i32, &'static str, Kind, bool);

/// The columns; None where they are none of a table, or memory ran out.
pub fn columns_of(alloc: Global, table: &[Named]) -> Option<Columns> {
    match all_columns(alloc, table) {
        Ok(list) => Columns::from_list(list).ok(),
        Err(_) => None,
    }
}

/// A list of the columns.
fn all_columns(alloc: Global, table: &[Named]) -> Result<Vec<Column>, AllocError> {
    let mut list = Vec::new(alloc);
    for named in table {
        list.push(Column {
            id: named.0,
            name: Text::from_str(alloc, named.1)?,
            kind: named.2,
            required: named.3,
        })?;
    }
    Ok(list)
}

/// Whether these are the columns.
pub fn are_columns(columns: &[Column], wanted: &[Named]) -> bool {
    for place in 0..wanted.len() {
        if !is_column(columns.get(place), &wanted[place]) {
            return false;
        }
    }
    columns.len() == wanted.len()
}

/// Whether there is a column, and it is this one.
fn is_column(column: Option<&Column>, wanted: &Named) -> bool {
    match column {
        Some(column) => {
            column.id == wanted.0
                && column.name.as_str() == wanted.1
                && column.kind == wanted.2
                && column.required == wanted.3
        }
        None => false,
    }
}

/// A refusal of `row_file`.
pub enum Refused {
    /// `Form` of the schema, at this path.
    Form(&'static str),
    MissingColumn(i32),
    Kind(i32),
    /// `Short` of a row's bytes, at this place.
    Short(u64),
    /// `Branch` of a row's bytes, at this place.
    Branch(u64),
    Rest(u64),
    RecordCount(i64, i64),
    IdsSpent(i64, i64),
    /// `Limit` of the rows.
    FileRows(u64),
}

/// Whether this is the refusal.
pub fn is_refused(refusal: &RowRefusal, wanted: &Refused) -> bool {
    match refusal {
        RowRefusal::Schema(refusal) => is_no_schema(refusal, wanted),
        RowRefusal::MissingColumn { id } => {
            matches!(wanted, Refused::MissingColumn(other) if *other == *id)
        }
        RowRefusal::Kind { id } => matches!(wanted, Refused::Kind(other) if *other == *id),
        RowRefusal::Datum(refusal) => is_no_datum(*refusal, wanted),
        RowRefusal::RecordCount { told, found } => {
            matches!(wanted, Refused::RecordCount(first, second) if *first == *told && *second == *found)
        }
        RowRefusal::IdsSpent { first, rows } => {
            matches!(wanted, Refused::IdsSpent(low, many) if *low == *first && *many == *rows)
        }
        refusal => is_of_blocks(refusal, wanted),
    }
}

/// Whether this is the refusal of a schema.
fn is_no_schema(refusal: &SchemaRefusal, wanted: &Refused) -> bool {
    match refusal {
        SchemaRefusal::Form { path } => {
            matches!(wanted, Refused::Form(other) if *other == path.as_str())
        }
        _ => false,
    }
}

/// Whether this is the refusal of a row's bytes.
fn is_no_datum(refusal: DatumRefusal, wanted: &Refused) -> bool {
    match refusal {
        DatumRefusal::Short { place } => matches!(wanted, Refused::Short(other) if *other == place),
        DatumRefusal::Branch { place } => {
            matches!(wanted, Refused::Branch(other) if *other == place)
        }
        _ => false,
    }
}

/// Whether this is the refusal of a block or of all their rows.
fn is_of_blocks(refusal: &RowRefusal, wanted: &Refused) -> bool {
    match refusal {
        RowRefusal::Rest { block } => matches!(wanted, Refused::Rest(other) if *other == *block),
        RowRefusal::Limit {
            which: Which::FileRows,
            found,
        } => matches!(wanted, Refused::FileRows(other) if *other == *found),
        _ => false,
    }
}
