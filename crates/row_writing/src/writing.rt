//! Writing the rows of a data file.

ghost use Rattle.std.specs.Prelude.{◌≡◌, ◌∷◌, ◌++◌, [], true, All, codes, length, map, IfOk, OnOk};
ghost use Rattle.words.specs.Reading.{Gives, never};
ghost use Rattle.row_types.specs.Columns.{IsColumns};
ghost use Rattle.row_types.specs.Fits.{fits_row};
ghost use Rattle.avro_schema.specs.Printing.{schema_text};
ghost use Rattle.avro_container.specs.Header.{schema_key, codec_key};
ghost use Rattle.avro_container.specs.Writing.{container_text};
ghost use Rattle.stored_rows.specs.Refusal.{is_memory};
ghost use Rattle.stored_rows.specs.Stored.{StoresRows};
ghost use Rattle.row_writing.specs.Writing.{file_schema as schema_of_file, block_of, blocks_of, file_container, file_of, kept, within_limit};
ghost use Rattle.row_writing.specs.Written.{IsEncodedRow, IsPrinted};

use crate::file_schema::file_schema;
use crate::row_bytes::put_row;
use avro_container::{Block, Blocks, Container, Meta, write};
use avro_schema::{print_schema, reading_agrees};
use avro_wire::{Bytes, Text};
use limits::{FILE_ROWS, OBJECT, Which};
use row_types::{Column, Columns, StoredRow, StoredRows};
use sqlite_items::Items;
use std::alloc::{AllocError, Global};
use stored_rows::RowRefusal;

/// The most rows of a block.
const BLOCK_ROWS: usize = 1_000;

/// The file of the rows: blocks of 1,000 rows, the last one smaller; none where there are no rows.
/// `sync`: the marker of its blocks. `lineage`: whether ids and last changes are written too.
///
/// `Limit` of `FileRows` comes before that of `Object`. docs/FORMATS.md, "Data files".
#[tactic(auto, unfolding(crate::specs::Writing::file_of))]
pub fn write_rows(
    alloc: Global,
    columns: &Columns,
    sync: [u8; 16],
    lineage: bool,
    rows: &StoredRows,
) -> Result<Bytes, RowRefusal>
    requires fits { All (λ row. fits_row columns.now row.cells ≡ true) rows.now }
    ensures exact { Gives is_memory (λ bytes. bytes) result
        (file_of columns.now sync lineage rows.now) }
    // What is written stores the rows, without ids and last changes where they are not written.
    ensures stores { IfOk result (λ bytes.
        StoresRows bytes columns.now (map (kept lineage) rows.now)) }
{
    let count = rows.len() as u64;
    if count > FILE_ROWS {
        return Err(RowRefusal::Limit {
            which: Which::FileRows,
            found: count,
        });
    }
    let bytes = file(alloc, columns.as_slice(), sync, lineage, rows.as_slice())?;
    within_limit(bytes)
}

/// The bytes, where they are no more than an object may have.
fn within_limit(bytes: Bytes) -> Result<Bytes, RowRefusal>
    ensures { Gives never (λ bytes. bytes) result (within_limit bytes) }
{
    let found = bytes.as_slice().len() as u64;
    if found > OBJECT {
        return Err(RowRefusal::Limit {
            which: Which::Object,
            found,
        });
    }
    Ok(bytes)
}

/// The file of the rows, however many bytes it has.
fn file(
    alloc: Global,
    columns: &[Column],
    sync: [u8; 16],
    lineage: bool,
    rows: &[StoredRow],
) -> Result<Bytes, AllocError>
    requires columns { IsColumns columns.now }
    requires fits { All (λ row. fits_row columns.now row.cells ≡ true) rows.now }
    ensures text { IfOk result (λ bytes.
        bytes ≡ container_text (file_container columns.now sync lineage rows.now)) }
    ensures stores { IfOk result (λ bytes.
        StoresRows bytes columns.now (map (kept lineage) rows.now)) }
{
    reading_agrees();
    let container = container_of(alloc, columns, sync, lineage, rows)?;
    write(alloc, &container)
}

/// The container of the rows. The text of its schema is read as the schema, and each row's bytes are
/// an encoding of its value.
fn container_of(
    alloc: Global,
    columns: &[Column],
    sync: [u8; 16],
    lineage: bool,
    rows: &[StoredRow],
) -> Result<Container, AllocError>
    requires columns { IsColumns columns.now }
    requires fits { All (λ row. fits_row columns.now row.cells ≡ true) rows.now }
    ensures exact { IfOk result (λ container.
        container ≡ file_container columns.now sync lineage rows.now) }
    ensures printed { OnOk result (IsPrinted columns.now lineage) }
    ensures encoded { OnOk result (All (IsEncodedRow columns.now lineage) rows.now) }
{
    let meta = header(alloc, columns, lineage)?;
    Ok(Container {
        meta,
        sync,
        blocks: blocks(alloc, columns, lineage, rows)?,
    })
}

/// The header of a file of the columns. The text of its schema is read as the schema.
fn header(alloc: Global, columns: &[Column], lineage: bool) -> Result<Meta, AllocError>
    requires columns { IsColumns columns.now }
    ensures exact { IfOk result (λ pairs. pairs
        ≡ (schema_key, schema_text (schema_of_file columns.now lineage))
        ∷ (codec_key, codes "null") ∷ []) }
    ensures printed { OnOk result (IsPrinted columns.now lineage) }
{
    let schema = file_schema(alloc, columns, lineage)?;
    let text = print_schema(alloc, &schema)?;
    Ok(pairs_of(alloc, text)?)
}

/// The pairs of the header of a file whose schema has the text.
fn pairs_of(alloc: Global, text: Vec<u8>) -> Result<Meta, AllocError>
    ensures { IfOk result (λ pairs.
        pairs ≡ (schema_key, text.items) ∷ (codec_key, codes "null") ∷ []) }
{
    let mut pairs = Items::new(alloc);
    put_pair(alloc, &mut pairs, "avro.schema", Bytes::from_vec(text))?;
    let codec = Bytes::from_slice(alloc, b"null")?;
    put_pair(alloc, &mut pairs, "avro.codec", codec)?;
    Ok(pairs)
}

/// Puts a pair of the key and what it is bound to.
fn put_pair(alloc: Global, pairs: &mut Meta, key: &str, value: Bytes) -> Result<(), AllocError>
    ensures { OnOk result (pairs.new ≡ pairs.old ++ (key.now, value) ∷ []) }
{
    let key = Text::from_str(alloc, key)?;
    pairs.push((key, value))
}

/// The blocks of the rows. Each row's bytes are an encoding of its value.
fn blocks(
    alloc: Global,
    columns: &[Column],
    lineage: bool,
    rows: &[StoredRow],
) -> Result<Blocks, AllocError>
    requires fits { All (λ row. fits_row columns.now row.cells ≡ true) rows.now }
    ensures exact { IfOk result (λ blocks.
        blocks ≡ blocks_of (length rows.now) columns.now lineage rows.now) }
    ensures encoded { OnOk result (All (IsEncodedRow columns.now lineage) rows.now) }
{
    let mut list = Items::new(alloc);
    let mut rest = rows;
    while !rest.is_empty() {
        let (front, behind) = rest.split_at(BLOCK_ROWS.min(rest.len()));
        list.push(block(alloc, columns, lineage, front)?)?;
        rest = behind;
    }
    Ok(list)
}

/// The block of the rows. Each row's bytes are an encoding of its value.
fn block(
    alloc: Global,
    columns: &[Column],
    lineage: bool,
    rows: &[StoredRow],
) -> Result<Block, AllocError>
    requires fits { All (λ row. fits_row columns.now row.cells ≡ true) rows.now }
    ensures exact { IfOk result (λ block. block ≡ block_of columns.now lineage rows.now) }
    ensures encoded { OnOk result (All (IsEncodedRow columns.now lineage) rows.now) }
{
    let mut bytes = Vec::new(alloc);
    for row in rows {
        put_row(columns, lineage, row, &mut bytes)?;
    }
    Ok(Block {
        count: rows.len() as i64,
        bytes: Bytes::from_vec(bytes),
    })
}
