//! The rows of a file before they are checked.

ghost use Rattle.std.specs.Prelude.{◌≡◌, ◌<◌, ◌≤◌, ◌^◌, length, Ok, IfOk, OnOk};
ghost use Rattle.words.specs.Reading.{Gives, never};
ghost use Rattle.objects.specs.Blocks.{count_all};
ghost use Rattle.fields.specs.Wanted.{fields_of};
ghost use Rattle.fields.specs.Record.{IsLayout};
ghost use Rattle.stored_rows.specs.Refusal.{is_memory};
ghost use Rattle.stored_rows.specs.Field.{check_fields};
ghost use Rattle.limits.specs.Limits.{most_rows};
ghost use Rattle.row_reading.specs.Checking.{check_before_rows, rows_in_blocks};
ghost use Rattle.row_reading.specs.Checking.{unchecked_in, unchecked_of};
ghost use Rattle.row_reading.specs.Checked.{row_by, rows_left, AreReady, AreUnchecked};
ghost use Rattle.row_reading.specs.OwnRows.{own_unchecked_of};

use crate::columns::own_columns;
use crate::counts::check_counts;
use crate::opening::open_file;
use crate::row::{FileRow, row_layout};
use avro_container::Walk;
use fields::{Layout, fields_of, nulls};
use objects::Objects;
use records::Records;
use row_types::{Column, Columns};
use schema_tree::Schema;
use std::alloc::{AllocError, Global};
use std::marker::PhantomData;
use stored_rows::{RowRefusal, check_fields};

/// The rows of the file for a table of these columns, if all is right that comes before them; and
/// how many rows its blocks say that they have.
pub fn unchecked_rows<'a>(
    alloc: Global,
    bytes: &'a [u8],
    columns: &Columns,
) -> Result<(Objects<'a, Records<FileRow>>, u64), RowRefusal>
    ensures exact { Gives is_memory (λ file. rows_left file.0.reader.layout file.0.rest) result
        (unchecked_of bytes.now columns.now) }
    ensures unchecked { IfOk result (λ file.
        AreUnchecked file.0.reader.layout file.0.rest file.0.slot file.1) }
{
    let (walk, schema) = open_file(alloc, bytes)?;
    unchecked_in(alloc, walk, schema, columns.as_slice())
}

/// The same for the columns of the file's own schema.
pub fn own_unchecked_rows<'a>(
    alloc: Global,
    bytes: &'a [u8],
) -> Result<(Objects<'a, Records<FileRow>>, u64), RowRefusal>
    ensures exact { Gives is_memory (λ file. rows_left file.0.reader.layout file.0.rest) result
        (own_unchecked_of bytes.now) }
    ensures unchecked { IfOk result (λ file.
        AreUnchecked file.0.reader.layout file.0.rest file.0.slot file.1) }
{
    let (walk, schema) = open_file(alloc, bytes)?;
    let columns = own_columns(alloc, &schema)?;
    unchecked_in(alloc, walk, schema, columns.as_slice())
}

/// The same of a file that was opened.
fn unchecked_in<'a>(
    alloc: Global,
    mut walk: Walk<'a>,
    schema: Schema,
    columns: &[Column],
) -> Result<(Objects<'a, Records<FileRow>>, u64), RowRefusal>
    requires fits { length walk.whole.blocks < 2 ^ 63 }
    ensures exact { Gives is_memory (λ file. rows_left file.0.reader.layout file.0.rest) result
        (unchecked_in columns.now (walk.entry.whole, schema)) }
    ensures unchecked { IfOk result (λ file.
        AreUnchecked file.0.reader.layout file.0.rest file.0.slot file.1) }
{
    let told_rows = check_before_rows(&mut walk, &schema, columns)?;
    walk.restart();
    let layout = row_layout(alloc, schema, columns)?;
    let rows = rows_at_start(alloc, walk, layout)?;
    Ok((rows, told_rows))
}

/// How many rows the blocks of the file say that they have, if the columns can be read from the
/// file's fields, and a file may have so many rows.
fn check_before_rows(
    walk: &mut Walk<'_>,
    schema: &Schema,
    columns: &[Column],
) -> Result<u64, RowRefusal>
    ensures exact { Gives never (λ _. tt) result
        (check_before_rows columns.now schema.now walk.old.whole.blocks) }
    ensures readable { OnOk result (check_fields (fields_of schema.now) columns.now ≡ Ok tt) }
    ensures rows { IfOk result (λ rows.
        (rows ≡ count_all walk.old.whole.blocks) × (rows ≤ most_rows)) }
    ensures whole { walk.new.whole ≡ walk.old.whole }
{
    check_fields(fields_of(schema), columns)?;
    walk.restart();
    Ok(check_counts(walk)?)
}

/// The rows of all blocks, of which none was read.
fn rows_at_start<'a>(
    alloc: Global,
    walk: Walk<'a>,
    layout: Layout,
) -> Result<Objects<'a, Records<FileRow>>, AllocError>
    requires layout { IsLayout layout }
    requires lineage { 2 ≤ length layout.wanted.items }
    requires start { walk.left ≡ walk.whole.blocks }
    requires fits { length walk.whole.blocks < 2 ^ 63 }
    ensures ready { IfOk result (λ rows. AreReady rows.reader.layout rows.rest rows.slot) }
    ensures left { IfOk result (λ rows. rows_left rows.reader.layout rows.rest
        ≡ rows_in_blocks (row_by rows.reader.layout) rows.rest.walk.whole.blocks) }
    ensures layout { IfOk result (λ rows. rows.reader.layout ≡ layout) }
    ensures whole { IfOk result (λ rows. rows.rest.walk.whole ≡ walk.entry.whole) }
{
    let slot = nulls(alloc, &layout)?;
    let reader = Records {
        layout,
        of: PhantomData,
    };
    Ok(Objects::new(reader, walk, slot))
}
