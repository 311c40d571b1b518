//! Reading values.

ghost use Rattle.std.specs.Prelude.{◌≡◌, ℕ, ◌+◌, ◌≤◌, List, [], ◌++◌, length, drop, slice_range, Ok, IfOk, true};
ghost use Rattle.words.specs.Reading.{Gives, map_value};
ghost use Rattle.schema_tree.specs.declared.schema.Schema.{Schema};
ghost use Rattle.datum_tree.specs.declared.datum.Datum.{Datum};
ghost use Rattle.datum_tree.specs.declared.datum.Datum.TheVariants as datums;
ghost use Rattle.datum_reading.specs.Refusal.{is_memory};
ghost use Rattle.datum_reading.specs.Readers.{readers_of, union_at};
ghost use Rattle.datum_reading.specs.Reading.{fields_at, pair_at, items_at, all_at, datum_at};
ghost use Rattle.datum_reading.specs.Agreeing.{Agrees};
ghost use Rattle.datum_tree.specs.Value.{items_in};
ghost use Rattle.datum_tree.specs.Fits.{fits};
ghost use Rattle.datum_tree.specs.Spelling.{Spells, IsEncoding};

use crate::block::{check_size, take_head};
use crate::cursor::Cursor;
use crate::primitive::{
    read_flag, read_int, read_long, read_raw, read_sized, read_string, read_symbol, read_text,
    take_choice,
};
use crate::refusal::DatumRefusal;
use avro_wire::Text;
use datum_tree::{Datum, Items, Pairs, encodings_fit};
use lists::List;
use schema_tree::{Branches, Fields, Schema};
use sqlite_items::Boxed;
use std::alloc::Global;

/// The value that the bytes at `place` spell under the schema, and the place after it. Places count
/// bytes from 0. Memory is taken for what was read, and not for what a count or a length promises.
/// The refusal is that of the first item that has no spelling, from `place` on; that of a block's
/// size comes after those of its items. Avro spec, "Binary encoding".
pub fn decode(
    alloc: Global,
    schema: &Schema,
    input: &[u8],
    place: usize,
) -> Result<(Datum, usize), DatumRefusal>
    requires { place ≤ length input.now }
    // What is decoded is spelled by the bytes between, and fits; whatever is spelled is decoded.
    ensures found { IfOk result (λ read.
        IsEncoding schema.now read.0 (slice_range input.now place read.1)) }
    ensures only { (datum : Datum) (bytes after : List ℕ)
        → drop place input.now ≡ bytes ++ after → IsEncoding schema.now datum bytes
        → Gives is_memory (λ x. x) result (Ok (datum, place + length bytes)) }
    ensures fits { IfOk result (λ read. fits schema.now read.0 ≡ true) }
    // Which refusal comes.
    ensures exact { Gives is_memory (λ x. x) result
        (map_value (λ read. (read.0, read.1.place))
        (datum_at schema.now input.now (record { place = place; items = 0 }))) }
    ensures within { IfOk result (λ read. (place ≤ read.1) × (read.1 ≤ length input.now)) }
{
    encodings_fit();
    decode_from(alloc, schema, input, place)
}

/// A law, and no code: what is read under a schema is encoded so, and what is encoded so is read.
pub fn reading_agrees()
    ensures { (schema : Schema) → Agrees (datum_at schema) (Spells schema) items_in }
{}

/// A law, without code: two encodings of values of a schema at the beginning of one list are the same
/// bytes and the same value, so that none is a proper prefix of another.
pub fn no_prefix()
    ensures { (schema : Schema) (datum other : Datum) (a b after rest : List ℕ)
        → IsEncoding schema datum a → IsEncoding schema other b
        → a ++ after ≡ b ++ rest → (a ≡ b) × (datum ≡ other) }
{}

/// What `decode` answers.
fn decode_from(
    alloc: Global,
    schema: &Schema,
    input: &[u8],
    place: usize,
) -> Result<(Datum, usize), DatumRefusal>
    requires { place ≤ length input.now }
    ensures exact { Gives is_memory (λ x. x) result
        (map_value (λ read. (read.0, read.1.place))
        (datum_at schema.now input.now (record { place = place; items = 0 }))) }
    ensures within { IfOk result (λ read. (place ≤ read.1) × (read.1 ≤ length input.now)) }
{
    let start = Cursor { place, items: 0 };
    let (datum, after) = read_datum(alloc, schema, input, start)?;
    Ok((datum, after.place))
}

/// The value at the cursor, and the cursor after it.
#[cycle(decode)]
#[tactic(auto, using(crate::specs::Layers::layers))]
fn read_datum(
    alloc: Global,
    schema: &Schema,
    input: &[u8],
    at: Cursor,
) -> Result<(Datum, Cursor), DatumRefusal>
    requires { at.place ≤ length input.now }
    ensures exact { Gives is_memory (λ read. read) result (datum_at schema.now input.now at) }
    ensures within { IfOk result (λ read.
        (at.place ≤ read.1.place) × (read.1.place ≤ length input.now)) }
{
    match schema {
        Schema::Null => Ok((Datum::Null, at)),
        Schema::Boolean => read_flag(input, at),
        Schema::Int(_) => read_int(input, at),
        Schema::Long(_) => read_long(input, at),
        Schema::Float => read_raw(alloc, 4, input, at),
        Schema::Double => read_raw(alloc, 8, input, at),
        Schema::Raw => read_sized(alloc, input, at),
        Schema::Str => read_string(alloc, input, at),
        Schema::Fixed { size, .. } => read_raw(alloc, u64::from(*size), input, at),
        Schema::Enum { symbols, .. } => read_symbol(symbols.get().len(), input, at),
        Schema::Rec { fields, .. } => read_record(alloc, fields.get(), input, at),
        Schema::Array { items, .. } => read_array(alloc, items.get(), input, at),
        Schema::Map { values, .. } => read_map(alloc, values.get(), input, at),
        Schema::Union(branches) => read_union(alloc, branches, input, at),
    }
}

/// A value of each field.
#[cycle(decode)]
fn read_record(
    alloc: Global,
    fields: &Fields,
    input: &[u8],
    at: Cursor,
) -> Result<(Datum, Cursor), DatumRefusal>
    requires { at.place ≤ length input.now }
    ensures exact { Gives is_memory (λ read. read) result
        (map_value (λ read. (datums.Rec read.0, read.1))
        (fields_at (readers_of fields.now) [] input.now at)) }
    ensures within { IfOk result (λ read.
        (at.place ≤ read.1.place) × (read.1.place ≤ length input.now)) }
{
    let mut values = List::new(alloc);
    let mut at = at;
    for field in fields.as_slice() {
        let (value, after) = read_datum(alloc, &field.schema, input, at)?;
        values.push(value)?;
        at = after;
    }
    Ok((Datum::Rec(values), at))
}

/// The number of a branch, and a value of it.
#[cycle(decode)]
fn read_union(
    alloc: Global,
    branches: &Branches,
    input: &[u8],
    at: Cursor,
) -> Result<(Datum, Cursor), DatumRefusal>
    requires { at.place ≤ length input.now }
    ensures exact { Gives is_memory (λ read. read) result
        (union_at branches.now input.now at) }
    ensures within { IfOk result (λ read.
        (at.place ≤ read.1.place) × (read.1.place ≤ length input.now)) }
{
    let (choice, behind) = take_choice(branches.len(), input, at)?;
    let branch = &branches.as_slice()[choice as usize];
    let (value, after) = read_datum(alloc, branch, input, behind)?;
    Ok((Datum::Branch(choice, Boxed::new(alloc, value)?), after))
}

/// `count` more items, and the cursor after them.
#[cycle(decode)]
fn read_items(
    alloc: Global,
    schema: &Schema,
    count: u64,
    items: &mut Items,
    input: &[u8],
    at: Cursor,
) -> Result<Cursor, DatumRefusal>
    requires { at.place ≤ length input.now }
    ensures exact { Gives is_memory (λ after. (items.new, after)) result
        (items_at (datum_at schema.now) count items.old input.now at) }
    ensures within { IfOk result (λ after.
        (at.place ≤ after.place) × (after.place ≤ length input.now)) }
{
    let mut at = at;
    for _ in 0..count {
        let (item, after) = read_datum(alloc, schema, input, at)?;
        items.push(item)?;
        at = after;
    }
    Ok(at)
}

/// The items of an array.
#[cycle(decode)]
fn read_array(
    alloc: Global,
    schema: &Schema,
    input: &[u8],
    at: Cursor,
) -> Result<(Datum, Cursor), DatumRefusal>
    requires { at.place ≤ length input.now }
    ensures exact { Gives is_memory (λ read. read) result
        (map_value (λ read. (datums.Array read.0, read.1))
        (all_at (datum_at schema.now) input.now at)) }
    ensures within { IfOk result (λ read.
        (at.place ≤ read.1.place) × (read.1.place ≤ length input.now)) }
{
    let mut items = List::new(alloc);
    let mut at = at;
    for _ in 0..input.len() + 1 {
        let head = take_head(input, at)?;
        if head.count == 0 {
            return Ok((Datum::Array(items), head.first));
        }
        let after = read_items(alloc, schema, head.count, &mut items, input, head.first)?;
        check_size(&head, after)?;
        at = after;
    }
    Err(DatumRefusal::Short {
        place: at.place as u64,
    })
}

/// A key and its value.
#[cycle(decode)]
fn read_pair(
    alloc: Global,
    schema: &Schema,
    input: &[u8],
    at: Cursor,
) -> Result<((Text, Datum), Cursor), DatumRefusal>
    requires { at.place ≤ length input.now }
    ensures exact { Gives is_memory (λ read. read) result
        (pair_at (datum_at schema.now) input.now at) }
    ensures within { IfOk result (λ read.
        (at.place ≤ read.1.place) × (read.1.place ≤ length input.now)) }
{
    let (key, behind) = read_text(alloc, input, at)?;
    let (value, after) = read_datum(alloc, schema, input, behind)?;
    Ok(((key, value), after))
}

/// `count` more pairs, and the cursor after them.
#[cycle(decode)]
fn read_pairs(
    alloc: Global,
    schema: &Schema,
    count: u64,
    pairs: &mut Pairs,
    input: &[u8],
    at: Cursor,
) -> Result<Cursor, DatumRefusal>
    requires { at.place ≤ length input.now }
    ensures exact { Gives is_memory (λ after. (pairs.new, after)) result
        (items_at (pair_at (datum_at schema.now)) count pairs.old input.now at) }
    ensures within { IfOk result (λ after.
        (at.place ≤ after.place) × (after.place ≤ length input.now)) }
{
    let mut at = at;
    for _ in 0..count {
        let (pair, after) = read_pair(alloc, schema, input, at)?;
        pairs.push(pair)?;
        at = after;
    }
    Ok(at)
}

/// The pairs of a map.
#[cycle(decode)]
fn read_map(
    alloc: Global,
    schema: &Schema,
    input: &[u8],
    at: Cursor,
) -> Result<(Datum, Cursor), DatumRefusal>
    requires { at.place ≤ length input.now }
    ensures exact { Gives is_memory (λ read. read) result
        (map_value (λ read. (datums.Map read.0, read.1))
        (all_at (pair_at (datum_at schema.now)) input.now at)) }
    ensures within { IfOk result (λ read.
        (at.place ≤ read.1.place) × (read.1.place ≤ length input.now)) }
{
    let mut pairs = List::new(alloc);
    let mut at = at;
    for _ in 0..input.len() + 1 {
        let head = take_head(input, at)?;
        if head.count == 0 {
            return Ok((Datum::Map(pairs), head.first));
        }
        let after = read_pairs(alloc, schema, head.count, &mut pairs, input, head.first)?;
        check_size(&head, after)?;
        at = after;
    }
    Err(DatumRefusal::Short {
        place: at.place as u64,
    })
}
