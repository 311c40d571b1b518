//! Finding where values end, without building them.

ghost use Rattle.std.specs.Prelude.{◌≡◌, ◌≤◌, [], length, slice_get, IfOk};
ghost use Rattle.words.specs.Reading.{Gives, never};
ghost use Rattle.avro_wire.specs.Number.{long, int};
ghost use Rattle.datum_reading.specs.Readers.{readers_of, union_at, passed};
ghost use Rattle.datum_reading.specs.Reading.{flag_at, num_at, raw_at, sized_at, text_at, choice_at, fields_at, pair_at, items_at, all_at, datum_at, passed_at};

use crate::block::{check_size, take_head};
use crate::cursor::Cursor;
use crate::primitive::{
    pass_raw, pass_sized, take_choice, take_flag, take_int_at, take_long_at, take_text,
};
use crate::refusal::DatumRefusal;
use schema_tree::{Branches, Fields, Schema};

/// Where the value at the cursor ends, and how many items of arrays and maps are before that.
/// Takes no memory. The refusals are those of `decode`, in the same order: also the items of a
/// block that tells its size are read, since the size has to be true. Of an array's items that take
/// no bytes, as nulls do, the first alone is looked at. Avro spec, "Binary encoding".
pub fn skip(schema: &Schema, input: &[u8], at: Cursor) -> Result<Cursor, DatumRefusal>
    requires { at.place ≤ length input.now }
    ensures exact { Gives never (λ after. after) result (passed_at schema.now input.now at) }
    ensures within { IfOk result (λ after.
        (at.place ≤ after.place) × (after.place ≤ length input.now)) }
{
    skip_datum(schema, input, at)
}

/// Where the value at the cursor ends.
#[cycle(skip)]
#[tactic(auto, using(crate::specs::Layers::layers))]
fn skip_datum(schema: &Schema, input: &[u8], at: Cursor) -> Result<Cursor, DatumRefusal>
    requires { at.place ≤ length input.now }
    ensures exact { Gives never (λ after. after) result
        (passed (datum_at schema.now input.now at)) }
    ensures within { IfOk result (λ after.
        (at.place ≤ after.place) × (after.place ≤ length input.now)) }
{
    match schema {
        Schema::Null => Ok(at),
        Schema::Boolean => skip_flag(input, at),
        Schema::Int(_) => skip_int(input, at),
        Schema::Long(_) => skip_long(input, at),
        Schema::Float => pass_raw(4, input, at),
        Schema::Double => pass_raw(8, input, at),
        Schema::Raw => skip_sized(input, at),
        Schema::Str => skip_text(input, at),
        Schema::Fixed { size, .. } => pass_raw(u64::from(*size), input, at),
        Schema::Enum { symbols, .. } => skip_symbol(symbols.get().len(), input, at),
        Schema::Rec { fields, .. } => skip_fields(fields.get(), input, at),
        Schema::Array { items, .. } => skip_array(items.get(), input, at),
        Schema::Map { values, .. } => skip_map(values.get(), input, at),
        Schema::Union(branches) => skip_branch(branches, input, at),
    }
}

/// Where a boolean ends.
fn skip_flag(input: &[u8], at: Cursor) -> Result<Cursor, DatumRefusal>
    requires { at.place ≤ length input.now }
    ensures exact { Gives never (λ after. after) result
        (passed (flag_at (slice_get input.now at.place) at)) }
    ensures within { IfOk result (λ after.
        (at.place ≤ after.place) × (after.place ≤ length input.now)) }
{
    let (_, after) = take_flag(input, at)?;
    Ok(after)
}

/// Where a number of 32 bits ends.
fn skip_int(input: &[u8], at: Cursor) -> Result<Cursor, DatumRefusal>
    requires { at.place ≤ length input.now }
    ensures exact { Gives never (λ after. after) result
        (passed (num_at int input.now at)) }
    ensures within { IfOk result (λ after.
        (at.place ≤ after.place) × (after.place ≤ length input.now)) }
{
    let (_, after) = take_int_at(input, at)?;
    Ok(after)
}

/// Where a number of 64 bits ends.
fn skip_long(input: &[u8], at: Cursor) -> Result<Cursor, DatumRefusal>
    requires { at.place ≤ length input.now }
    ensures exact { Gives never (λ after. after) result
        (passed (num_at long input.now at)) }
    ensures within { IfOk result (λ after.
        (at.place ≤ after.place) × (after.place ≤ length input.now)) }
{
    let (_, after) = take_long_at(input, at)?;
    Ok(after)
}

/// Where bytes after their length end.
fn skip_sized(input: &[u8], at: Cursor) -> Result<Cursor, DatumRefusal>
    requires { at.place ≤ length input.now }
    ensures exact { Gives never (λ after. after) result
        (passed (sized_at input.now at)) }
    ensures within { IfOk result (λ after.
        (at.place ≤ after.place) × (after.place ≤ length input.now)) }
{
    let (_, after) = pass_sized(input, at)?;
    Ok(after)
}

/// Where a text after its length ends.
fn skip_text(input: &[u8], at: Cursor) -> Result<Cursor, DatumRefusal>
    requires { at.place ≤ length input.now }
    ensures exact { Gives never (λ after. after) result
        (passed (text_at input.now at)) }
    ensures within { IfOk result (λ after.
        (at.place ≤ after.place) × (after.place ≤ length input.now)) }
{
    let (_, after) = take_text(input, at)?;
    Ok(after)
}

/// Where the number of a symbol, of `count`, ends.
fn skip_symbol(many: usize, input: &[u8], at: Cursor) -> Result<Cursor, DatumRefusal>
    requires { at.place ≤ length input.now }
    ensures exact { Gives never (λ after. after) result
        (passed (choice_at many input.now at)) }
    ensures within { IfOk result (λ after.
        (at.place ≤ after.place) × (after.place ≤ length input.now)) }
{
    let (_, after) = take_choice(many, input, at)?;
    Ok(after)
}

/// Where the values of fields end.
#[cycle(skip)]
fn skip_fields(fields: &Fields, input: &[u8], at: Cursor) -> Result<Cursor, DatumRefusal>
    requires { at.place ≤ length input.now }
    ensures exact { Gives never (λ after. after) result
        (passed (fields_at (readers_of fields.now) [] input.now at)) }
    ensures within { IfOk result (λ after.
        (at.place ≤ after.place) × (after.place ≤ length input.now)) }
{
    let mut at = at;
    for field in fields.as_slice() {
        at = skip_datum(&field.schema, input, at)?;
    }
    Ok(at)
}

/// Where the number of a branch and its value end.
#[cycle(skip)]
fn skip_branch(branches: &Branches, input: &[u8], at: Cursor) -> Result<Cursor, DatumRefusal>
    requires { at.place ≤ length input.now }
    ensures exact { Gives never (λ after. after) result
        (passed (union_at branches.now input.now at)) }
    ensures within { IfOk result (λ after.
        (at.place ≤ after.place) × (after.place ≤ length input.now)) }
{
    let (choice, behind) = take_choice(branches.len(), input, at)?;
    skip_datum(&branches.as_slice()[choice as usize], input, behind)
}

/// Where so many items end.
#[cycle(skip)]
fn skip_items(schema: &Schema, count: u64, input: &[u8], at: Cursor) -> Result<Cursor, DatumRefusal>
    requires { at.place ≤ length input.now }
    ensures exact { Gives never (λ after. after) result
        (passed (items_at (datum_at schema.now) count [] input.now at)) }
    ensures within { IfOk result (λ after.
        (at.place ≤ after.place) × (after.place ≤ length input.now)) }
{
    let mut at = at;
    for _ in 0..count {
        let after = skip_datum(schema, input, at)?;
        // An item of no bytes, as a null: those behind it have none either.
        if after.place == at.place && after.items == at.items {
            return Ok(at);
        }
        at = after;
    }
    Ok(at)
}

/// Where the items of an array end.
#[cycle(skip)]
fn skip_array(schema: &Schema, input: &[u8], at: Cursor) -> Result<Cursor, DatumRefusal>
    requires { at.place ≤ length input.now }
    ensures exact { Gives never (λ after. after) result
        (passed (all_at (datum_at schema.now) input.now at)) }
    ensures within { IfOk result (λ after.
        (at.place ≤ after.place) × (after.place ≤ length input.now)) }
{
    let mut at = at;
    for _ in 0..input.len() + 1 {
        let head = take_head(input, at)?;
        if head.count == 0 {
            return Ok(head.first);
        }
        let after = skip_items(schema, head.count, input, head.first)?;
        check_size(&head, after)?;
        at = after;
    }
    Err(DatumRefusal::Short {
        place: at.place as u64,
    })
}

/// Where a key and its value end.
#[cycle(skip)]
fn skip_pair(schema: &Schema, input: &[u8], at: Cursor) -> Result<Cursor, DatumRefusal>
    requires { at.place ≤ length input.now }
    ensures exact { Gives never (λ after. after) result
        (passed (pair_at (datum_at schema.now) input.now at)) }
    ensures within { IfOk result (λ after.
        (at.place ≤ after.place) × (after.place ≤ length input.now)) }
{
    let (_, behind) = take_text(input, at)?;
    skip_datum(schema, input, behind)
}

/// Where so many pairs end.
#[cycle(skip)]
fn skip_pairs(schema: &Schema, count: u64, input: &[u8], at: Cursor) -> Result<Cursor, DatumRefusal>
    requires { at.place ≤ length input.now }
    ensures exact { Gives never (λ after. after) result
        (passed (items_at (pair_at (datum_at schema.now)) count [] input.now at)) }
    ensures within { IfOk result (λ after.
        (at.place ≤ after.place) × (after.place ≤ length input.now)) }
{
    let mut at = at;
    for _ in 0..count {
        at = skip_pair(schema, input, at)?;
    }
    Ok(at)
}

/// Where the pairs of a map end.
#[cycle(skip)]
fn skip_map(schema: &Schema, input: &[u8], at: Cursor) -> Result<Cursor, DatumRefusal>
    requires { at.place ≤ length input.now }
    ensures exact { Gives never (λ after. after) result
        (passed (all_at (pair_at (datum_at schema.now)) input.now at)) }
    ensures within { IfOk result (λ after.
        (at.place ≤ after.place) × (after.place ≤ length input.now)) }
{
    let mut at = at;
    for _ in 0..input.len() + 1 {
        let head = take_head(input, at)?;
        if head.count == 0 {
            return Ok(head.first);
        }
        let after = skip_pairs(schema, head.count, input, head.first)?;
        check_size(&head, after)?;
        at = after;
    }
    Err(DatumRefusal::Short {
        place: at.place as u64,
    })
}
