//! Which values a schema has.

ghost use Rattle.std.specs.Prelude.{◌≡◌, ◌==◌, ◌^◌, ℕ, List, map, length, true, not, nat_lt};
ghost use Rattle.std.specs.List.{list_all, sum};
ghost use Rattle.schema_tree.specs.declared.schema.Schema.{Schema as ASchema};
ghost use Rattle.datum_tree.specs.declared.datum.Datum.{out-Datum};
ghost use Rattle.datum_tree.specs.declared.datum.Datum.{Datum as Value};
ghost use Rattle.datum_tree.specs.Value.{items_in, most_items};
ghost use Rattle.datum_tree.specs.Spelling.{IsEncoding};
ghost use Rattle.datum_tree.specs.Counting.{items_left, pair_items};
ghost use Rattle.datum_tree.specs.Fits as spec;
ghost use Rattle.datum_tree.specs.Fits.{is_signed, is_place, fits_each, fits_schema, field_fits};
ghost use Rattle.datum_tree.specs.Kinds.{flag_in, number_in, raw_in, text_in, test_if};

use crate::datum::Datum;
use crate::kinds::{
    array_of, branch_of, fields_of, flag_of, is_null, number_of, pairs_of, raw_of, text_of,
};
use avro_wire::Text;
use schema_tree::{Field, Schema};

/// The most items of arrays and maps that a value may have.
const MOST_ITEMS: u64 = 16_777_216;

/// Whether the value is one of the schema, and has no more than 16,777,216 items of arrays and maps
/// in all. The place of a symbol or of a branch is spelled as an int, and so it is below 2^31. No
/// memory is taken. Avro spec, "Binary encoding".
pub fn fits(schema: &Schema, datum: &Datum) -> bool
    ensures exact { result ≡ spec.fits schema.now datum.now }
    // Every value that some bytes spell fits.
    ensures every { (bytes : List ℕ) → IsEncoding schema.now datum.now bytes → result ≡ true }
{
    fits_value(schema, datum) && has_few_items(datum)
}

/// A law, and no code: every value that some bytes spell, within the limit of items, fits.
pub fn encodings_fit()
    ensures { (schema : ASchema) (datum : Value) (bytes : List ℕ) → IsEncoding schema datum bytes
        → spec.fits schema datum ≡ true }
{}

/// Whether the value is one of the schema, whatever its items are counted at.
#[cycle(fit)]
#[tactic(auto, using(crate::specs::FitsEquations::fitted))]
fn fits_value(schema: &Schema, datum: &Datum) -> bool
    ensures { result ≡ fits_schema schema.now datum.now }
{
    match schema {
        Schema::Null => is_null(datum),
        Schema::Boolean => is_flag(datum),
        Schema::Int(_) => is_int(datum),
        Schema::Long(_) => is_long(datum),
        Schema::Enum { symbols, .. } => is_symbol(datum, symbols.get().len()),
        Schema::Float => is_sized(datum, 4),
        Schema::Double => is_sized(datum, 8),
        Schema::Fixed { size, .. } => is_sized(datum, *size as usize),
        Schema::Raw => is_raw(datum),
        Schema::Str => is_text(datum),
        Schema::Rec { fields, .. } => match fields_of(datum) {
            Some(values) => fits_fields(fields.get().as_slice(), values),
            None => false,
        },
        Schema::Array { items, .. } => match array_of(datum) {
            Some(values) => fits_items(items.get(), values),
            None => false,
        },
        Schema::Map { values, .. } => match pairs_of(datum) {
            Some(pairs) => fits_pairs(values.get(), pairs),
            None => false,
        },
        Schema::Union(branches) => match branch_of(datum) {
            Some((place, inside)) => is_low(place)
                && fits_branch(branches.as_slice(), place, inside),
            None => false,
        },
    }
}

/// Whether there is a value of each field, in their order.
#[cycle(fit)]
fn fits_fields(fields: &[Field], values: &[Datum]) -> bool
    ensures { result ≡ fits_each (map field_fits fields.now) values.now }
{
    if fields.len() != values.len() {
        return false;
    }
    let mut place = 0;
    while place < fields.len() {
        if !fits_value(&fields[place].schema, &values[place]) {
            return false;
        }
        place += 1;
    }
    true
}

/// Whether each item is a value of the schema.
#[cycle(fit)]
fn fits_items(items: &Schema, values: &[Datum]) -> bool
    ensures { result ≡ list_all (fits_schema items.now) values.now }
{
    for value in values {
        if !fits_value(items, value) {
            return false;
        }
    }
    true
}

/// Whether each pair has a value of the schema.
#[cycle(fit)]
fn fits_pairs(values: &Schema, pairs: &[(Text, Datum)]) -> bool
    ensures { result
        ≡ list_all (λ (pair : List ℕ × Value). fits_schema values.now pair.1) pairs.now }
{
    for pair in pairs {
        if !fits_value(values, &pair.1) {
            return false;
        }
    }
    true
}

/// Whether there is a branch at the place, and the value is one of it.
#[cycle(fit)]
fn fits_branch(branches: &[Schema], place: u32, inside: &Datum) -> bool
    ensures { result ≡ spec.fits_branch (map fits_schema branches.now) place inside.now }
{
    let place = place as usize;
    if place >= branches.len() {
        return false;
    }
    fits_value(&branches[place], inside)
}

/// Whether the place is an int, as it is encoded.
fn is_low(place: u32) -> bool
    ensures { result ≡ nat_lt place (2 ^ 31) }
{
    place < 2_147_483_648
}

/// Whether the value is a boolean.
fn is_flag(datum: &Datum) -> bool
    ensures { result ≡ test_if (λ flag. true) (flag_in (out-Datum datum.now)) }
{
    match flag_of(datum) {
        Some(_) => true,
        None => false,
    }
}

/// Whether the value is a number of 32 bits.
fn is_int(datum: &Datum) -> bool
    ensures { result ≡ test_if (is_signed 31) (number_in (out-Datum datum.now)) }
{
    match number_of(datum) {
        Some(number) => -2_147_483_648 <= number && number < 2_147_483_648,
        None => false,
    }
}

/// Whether the value is a number: each is one of 64 bits.
fn is_long(datum: &Datum) -> bool
    ensures { result ≡ test_if (is_signed 63) (number_in (out-Datum datum.now)) }
{
    match number_of(datum) {
        Some(_) => true,
        None => false,
    }
}

/// Whether the value is the place of one of `count`, and an int, as it is encoded.
fn is_symbol(datum: &Datum, many: usize) -> bool
    ensures { result ≡ test_if (is_place many) (number_in (out-Datum datum.now)) }
{
    match number_of(datum) {
        Some(number) => 0 <= number && (number as u64) < many as u64 && number < 2_147_483_648,
        None => false,
    }
}

/// Whether the value is so many bytes.
fn is_sized(datum: &Datum, size: usize) -> bool
    ensures { result ≡ test_if (λ bytes. length bytes == size) (raw_in (out-Datum datum.now)) }
{
    match raw_of(datum) {
        Some(bytes) => bytes.len() == size,
        None => false,
    }
}

/// Whether the value is bytes.
fn is_raw(datum: &Datum) -> bool
    ensures { result ≡ test_if (λ bytes. true) (raw_in (out-Datum datum.now)) }
{
    match raw_of(datum) {
        Some(_) => true,
        None => false,
    }
}

/// Whether the value is a text.
fn is_text(datum: &Datum) -> bool
    ensures { result ≡ test_if (λ text. true) (text_in (out-Datum datum.now)) }
{
    match text_of(datum) {
        Some(_) => true,
        None => false,
    }
}

/// Whether the value has no more items of arrays and maps than a value may have.
fn has_few_items(datum: &Datum) -> bool
    ensures { result ≡ not (nat_lt most_items (items_in datum.now)) }
{
    match take_items(datum, MOST_ITEMS) {
        Some(_) => true,
        None => false,
    }
}

/// What is left of `count` items once those of the value are taken. `None`: there are more.
#[cycle(take)]
fn take_items(datum: &Datum, left: u64) -> Option<u64>
    ensures { result ≡ items_left left (items_in datum.now) }
{
    match datum {
        Datum::Branch(_, inside) => take_items(inside.get(), left),
        Datum::Rec(values) => take_each(values.as_slice(), left),
        Datum::Array(values) => {
            let many = values.len() as u64;
            if many > left {
                return None;
            }
            take_each(values.as_slice(), left - many)
        }
        Datum::Map(pairs) => {
            let many = pairs.len() as u64;
            if many > left {
                return None;
            }
            take_pairs(pairs.as_slice(), left - many)
        }
        _ => Some(left),
    }
}

/// What is left of `count` items once those of each value are taken. `None`: there are more.
#[cycle(take)]
fn take_each(values: &[Datum], left: u64) -> Option<u64>
    ensures { result ≡ items_left left (sum (map items_in values.now)) }
{
    let mut rest = left;
    for value in values {
        match take_items(value, rest) {
            Some(after) => rest = after,
            None => return None,
        }
    }
    Some(rest)
}

/// What is left of `count` items once those of each pair's value are taken. `None`: there are more.
#[cycle(take)]
fn take_pairs(pairs: &[(Text, Datum)], left: u64) -> Option<u64>
    ensures { result ≡ items_left left (sum (map pair_items pairs.now)) }
{
    let mut rest = left;
    for pair in pairs {
        match take_items(&pair.1, rest) {
            Some(after) => rest = after,
            None => return None,
        }
    }
    Some(rest)
}
