//! The bytes of a value.

ghost use Rattle.std.specs.Prelude.{◌≡◌, true, ℕ, List, [], ◌∷◌, ◌++◌, map, pos, IfSome, OnOk, OnErr};
ghost use Rattle.avro_wire.specs.Writing.{number_text, bytes_text, list_text};
ghost use Rattle.datum_tree.specs.declared.datum.Datum.{out-Datum};
ghost use Rattle.datum_tree.specs.Spelling.{flag_byte, IsEncoding};
ghost use Rattle.datum_writing.specs.Canonical.{each_text, pair_text, branch_text, canonical, field_canonical};
ghost use Rattle.datum_tree.specs.Kinds.{flag_in, number_in, raw_in, text_in, text_if};
ghost use Rattle.datum_tree.specs.Fits.{fits};
ghost use Rattle.datum_writing.specs.Spelled.{IsSpelled, IsSized, IsSizedText, EachIsSpelled, PairIsSpelled, AllAreSpelled, BranchIsSpelled};
ghost use Rattle.datum_writing.specs.Writing.{IsFront};

use avro_wire::{Text, put_bytes, put_long};
use datum_tree::{
    Datum, array_of, branch_of, fields_of, flag_of, number_of, pairs_of, raw_of, text_of,
};
use schema_tree::{Field, Schema};
use std::alloc::AllocError;

/// Appends the value's bytes to `out`. An `Err` says that memory ran out, and leaves `out` as it
/// was. Only of a value that fits is it said that the bytes spell it, and it isn't asked whether it
/// does: `fits` tells. Of one that is none of the schema, a part of another kind than the schema's
/// is put as nothing, and so is a value without its field, a field without its value, and a value
/// of a branch that isn't there. Avro spec, "Binary encoding".
pub fn encode(schema: &Schema, datum: &Datum, out: &mut Vec<u8>) -> Result<(), AllocError>
    ensures ok { OnOk result (out.new.items ≡ out.old.items ++ canonical schema.now datum.now) }
    ensures unchanged { OnErr result (out.new.items ≡ out.old.items) }
    // The bytes spell the value, where it fits.
    ensures spelled { fits schema.now datum.now ≡ true
        → OnOk result (IsEncoding schema.now datum.now (canonical schema.now datum.now)) }
{
    let before = out.len();
    if let Err(refused) = put_value(schema, datum, out) {
        out.truncate(before);
        return Err(refused);
    }
    Ok(())
}

/// Appends a value. An `Err` says that memory ran out; `out` may have some of the bytes.
#[cycle(put)]
#[tactic(auto, using(crate::proofs::WritingEquations::written))]
fn put_value(schema: &Schema, datum: &Datum, out: &mut Vec<u8>) -> Result<(), AllocError>
    ensures ok { OnOk result (out.new.items ≡ out.old.items ++ canonical schema.now datum.now) }
    ensures front { OnErr result (IsFront out.old.items out.new.items) }
    ensures spelled { OnOk result (IsSpelled schema.now datum.now) }
{
    match schema {
        Schema::Null => Ok(()),
        Schema::Boolean => put_flag(datum, out),
        Schema::Int(_) => put_number(datum, out),
        Schema::Long(_) => put_number(datum, out),
        Schema::Enum { .. } => put_number(datum, out),
        Schema::Float => put_raw(datum, out),
        Schema::Double => put_raw(datum, out),
        Schema::Fixed { .. } => put_raw(datum, out),
        Schema::Raw => put_sized(datum, out),
        Schema::Str => put_text(datum, out),
        Schema::Rec { fields, .. } => match fields_of(datum) {
            Some(values) => put_fields(fields.get().as_slice(), values, out),
            None => Ok(()),
        },
        Schema::Array { items, .. } => match array_of(datum) {
            Some(values) => put_array(items.get(), values, out),
            None => Ok(()),
        },
        Schema::Map { values, .. } => match pairs_of(datum) {
            Some(pairs) => put_map(values.get(), pairs, out),
            None => Ok(()),
        },
        Schema::Union(branches) => match branch_of(datum) {
            Some((place, inside)) => put_branch(branches.as_slice(), place, inside, out),
            None => Ok(()),
        },
    }
}

/// Puts the fields' values, in order.
#[cycle(put)]
fn put_fields(fields: &[Field], values: &[Datum], out: &mut Vec<u8>) -> Result<(), AllocError>
    ensures ok { OnOk result (out.new.items
        ≡ out.old.items ++ each_text (map field_canonical fields.now) values.now) }
    ensures front { OnErr result (IsFront out.old.items out.new.items) }
    ensures spelled { OnOk result (EachIsSpelled fields.now values.now) }
{
    let mut place = 0;
    while place < fields.len() && place < values.len() {
        put_value(&fields[place].schema, &values[place], out)?;
        place += 1;
    }
    Ok(())
}

/// Puts the items of an array in one block, and the count 0.
#[cycle(put)]
fn put_array(items: &Schema, values: &[Datum], out: &mut Vec<u8>) -> Result<(), AllocError>
    ensures ok { OnOk result (out.new.items
        ≡ out.old.items ++ list_text (canonical items.now) values.now) }
    ensures front { OnErr result (IsFront out.old.items out.new.items) }
    ensures spelled { OnOk result (AllAreSpelled (IsSpelled items.now) values.now) }
{
    if values.is_empty() {
        return put_long(out, 0);
    }
    put_long(out, values.len() as i64)?;
    for value in values {
        put_value(items, value, out)?;
    }
    put_long(out, 0)
}

/// Puts the pairs of a map in one block, and the count 0.
#[cycle(put)]
fn put_map(values: &Schema, pairs: &[(Text, Datum)], out: &mut Vec<u8>) -> Result<(), AllocError>
    ensures ok { OnOk result (out.new.items
        ≡ out.old.items ++ list_text (pair_text (canonical values.now)) pairs.now) }
    ensures front { OnErr result (IsFront out.old.items out.new.items) }
    ensures spelled { OnOk result (AllAreSpelled (PairIsSpelled values.now) pairs.now) }
{
    if pairs.is_empty() {
        return put_long(out, 0);
    }
    put_long(out, pairs.len() as i64)?;
    for pair in pairs {
        put_bytes(out, pair.0.as_str().as_bytes())?;
        put_value(values, &pair.1, out)?;
    }
    put_long(out, 0)
}

/// Puts the place of a branch, and a value of it.
#[cycle(put)]
fn put_branch(
    branches: &[Schema],
    place: u32,
    inside: &Datum,
    out: &mut Vec<u8>,
) -> Result<(), AllocError>
    ensures ok { OnOk result (out.new.items
        ≡ out.old.items
        ++ (number_text (pos place) ++ branch_text (map canonical branches.now) place inside.now)) }
    ensures front { OnErr result (IsFront out.old.items out.new.items) }
    ensures spelled { OnOk result (BranchIsSpelled branches.now place inside.now) }
{
    put_place(place, out)?;
    let place = place as usize;
    if place >= branches.len() {
        return Ok(());
    }
    put_value(&branches[place], inside, out)
}

/// Puts the place of a branch.
fn put_place(place: u32, out: &mut Vec<u8>) -> Result<(), AllocError>
    ensures ok { OnOk result (out.new.items ≡ out.old.items ++ number_text (pos place)) }
    ensures unchanged { OnErr result (out.new.items ≡ out.old.items) }
{
    put_long(out, i64::from(place))
}

/// Puts a boolean, if it is one.
fn put_flag(datum: &Datum, out: &mut Vec<u8>) -> Result<(), AllocError>
    ensures ok { OnOk result (out.new.items ≡ out.old.items
        ++ text_if (λ flag. flag_byte flag ∷ []) (flag_in (out-Datum datum.now))) }
    ensures unchanged { OnErr result (out.new.items ≡ out.old.items) }
{
    match flag_of(datum) {
        Some(flag) => out.extend_from_slice(&[u8::from(flag)]),
        None => Ok(()),
    }
}

/// Puts a number, if it is one.
fn put_number(datum: &Datum, out: &mut Vec<u8>) -> Result<(), AllocError>
    ensures ok { OnOk result (out.new.items ≡ out.old.items
        ++ text_if number_text (number_in (out-Datum datum.now))) }
    ensures unchanged { OnErr result (out.new.items ≡ out.old.items) }
{
    match number_of(datum) {
        Some(number) => put_long(out, number),
        None => Ok(()),
    }
}

/// Puts bytes as they are, if the value is bytes.
fn put_raw(datum: &Datum, out: &mut Vec<u8>) -> Result<(), AllocError>
    ensures ok { OnOk result (out.new.items ≡ out.old.items
        ++ text_if (λ bytes. bytes) (raw_in (out-Datum datum.now))) }
    ensures unchanged { OnErr result (out.new.items ≡ out.old.items) }
{
    match raw_of(datum) {
        Some(bytes) => out.extend_from_slice(bytes),
        None => Ok(()),
    }
}

/// Puts bytes after their length, if the value is bytes.
fn put_sized(datum: &Datum, out: &mut Vec<u8>) -> Result<(), AllocError>
    ensures ok { OnOk result (out.new.items ≡ out.old.items
        ++ text_if bytes_text (raw_in (out-Datum datum.now))) }
    ensures unchanged { OnErr result (out.new.items ≡ out.old.items) }
    ensures sized { IfSome (raw_in (out-Datum datum.now)) IsSized }
{
    match raw_of(datum) {
        Some(bytes) => put_bytes(out, bytes),
        None => Ok(()),
    }
}

/// Puts a text after its length, if the value is one.
fn put_text(datum: &Datum, out: &mut Vec<u8>) -> Result<(), AllocError>
    ensures ok { OnOk result (out.new.items ≡ out.old.items
        ++ text_if bytes_text (text_in (out-Datum datum.now))) }
    ensures unchanged { OnErr result (out.new.items ≡ out.old.items) }
    ensures sized { IfSome (text_in (out-Datum datum.now)) IsSizedText }
{
    match text_of(datum) {
        Some(text) => put_bytes(out, text.as_str().as_bytes()),
        None => Ok(()),
    }
}
