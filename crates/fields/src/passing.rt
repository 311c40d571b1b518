//! One record, checked without its cells.

ghost use Rattle.std.specs.Prelude.{◌≡◌, ◌≤◌, [], ◌∷◌, length, map, IfOk};
ghost use Rattle.words.specs.Reading.{Gives, never};
ghost use Rattle.datum_reading.specs.Reading.{fields_at, datum_at};
ghost use Rattle.fields.specs.Flat.{leaf_readers};
ghost use Rattle.avro_cells.specs.Form.{form_of};
ghost use Rattle.fields.specs.Wanted.{fields_of as fields_in, opens};
ghost use Rattle.fields.specs.Nulls.{with_null, refused_at};
ghost use Rattle.fields.specs.Record.{forms_of, field_as, fields_as, value_as, null_as};
ghost use Rattle.fields.specs.Record.{first_as, passed_at, IsLayout};

use crate::layout::Layout;
use crate::leaf::Leaf;
use crate::refusal::FieldRefusal;
use crate::taking::{refusal_of, take_field};
use crate::wanted::Wanted;
use avro_cells::Form;
use datum_reading::{Cursor, DatumRefusal, skip};
use schema_tree::Schema;

/// The place after the record at `place`, with the refusals of `take_record`. It builds nothing.
pub fn pass_record(layout: &Layout, input: &[u8], place: usize) -> Result<usize, FieldRefusal>
    requires layout { IsLayout layout.now }
    requires start { place ≤ length input.now }
    ensures exact { Gives never (λ after. after) result
        (passed_at layout.now.schema layout.now.wanted.items input.now place) }
    ensures within { IfOk result (λ after. (place ≤ after) × (after ≤ length input.now)) }
{
    let start = Cursor { place, items: 0 };
    let (first, after) = match pass_all(layout, input, start) {
        Ok(passed) => passed,
        Err(refusal) => return Err(refusal_of(refusal)),
    };
    refused_at(&layout.wanted, first)?;
    Ok(after.place)
}

/// Refuses the required field at `place` of what is wanted; after the last one there is none.
#[inline(always)]
fn refused_at(wanted: &[Wanted], place: usize) -> Result<(), FieldRefusal>
    ensures { result ≡ refused_at wanted.now place }
{
    match wanted.get(place) {
        Some(w) => Err(FieldRefusal::MissingField { id: w.id }),
        None => Ok(()),
    }
}

/// Passes all fields, and answers the place of the first required one that is null.
fn pass_all(layout: &Layout, input: &[u8], at: Cursor) -> Result<(usize, Cursor), DatumRefusal>
    requires layout { IsLayout layout.now }
    requires start { at.place ≤ length input.now }
    ensures exact { Gives never (λ passed. passed) result
        (first_as (length layout.now.wanted.items) layout.now.needed.items
        (value_as (opens layout.now.wanted.items) (fields_in layout.now.schema)
        (datum_at layout.now.schema input.now at))) }
    ensures within { IfOk result (λ passed.
        (at.place ≤ passed.1.place) × (passed.1.place ≤ length input.now)) }
{
    match &layout.schema {
        Schema::Rec { .. } => pass_fields(
            behind_all(&layout.wanted),
            &layout.leaves,
            &layout.forms,
            &layout.needed,
            input,
            at,
        ),
        schema => {
            let after = skip(schema, input, at)?;
            Ok((behind_all(&layout.wanted), after))
        }
    }
}

/// The place after all wanted fields, if there is none.
#[inline(always)]
fn behind_all(wanted: &Vec<Wanted>) -> usize
    ensures { result ≡ length wanted.now.items }
{
    wanted.len()
}

/// Passes each field, in order. `none` is the answer if no required one is null.
fn pass_fields(
    none: usize,
    leaves: &[Leaf],
    forms: &[Option<Form>],
    needed: &[usize],
    input: &[u8],
    at: Cursor,
) -> Result<(usize, Cursor), DatumRefusal>
    requires forms { forms.now ≡ forms_of leaves.now }
    requires width { length forms.now ≡ length leaves.now }
    requires needed { length needed.now ≡ length leaves.now }
    requires start { at.place ≤ length input.now }
    ensures exact { Gives never (λ passed. passed) result
        (first_as none needed.now (fields_as leaves.now
        (fields_at (leaf_readers leaves.now) [] input.now at))) }
    ensures within { IfOk result (λ passed.
        (at.place ≤ passed.1.place) × (passed.1.place ≤ length input.now)) }
{
    let mut at = at;
    let mut first = none;
    for place in 0..leaves.len() {
        let (null, after) = pass_field(forms[place], &leaves[place].schema, input, at)?;
        first = with_null(null, needed[place], first);
        at = after;
    }
    Ok((first, at))
}

/// Passes one field, and answers whether it is null.
#[inline(always)]
fn pass_field(
    form: Option<Form>,
    schema: &Schema,
    input: &[u8],
    at: Cursor,
) -> Result<(bool, Cursor), DatumRefusal>
    requires form { form ≡ form_of schema.now }
    requires start { at.place ≤ length input.now }
    ensures exact { Gives never (λ passed. passed) result
        (null_as (field_as form (datum_at schema.now input.now at))) }
    ensures within { IfOk result (λ passed.
        (at.place ≤ passed.1.place) × (passed.1.place ≤ length input.now)) }
{
    let (cell, after) = take_field(form, schema, input, at)?;
    Ok((cell.is_null(), after))
}

/// The first required field that is null, once one field more is read.
#[inline(always)]
fn with_null(null: bool, needed: usize, first: usize) -> usize
    ensures { result ≡ with_null null needed first }
{
    if null && needed < first {
        needed
    } else {
        first
    }
}
