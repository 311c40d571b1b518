//! One record, borrowed from its bytes.

ghost use Rattle.std.specs.Prelude.{◌≡◌, ◌≤◌, [], ◌∷◌, List, length, drop, map, replicate, true, Ok, IfOk, is_ok};
ghost use Rattle.row_types.specs.declared.cell_ref.CellRef.TheVariants.{Null};
ghost use Rattle.words.specs.Reading.{Gives, never};
ghost use Rattle.schema_tree.specs.declared.schema.Schema.{Schema as ASchema};
ghost use Rattle.row_types.specs.CellRef.{lent_cell};
ghost use Rattle.fields.specs.Flat.{leaf_readers};
ghost use Rattle.datum_reading.specs.Reading.{fields_at, datum_at};
ghost use Rattle.datum_reading.specs.Readers.{passed};
ghost use Rattle.fields.specs.declared.wanted.Wanted.{Wanted as AWanted};
ghost use Rattle.avro_cells.specs.Form.{form_of};
ghost use Rattle.fields.specs.Wanted.{fields_of as fields_in, opens, source, check_nulls};
ghost use Rattle.fields.specs.Order.{AreInOrder};
ghost use Rattle.fields.specs.Record.{datum_refusal, record_at, forms_of, field_as, fields_as};
ghost use Rattle.fields.specs.Record.{value_as, pick, RecordAgrees, IsLayout, IsWide};

use crate::layout::Layout;
use crate::leaf::Leaf;
use crate::refusal::FieldRefusal;
use crate::wanted::Wanted;
use avro_cells::{Form, take_cell, take_known_cell};
use datum_reading::{Cursor, DatumRefusal, reading_agrees, skip};
use row_types::CellRef;
use schema_tree::Schema;
use std::alloc::{AllocError, Global};

/// The cells of one record, borrowed from its bytes.
#[derive(Drop)]
pub struct Cells<'a> {
    /// Those of the fields whose values take bytes, in the order of the record.
    all: Vec<CellRef<'a>>,
    /// Those that are wanted, in the order in which they are.
    pub wanted: Vec<CellRef<'a>>,
}

/// Nulls for the records of a layout.
pub fn nulls<'a>(alloc: Global, layout: &Layout) -> Result<Cells<'a>, AllocError>
    ensures all { IfOk result (λ cells. length cells.all.items ≡ length layout.now.forms.items) }
    ensures wanted { IfOk result (λ cells.
        length cells.wanted.items ≡ length layout.now.sources.items) }
    ensures nulls { IfOk result (λ cells.
        cells.wanted.items ≡ replicate (length layout.now.sources.items) Null) }
{
    Ok(Cells {
        all: some_nulls(alloc, layout.forms.len())?,
        wanted: some_nulls(alloc, layout.sources.len())?,
    })
}

/// `count` nulls.
fn some_nulls<'a>(alloc: Global, count: usize) -> Result<Vec<CellRef<'a>>, AllocError>
    ensures many { IfOk result (λ cells. length cells.items ≡ count) }
    ensures nulls { IfOk result (λ cells. cells.items ≡ replicate count Null) }
{
    vec![in alloc; CellRef::Null; count]
}

/// Takes the record at `place` into `cells`, and answers the place after it. A value that can't be
/// read is refused first, then a null in a required field.
#[tactic(auto, unfolding(crate::specs::Record::record_at))]
pub fn take_record<'a>(
    layout: &Layout,
    input: &'a [u8],
    place: usize,
    cells: &mut Cells<'a>,
) -> Result<usize, FieldRefusal>
    requires layout { IsLayout layout.now }
    requires wide { IsWide layout.now cells.old.all.items cells.old.wanted.items }
    requires start { place ≤ length input.now }
    ensures exact { Gives never (λ after. (map lent_cell cells.new.wanted.items, after)) result
        (record_at layout.now.schema layout.now.wanted.items input.now place) }
    ensures wide { IsWide layout.now cells.new.all.items cells.new.wanted.items }
    ensures within { IfOk result (λ after. (place ≤ after) × (after ≤ length input.now)) }
{
    let start = Cursor { place, items: 0 };
    let after = match take_all(layout, input, start, &mut cells.all) {
        Ok(after) => after,
        Err(refusal) => return Err(refusal_of(refusal)),
    };
    arrange(&layout.sources, &cells.all, &mut cells.wanted);
    check_nulls(&layout.wanted, &cells.wanted)?;
    Ok(after.place)
}

/// Takes the record at `place` into `cells`, and answers the place after it. The record has to be
/// right: `pass_record` or `take_record` accepted it.
pub fn take_known_record<'a>(
    layout: &Layout,
    input: &'a [u8],
    place: usize,
    cells: &mut Cells<'a>,
) -> usize
    requires layout { IsLayout layout.now }
    requires wide { IsWide layout.now cells.old.all.items cells.old.wanted.items }
    requires start { place ≤ length input.now }
    requires known { is_ok (record_at layout.now.schema layout.now.wanted.items input.now place)
        ≡ true }
    ensures exact { record_at layout.now.schema layout.now.wanted.items input.now place
        ≡ Ok (map lent_cell cells.new.wanted.items, result) }
    ensures wide { IsWide layout.now cells.new.all.items cells.new.wanted.items }
    ensures within { (place ≤ result) × (result ≤ length input.now) }
{
    let start = Cursor { place, items: 0 };
    if let Some(missing) = layout.missing {
        return take_in_order(layout, missing, input, start, &mut cells.wanted).place;
    }
    let after = take_known_all(layout, input, start, &mut cells.all);
    arrange(&layout.sources, &cells.all, &mut cells.wanted);
    after.place
}

/// A law, without code: what is read is stored so, and what is stored so is read.
pub fn record_agrees()
    ensures { (schema : ASchema) (wanted : List AWanted) → RecordAgrees schema wanted }
{
    reading_agrees();
}

/// Takes the cells of all fields whose values take bytes.
fn take_all<'a>(
    layout: &Layout,
    input: &'a [u8],
    at: Cursor,
    all: &mut Vec<CellRef<'a>>,
) -> Result<Cursor, DatumRefusal>
    requires layout { IsLayout layout.now }
    requires width { length all.old.items ≡ length layout.now.forms.items }
    requires start { at.place ≤ length input.now }
    ensures exact { Gives never (λ after. (map lent_cell all.new.items, after)) result
        (value_as (opens layout.now.wanted.items) (fields_in layout.now.schema) (datum_at layout.now.schema input.now at)) }
    ensures width { length all.new.items ≡ length all.old.items }
    ensures within { IfOk result (λ after.
        (at.place ≤ after.place) × (after.place ≤ length input.now)) }
{
    match &layout.schema {
        Schema::Rec { .. } => take_fields(&layout.leaves, &layout.forms, input, at, all),
        schema => skip(schema, input, at),
    }
}

/// Takes the cell of each field, in order.
fn take_fields<'a>(
    leaves: &[Leaf],
    forms: &[Option<Form>],
    input: &'a [u8],
    at: Cursor,
    all: &mut Vec<CellRef<'a>>,
) -> Result<Cursor, DatumRefusal>
    requires forms { forms.now ≡ forms_of leaves.now }
    requires width { length all.old.items ≡ length forms.now }
    requires start { at.place ≤ length input.now }
    ensures exact { Gives never (λ after. (map lent_cell all.new.items, after)) result
        (fields_as leaves.now
        (fields_at (leaf_readers leaves.now) [] input.now at)) }
    ensures width { length all.new.items ≡ length all.old.items }
    ensures within { IfOk result (λ after.
        (at.place ≤ after.place) × (after.place ≤ length input.now)) }
{
    let mut at = at;
    for place in 0..leaves.len() {
        let (cell, after) = take_field(forms[place], &leaves[place].schema, input, at)?;
        all[place] = cell;
        at = after;
    }
    Ok(at)
}

/// Takes the cell of one field.
#[inline(always)]
pub fn take_field<'a>(
    form: Option<Form>,
    schema: &Schema,
    input: &'a [u8],
    at: Cursor,
) -> Result<(CellRef<'a>, Cursor), DatumRefusal>
    requires form { form ≡ form_of schema.now }
    requires start { at.place ≤ length input.now }
    ensures exact { Gives never (λ taken. (lent_cell taken.0, taken.1)) result
        (field_as form (datum_at schema.now input.now at)) }
    ensures within { IfOk result (λ taken.
        (at.place ≤ taken.1.place) × (taken.1.place ≤ length input.now)) }
{
    match form {
        Some(form) => take_cell(form, input, at),
        None => {
            let after = skip(schema, input, at)?;
            Ok((CellRef::Null, after))
        }
    }
}

/// Takes the record, which was checked, into the cells that are wanted, of which it has all but the
/// first `missing` in its order.
fn take_in_order<'a>(
    layout: &Layout,
    missing: usize,
    input: &'a [u8],
    at: Cursor,
    wanted: &mut [CellRef<'a>],
) -> Cursor
    requires layout { IsLayout layout.now }
    requires order { AreInOrder layout.now.sources.items (length layout.now.leaves.items) missing }
    requires width { length wanted.old ≡ length layout.now.sources.items }
    requires start { at.place ≤ length input.now }
    requires known { is_ok (datum_at layout.now.schema input.now at) ≡ true }
    ensures exact { value_as (opens layout.now.wanted.items) (fields_in layout.now.schema)
        (datum_at layout.now.schema input.now at)
        ≡ Ok (map lent_cell (drop missing wanted.new), result) }
    ensures arranged { map lent_cell wanted.new
        ≡ map (pick (map lent_cell (drop missing wanted.new))) layout.now.sources.items }
    ensures width { length wanted.new ≡ length wanted.old }
    ensures within { (at.place ≤ result.place) × (result.place ≤ length input.now) }
{
    clear(&mut wanted[..missing]);
    take_known_all(layout, input, at, &mut wanted[missing..])
}

/// Makes all of them null.
fn clear(cells: &mut [CellRef<'_>])
    ensures { cells.new ≡ replicate (length cells.old) Null }
{
    for place in 0..cells.len() {
        cells[place] = CellRef::Null;
    }
}

/// The same as `take_all` for a record that was checked.
fn take_known_all<'a>(
    layout: &Layout,
    input: &'a [u8],
    at: Cursor,
    all: &mut [CellRef<'a>],
) -> Cursor
    requires layout { IsLayout layout.now }
    requires width { length all.old ≡ length layout.now.forms.items }
    requires start { at.place ≤ length input.now }
    requires known { is_ok (datum_at layout.now.schema input.now at) ≡ true }
    ensures exact { value_as (opens layout.now.wanted.items) (fields_in layout.now.schema)
        (datum_at layout.now.schema input.now at) ≡ Ok (map lent_cell all.new, result) }
    ensures width { length all.new ≡ length all.old }
    ensures within { (at.place ≤ result.place) × (result.place ≤ length input.now) }
{
    match &layout.schema {
        Schema::Rec { .. } => take_known_fields(&layout.leaves, &layout.forms, input, at, all),
        schema => skip_known(schema, input, at),
    }
}

/// The same as `take_fields` for fields that were checked.
fn take_known_fields<'a>(
    leaves: &[Leaf],
    forms: &[Option<Form>],
    input: &'a [u8],
    at: Cursor,
    all: &mut [CellRef<'a>],
) -> Cursor
    requires forms { forms.now ≡ forms_of leaves.now }
    requires width { length all.old ≡ length forms.now }
    requires start { at.place ≤ length input.now }
    requires known { is_ok (fields_at (leaf_readers leaves.now) [] input.now at) ≡ true }
    ensures exact { fields_as leaves.now (fields_at (leaf_readers leaves.now) [] input.now at)
        ≡ Ok (map lent_cell all.new, result) }
    ensures width { length all.new ≡ length all.old }
    ensures within { (at.place ≤ result.place) × (result.place ≤ length input.now) }
{
    let mut at = at;
    for place in 0..leaves.len() {
        let (cell, after) = take_known_field(forms[place], &leaves[place].schema, input, at);
        all[place] = cell;
        at = after;
    }
    at
}

/// The same as `take_field` for a field that was checked.
#[inline(always)]
fn take_known_field<'a>(
    form: Option<Form>,
    schema: &Schema,
    input: &'a [u8],
    at: Cursor,
) -> (CellRef<'a>, Cursor)
    requires form { form ≡ form_of schema.now }
    requires start { at.place ≤ length input.now }
    requires known { is_ok (datum_at schema.now input.now at) ≡ true }
    ensures exact { field_as form (datum_at schema.now input.now at)
        ≡ Ok (lent_cell result.0, result.1) }
    ensures within { (at.place ≤ result.1.place) × (result.1.place ≤ length input.now) }
{
    match form {
        Some(form) => take_known_cell(form, input, at),
        None => (CellRef::Null, skip_known(schema, input, at)),
    }
}

/// Where a value ends that was checked.
fn skip_known(schema: &Schema, input: &[u8], at: Cursor) -> Cursor
    requires start { at.place ≤ length input.now }
    requires known { is_ok (datum_at schema.now input.now at) ≡ true }
    ensures exact { passed (datum_at schema.now input.now at) ≡ Ok result }
    ensures within { (at.place ≤ result.place) × (result.place ≤ length input.now) }
{
    match skip(schema, input, at) {
        Ok(after) => after,
        Err(_) => unreachable!(),
    }
}

/// Puts the cells that are wanted in their order.
fn arrange<'a>(sources: &Vec<Option<usize>>, all: &Vec<CellRef<'a>>, wanted: &mut Vec<CellRef<'a>>)
    requires width { length wanted.old.items ≡ length sources.now.items }
    ensures arranged { map lent_cell wanted.new.items
        ≡ map (pick (map lent_cell all.now.items)) sources.now.items }
    ensures width { length wanted.new.items ≡ length wanted.old.items }
{
    for place in 0..sources.len() {
        wanted[place] = picked(all, sources[place]);
    }
}

/// The cell at the place; null if there is none.
fn picked<'a>(all: &[CellRef<'a>], source: Option<usize>) -> CellRef<'a>
    ensures { lent_cell result ≡ pick (map lent_cell all.now) source }
{
    match source {
        Some(place) if place < all.len() => same(&all[place]),
        _ => CellRef::Null,
    }
}

/// The same cell, put together from its parts. It was written part by part just before: a copy of
/// the whole would have to wait for all of them.
#[inline(always)]
fn same<'a>(cell: &CellRef<'a>) -> CellRef<'a>
    ensures { lent_cell result ≡ lent_cell cell.now }
{
    match *cell {
        CellRef::Null => CellRef::Null,
        CellRef::Flag(flag) => CellRef::Flag(flag),
        CellRef::Num(number) => CellRef::Num(number),
        CellRef::Text(text) => CellRef::Text(text),
        CellRef::Bytes(bytes) => CellRef::Bytes(bytes),
    }
}

/// Whether no required field has a null.
#[tactic(auto, using(crate::proofs::NullLemmas::null_steps))]
fn check_nulls(wanted: &[Wanted], cells: &Vec<CellRef<'_>>) -> Result<(), FieldRefusal>
    requires { length cells.now.items ≡ length wanted.now }
    ensures { result ≡ check_nulls wanted.now (map lent_cell cells.now.items) }
{
    for index in 0..wanted.len() {
        check_null(&wanted[index], cells[index])?;
    }
    Ok(())
}

/// Whether the cell is no null where one is required.
#[tactic(auto, unfolding(crate::specs::Wanted::check_nulls))]
fn check_null(wanted: &Wanted, cell: CellRef<'_>) -> Result<(), FieldRefusal>
    ensures { result ≡ check_nulls (wanted.now ∷ []) (lent_cell cell.entry ∷ []) }
{
    if wanted.required && cell.is_null() {
        return Err(FieldRefusal::MissingField { id: wanted.id });
    }
    Ok(())
}

/// What a refusal of a record's bytes is called.
pub fn refusal_of(refusal: DatumRefusal) -> FieldRefusal
    ensures { result ≡ datum_refusal refusal }
{
    match refusal {
        DatumRefusal::Memory => FieldRefusal::Memory,
        refusal => FieldRefusal::NoValue(refusal),
    }
}
