//! How the cells of a type are read.

ghost use Rattle.std.specs.Prelude.{◌≡◌, ◌≤◌, true, length, Ok, IfOk, is_ok};
ghost use Rattle.words.specs.Reading.{Gives, never};
ghost use Rattle.schema_tree.specs.declared.schema.Schema.{out-Schema};
ghost use Rattle.row_types.specs.CellRef.{lent_cell};
ghost use Rattle.std.specs.declared.option.Option.TheVariants.{Some};
ghost use Rattle.schema_tree.specs.declared.schema.Schema.{Schema as ASchema};
ghost use Rattle.avro_cells.specs.Form as spec;
ghost use Rattle.avro_cells.specs.Form.{null_branch, form_of, primitive_at, form_at, cell_read, IsCellThere};

use crate::kind::{Primitive, is_null, nullable, primitive_of};
use datum_reading::{
    Cursor, DatumRefusal, pass_sized, take_choice, take_flag, take_int_at, take_known_text,
    take_long_at, take_text,
};
use row_types::CellRef;
use schema_tree::Schema;

/// How the cells of a type are read.
#[derive(Clone, Copy)]
pub struct Form {
    pub primitive: Primitive,
    /// Which of two branches is null, counted from 0. None: the type is no union.
    pub null_branch: Option<u32>,
}

/// How the cells of the type are read; None: it holds none.
pub fn form_of(schema: &Schema) -> Option<Form>
    ensures { result ≡ form_of schema.now }
{
    let found = nullable(schema)?;
    let primitive = primitive_of(found.schema)?;
    Some(Form {
        primitive,
        null_branch: null_branch(schema),
    })
}

/// The cell at the cursor, borrowed from the input, and the cursor after it. Avro spec, "Unions".
#[inline(always)]
pub fn take_cell<'a>(
    form: Form,
    input: &'a [u8],
    at: Cursor,
) -> Result<(CellRef<'a>, Cursor), DatumRefusal>
    requires { at.place ≤ length input.now }
    ensures exact { Gives never (λ taken. (lent_cell taken.0, taken.1)) result
        (form_at form input.now at) }
    // It is the cell of the value that is read under each schema of this form.
    ensures reads { (schema : ASchema) → spec.form_of schema ≡ Some form
        → Gives never (λ taken. (lent_cell taken.0, taken.1)) result
        (cell_read schema input.now at) }
    ensures within { IfOk result (λ taken.
        (at.place ≤ taken.1.place) × (taken.1.place ≤ length input.now)) }
{
    take_form(form, input, at)
}

/// The cell at the cursor, by the form alone.
#[inline(always)]
fn take_form<'a>(
    form: Form,
    input: &'a [u8],
    at: Cursor,
) -> Result<(CellRef<'a>, Cursor), DatumRefusal>
    requires { at.place ≤ length input.now }
    ensures exact { Gives never (λ taken. (lent_cell taken.0, taken.1)) result
        (form_at form input.now at) }
    ensures within { IfOk result (λ taken.
        (at.place ≤ taken.1.place) × (taken.1.place ≤ length input.now)) }
{
    let Some(null_branch) = form.null_branch else {
        return take_primitive(form.primitive, input, at);
    };
    let (branch, behind) = take_choice(2, input, at)?;
    if branch == null_branch {
        return Ok((CellRef::Null, behind));
    }
    take_primitive(form.primitive, input, behind)
}

/// The same of a primitive type.
#[inline(always)]
#[tactic(auto, using(crate::proofs::FormLemmas::cells_read))]
fn take_primitive<'a>(
    primitive: Primitive,
    input: &'a [u8],
    at: Cursor,
) -> Result<(CellRef<'a>, Cursor), DatumRefusal>
    requires { at.place ≤ length input.now }
    ensures exact { Gives never (λ taken. (lent_cell taken.0, taken.1)) result
        (primitive_at primitive input.now at) }
    ensures within { IfOk result (λ taken.
        (at.place ≤ taken.1.place) × (taken.1.place ≤ length input.now)) }
{
    match primitive {
        Primitive::Boolean => {
            let (flag, after) = take_flag(input, at)?;
            Ok((CellRef::Flag(flag), after))
        }
        Primitive::Int => {
            let (number, after) = take_int_at(input, at)?;
            Ok((CellRef::Num(i64::from(number)), after))
        }
        Primitive::Long => {
            let (number, after) = take_long_at(input, at)?;
            Ok((CellRef::Num(number), after))
        }
        Primitive::Text => {
            let (text, after) = take_text(input, at)?;
            Ok((CellRef::Text(text), after))
        }
        Primitive::Bytes => {
            let (start, after) = pass_sized(input, at)?;
            Ok((CellRef::Bytes(&input[start..after.place]), after))
        }
    }
}

/// The same as `take_cell` for a cell that was checked.
#[inline(always)]
pub fn take_known_cell<'a>(form: Form, input: &'a [u8], at: Cursor) -> (CellRef<'a>, Cursor)
    requires start { at.place ≤ length input.now }
    requires known { IsCellThere form input.now at }
    // It is the cell of the value that is read under each schema of this form.
    ensures reads { (schema : ASchema) → spec.form_of schema ≡ Some form
        → cell_read schema input.now at ≡ Ok (lent_cell result.0, result.1) }
    ensures within { (at.place ≤ result.1.place) × (result.1.place ≤ length input.now) }
{
    take_known_form(form, input, at)
}

/// The same, by the form alone.
#[inline(always)]
fn take_known_form<'a>(form: Form, input: &'a [u8], at: Cursor) -> (CellRef<'a>, Cursor)
    requires start { at.place ≤ length input.now }
    requires known { is_ok (form_at form input.now at) ≡ true }
    ensures exact { form_at form input.now at ≡ Ok (lent_cell result.0, result.1) }
    ensures within { (at.place ≤ result.1.place) × (result.1.place ≤ length input.now) }
{
    let Some(null_branch) = form.null_branch else {
        return take_known_primitive(form.primitive, input, at);
    };
    match take_choice(2, input, at) {
        Ok((branch, behind)) if branch == null_branch => (CellRef::Null, behind),
        Ok((_, behind)) => take_known_primitive(form.primitive, input, behind),
        Err(_) => unreachable!(),
    }
}

/// The same of a primitive type.
#[inline(always)]
fn take_known_primitive<'a>(
    primitive: Primitive,
    input: &'a [u8],
    at: Cursor,
) -> (CellRef<'a>, Cursor)
    requires start { at.place ≤ length input.now }
    requires known { is_ok (primitive_at primitive input.now at) ≡ true }
    ensures exact { primitive_at primitive input.now at ≡ Ok (lent_cell result.0, result.1) }
    ensures within { (at.place ≤ result.1.place) × (result.1.place ≤ length input.now) }
{
    if let Primitive::Text = primitive {
        let (text, after) = take_known_text(input, at);
        return (CellRef::Text(text), after);
    }
    match take_primitive(primitive, input, at) {
        Ok(taken) => taken,
        Err(_) => unreachable!(),
    }
}

/// Which branch of a union of two is null, if one is. None: the type is no union.
fn null_branch(schema: &Schema) -> Option<u32>
    ensures { result ≡ null_branch (out-Schema schema.now) }
{
    let Schema::Union(branches) = schema else {
        return None;
    };
    match branches.get(0) {
        Some(first) if is_null(first) => Some(0),
        _ => Some(1),
    }
}
