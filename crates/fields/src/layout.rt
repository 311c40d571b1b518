//! How the records of a schema are read.

ghost use Rattle.std.specs.Prelude.{◌≡◌, length, map, replicate, Some, None, IfOk, IfSome};
ghost use Rattle.std.specs.Bool.{OnTrue};
ghost use Rattle.words.specs.Reading.{Gives};
ghost use Rattle.fields.specs.Flat.{leaf_of, leaves};
ghost use Rattle.fields.specs.Kept.{kept, slot_at};
ghost use Rattle.fields.specs.Order.{places_from, AreInOrder};
ghost use Rattle.fields.specs.Nulls.{first_of, is_at, is_needed, needed_from};
ghost use Rattle.fields.specs.Wanted.{fields_of as fields_in, opens, source as source_in};
ghost use Rattle.fields.specs.Wanted.{check_missing as missing_in};
ghost use Rattle.fields.specs.Record.{is_memory, place_in, forms_of as forms_in, AreReadAs, IsLayout};

use crate::leaf::{Leaf, LentLeaf, kept_of, leaves_of, slots_of};
use crate::refusal::FieldRefusal;
use crate::wanted::{Wanted, check_missing, fields_of, source};
use avro_cells::{Form, form_of};
use schema_tree::Schema;
use std::alloc::{AllocError, Global};

/// How the records of a schema are read for what is wanted.
#[derive(Drop)]
pub struct Layout {
    pub wanted: Vec<Wanted>,
    pub schema: Schema,
    /// Its fields, and those of the opened records in it, whose values take bytes.
    pub leaves: Vec<Leaf>,
    /// For each of them how its cells are read.
    pub forms: Vec<Option<Form>>,
    /// For each wanted field the place of the one of them that holds it.
    pub sources: Vec<Option<usize>>,
    /// For each of them the place of the first wanted field that it holds and that is required.
    pub needed: Vec<usize>,
    /// How many wanted fields no field holds, if these come first and the others stand in the
    /// order of the fields that take bytes. None: they stand in another order.
    pub missing: Option<usize>,
}

/// The layout of the records of the schema. The first required field that the schema has not, in
/// the order of `wanted`, is refused.
pub fn lay_out(alloc: Global, schema: Schema, wanted: Vec<Wanted>) -> Result<Layout, FieldRefusal>
    ensures missing { Gives is_memory (λ _. tt) result
        (missing_in (leaves (opens wanted.items) (fields_in schema)) wanted.items) }
    ensures schema { IfOk result (λ layout. layout.schema ≡ schema) }
    ensures wanted { IfOk result (λ layout. layout.wanted.items ≡ wanted.items) }
    ensures right { IfOk result IsLayout }
{
    let plan = plan_of(alloc, &schema, &wanted)?;
    Ok(Layout {
        wanted,
        schema,
        leaves: plan.leaves,
        forms: plan.forms,
        sources: plan.sources,
        needed: plan.needed,
        missing: plan.missing,
    })
}

/// What a layout has beside its schema and what is wanted.
#[derive(Drop)]
struct Plan {
    leaves: Vec<Leaf>,
    forms: Vec<Option<Form>>,
    sources: Vec<Option<usize>>,
    needed: Vec<usize>,
    missing: Option<usize>,
}

/// The plan of a layout.
fn plan_of(alloc: Global, schema: &Schema, wanted: &[Wanted]) -> Result<Plan, FieldRefusal>
    ensures missing { Gives is_memory (λ _. tt) result
        (missing_in (leaves (opens wanted.now) (fields_in schema.now)) wanted.now) }
    ensures leaves { IfOk result (λ plan.
        AreReadAs plan.leaves.items (kept (leaves (opens wanted.now) (fields_in schema.now)))) }
    ensures forms { IfOk result (λ plan. plan.forms.items ≡ forms_in plan.leaves.items) }
    ensures sources { IfOk result (λ plan.
        plan.sources.items ≡ map (place_in (leaves (opens wanted.now) (fields_in schema.now))) wanted.now) }
    ensures needed { IfOk result (λ plan. plan.needed.items
        ≡ needed_from wanted.now plan.sources.items 0 (length plan.leaves.items)) }
    ensures order { IfOk result (λ plan.
        IfSome plan.missing (AreInOrder plan.sources.items (length plan.leaves.items))) }
{
    let all = leaves_of(alloc, fields_of(schema), wanted)?;
    check_missing(&all, wanted)?;
    let sources = sources_of(alloc, &all, wanted)?;
    let leaves = kept_of(alloc, &all)?;
    let forms = forms_of(alloc, &leaves)?;
    let needed = needed_of(alloc, wanted, &sources, leaves.len())?;
    let missing = missing_of(&sources, leaves.len());
    Ok(Plan {
        leaves,
        forms,
        sources,
        needed,
        missing,
    })
}

/// The place of each wanted field among those that take bytes.
fn sources_of(
    alloc: Global,
    all: &[LentLeaf<'_>],
    wanted: &[Wanted],
) -> Result<Vec<Option<usize>>, AllocError>
    ensures { IfOk result (λ sources.
        sources.items ≡ map (place_in (map leaf_of all.now)) wanted.now) }
{
    let slots = slots_of(alloc, all)?;
    let mut sources = Vec::new(alloc);
    for w in wanted {
        sources.push(slot_at(&slots, source(all, w)))?;
    }
    Ok(sources)
}

/// The slot of the field at a place.
fn slot_at(slots: &[Option<usize>], place: Option<usize>) -> Option<usize>
    ensures { result ≡ slot_at slots.now place }
{
    match place {
        Some(place) if place < slots.len() => slots[place],
        _ => None,
    }
}

/// How the cells of each field are read.
fn forms_of(alloc: Global, leaves: &Vec<Leaf>) -> Result<Vec<Option<Form>>, AllocError>
    ensures { IfOk result (λ forms. forms.items ≡ forms_in leaves.now.items) }
{
    let mut forms = Vec::new(alloc);
    for leaf in leaves {
        forms.push(form_of(&leaf.schema))?;
    }
    Ok(forms)
}

/// How many wanted fields no field holds, if these come first and the others stand in the order of
/// the `many` fields that take bytes.
fn missing_of(sources: &[Option<usize>], many: usize) -> Option<usize>
    ensures { IfSome result (AreInOrder sources.now many) }
{
    let missing = sources.len().checked_sub(many)?;
    if are_none(&sources[..missing]) && are_places(&sources[missing..]) {
        return Some(missing);
    }
    None
}

/// Whether none of them is a place.
fn are_none(sources: &[Option<usize>]) -> bool
    ensures { OnTrue result (sources.now ≡ replicate (length sources.now) None) }
{
    for index in 0..sources.len() {
        if sources[index].is_some() {
            return false;
        }
    }
    true
}

/// Whether each is its own place.
fn are_places(sources: &[Option<usize>]) -> bool
    ensures { OnTrue result (sources.now ≡ places_from 0 (length sources.now)) }
{
    for index in 0..sources.len() {
        if !is_place(sources[index], index) {
            return false;
        }
    }
    true
}

/// Whether it is the place.
fn is_place(source: Option<usize>, place: usize) -> bool
    ensures { OnTrue result (source ≡ Some place) }
{
    match source {
        Some(source) => source == place,
        None => false,
    }
}

/// For each of `count` fields the first required field that it holds.
#[tactic(auto, using(crate::proofs::FirstLemmas::needed_steps))]
fn needed_of(
    alloc: Global,
    wanted: &[Wanted],
    sources: &[Option<usize>],
    many: usize,
) -> Result<Vec<usize>, AllocError>
    requires { length sources.now ≡ length wanted.now }
    ensures { IfOk result (λ needed. needed.items ≡ needed_from wanted.now sources.now 0 many) }
{
    let mut needed = Vec::new(alloc);
    for place in 0..many {
        needed.push(first_of(wanted, sources, place))?;
    }
    Ok(needed)
}

/// The place of the first required field that the field at `place` holds. After all: none.
#[tactic(auto, using(crate::proofs::FirstLemmas::first_steps))]
fn first_of(wanted: &[Wanted], sources: &[Option<usize>], place: usize) -> usize
    requires { length sources.now ≡ length wanted.now }
    ensures { result ≡ first_of (is_at place) wanted.now sources.now }
{
    for index in 0..wanted.len() {
        if is_needed(&wanted[index], sources[index], place) {
            return index;
        }
    }
    wanted.len()
}

/// Whether the field is required, and its source is the field at the place.
fn is_needed(wanted: &Wanted, source: Option<usize>, place: usize) -> bool
    ensures { result ≡ is_needed place wanted.now source }
{
    match source {
        Some(source) => wanted.required && source == place,
        None => false,
    }
}
