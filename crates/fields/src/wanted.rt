//! Which field holds what is wanted.

ghost use Rattle.std.specs.Prelude.{◌≡◌, [], ◌∷◌, map, MatchOption};
ghost use Rattle.std.specs.declared.option.Option.TheVariants.{None, Some};
ghost use Rattle.fields.specs.Flat.{leaf_of};
ghost use Rattle.fields.specs.Wanted.{fields_of, is_id, has_inner, opens, is_this, find, source, check_missing};

use crate::leaf::LentLeaf;
use crate::refusal::FieldRefusal;
use avro_cells::is_allowed;
use row_types::Kind;
use schema_tree::{Field, Schema};

/// A field that is wanted.
#[derive(Clone, Copy, PartialEq, Eq)]
pub struct Wanted {
    /// The id of the field whose record has it. None: it is a field of the outer record.
    pub parent: Option<i32>,
    pub id: i32,
    /// What it is read as.
    pub kind: Kind,
    /// Whether it has to be there, with no null.
    pub required: bool,
}

/// The fields of a schema. One that is no record has none.
pub fn fields_of(schema: &Schema) -> &[Field]
    ensures { result.now ≡ fields_of schema.now }
{
    match schema {
        Schema::Rec { fields, .. } => fields.get().as_slice(),
        _ => &[],
    }
}

/// Whether the record in a field of the id is opened: one of its fields is wanted. In a field
/// without an id none is.
pub fn opens(wanted: &[Wanted], id: Option<i32>) -> bool
    ensures { result ≡ opens wanted.now id }
{
    match id {
        Some(id) => has_inner(wanted, id),
        None => false,
    }
}

/// Whether a wanted field is in a record in a field of the id.
fn has_inner(wanted: &[Wanted], id: i32) -> bool
    ensures { result ≡ has_inner id wanted.now }
{
    for w in wanted {
        if is_id(Some(id), w.parent) {
            return true;
        }
    }
    false
}

/// The place of the first field with the ids, counted from 0, if its type is an allowed one.
pub fn source(leaves: &[LentLeaf<'_>], wanted: &Wanted) -> Option<usize>
    ensures { result ≡ source (map leaf_of leaves.now) wanted.now }
{
    match find(wanted, leaves) {
        Some((place, schema)) if is_allowed(wanted.kind, schema) => Some(place),
        _ => None,
    }
}

/// The first field with the ids: its place, counted from 0, and its type. None: no field has them.
#[tactic(auto, using(crate::proofs::FieldLemmas::find_steps))]
fn find<'s>(wanted: &Wanted, leaves: &[LentLeaf<'s>]) -> Option<(usize, &'s Schema)>
    ensures { MatchOption result (find wanted.now (map leaf_of leaves.now) ≡ None)
        (λ found. find wanted.now (map leaf_of leaves.now) ≡ Some (found.0, found.1.now)) }
{
    for place in 0..leaves.len() {
        let leaf = leaves[place];
        if is_this(wanted, leaf) {
            return Some((place, leaf.schema));
        }
    }
    None
}

/// Whether the ids are those of the field that is wanted.
fn is_this(wanted: &Wanted, leaf: LentLeaf<'_>) -> bool
    ensures { result ≡ is_this wanted.now (leaf_of leaf.entry) }
{
    is_id(Some(wanted.id), leaf.id) && is_id(wanted.parent, leaf.parent)
}

/// Whether the ids are the same.
fn is_id(id: Option<i32>, other: Option<i32>) -> bool
    ensures { result ≡ is_id id other }
{
    match (id, other) {
        (Some(id), Some(other)) => other == id,
        (None, None) => true,
        _ => false,
    }
}

/// Whether each required field is there.
#[tactic(auto, using(crate::proofs::FieldLemmas::missing_steps))]
pub fn check_missing(fields: &[LentLeaf<'_>], wanted: &[Wanted]) -> Result<(), FieldRefusal>
    ensures { result ≡ check_missing (map leaf_of fields.now) wanted.now }
{
    for w in wanted {
        check_one(fields, w)?;
    }
    Ok(())
}

/// Whether the field is there, if it is required.
#[tactic(auto, unfolding(crate::specs::Wanted::check_missing))]
fn check_one(fields: &[LentLeaf<'_>], wanted: &Wanted) -> Result<(), FieldRefusal>
    ensures { result ≡ check_missing (map leaf_of fields.now) (wanted.now ∷ []) }
{
    if wanted.required && source(fields, wanted).is_none() {
        return Err(FieldRefusal::MissingField { id: wanted.id });
    }
    Ok(())
}
