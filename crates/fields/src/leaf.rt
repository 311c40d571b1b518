//! The fields of a record, and of the records in it.

ghost use Rattle.std.specs.Prelude.{◌≡◌, [], ◌∷◌, ◌+◌, ◌<◌, ◌^◌, ◌++◌, map, true, None, IfOk};
ghost use Rattle.fields.specs.Flat.{leaf_of, inner_leaf, leaves_if, leaves_of_field, leaves};
ghost use Rattle.fields.specs.Wanted.{opens};
ghost use Rattle.fields.specs.Kept.{kept, slots, slot_of, behind_slot};
ghost use Rattle.fields.specs.Record.{IsTypeReadAs, IsReadAs, AreReadAs, AddsReadAs};

use crate::empty::is_empty;
use crate::wanted::{Wanted, opens};
use avro_cells::form_of;
use datum_reading::compacted;
use lists::Copied;
use schema_tree::{Field, Schema};
use std::alloc::{AllocError, Global};

/// A field of a record, or one of a record in a field of it.
#[derive(Drop)]
pub struct Leaf {
    /// The id of the field that holds the record. None: it is the outer one.
    pub parent: Option<i32>,
    pub id: Option<i32>,
    /// Its type; if it holds no cells, its type without the fields that take no bytes.
    pub schema: Schema,
}

/// A leaf that borrows its type.
#[derive(Clone, Copy)]
pub struct LentLeaf<'s> {
    /// The id of the field that holds the record. None: it is the outer one.
    pub parent: Option<i32>,
    pub id: Option<i32>,
    pub schema: &'s Schema,
}

/// The fields of a record, and in their places those of the records in it that have a wanted field.
pub fn leaves_of<'s>(
    alloc: Global,
    fields: &'s [Field],
    wanted: &[Wanted],
) -> Result<Vec<LentLeaf<'s>>, AllocError>
    ensures { IfOk result (λ all. map leaf_of all.items ≡ leaves (opens wanted.now) fields.now) }
{
    let mut all = Vec::new(alloc);
    for field in fields {
        push_field(&mut all, field, wanted)?;
    }
    Ok(all)
}

/// Adds the field, or the fields of the record in it, if one of them is wanted.
fn push_field<'s>(
    all: &mut Vec<LentLeaf<'s>>,
    field: &'s Field,
    wanted: &[Wanted],
) -> Result<(), AllocError>
    ensures { IfOk result (λ _. map leaf_of all.new.items
        ≡ map leaf_of all.old.items ++ leaves_of_field (opens wanted.now) field.now) }
{
    if opens(wanted, field.id) {
        push_opened(all, field)
    } else {
        push_leaf(all, field)
    }
}

/// Adds the fields of the record in the field; the field itself, if none does.
fn push_opened<'s>(all: &mut Vec<LentLeaf<'s>>, field: &'s Field) -> Result<(), AllocError>
    ensures { IfOk result (λ _. map leaf_of all.new.items
        ≡ map leaf_of all.old.items ++ leaves_if true field.now) }
{
    match &field.schema {
        Schema::Rec { fields, .. } => push_inner(all, field.id, fields.get().as_slice()),
        _ => push_leaf(all, field),
    }
}

/// Adds the field itself.
fn push_leaf<'s>(all: &mut Vec<LentLeaf<'s>>, field: &'s Field) -> Result<(), AllocError>
    ensures { IfOk result (λ _. map leaf_of all.new.items
        ≡ map leaf_of all.old.items ++ inner_leaf None field.now ∷ []) }
{
    all.push(LentLeaf {
        parent: None,
        id: field.id,
        schema: &field.schema,
    })?;
    Ok(())
}

/// Adds the fields of a record in a field of the id.
fn push_inner<'s>(
    all: &mut Vec<LentLeaf<'s>>,
    parent: Option<i32>,
    fields: &'s [Field],
) -> Result<(), AllocError>
    ensures { IfOk result (λ _. map leaf_of all.new.items
        ≡ map leaf_of all.old.items ++ map (inner_leaf parent) fields.now) }
{
    for field in fields {
        all.push(LentLeaf {
            parent,
            id: field.id,
            schema: &field.schema,
        })?;
    }
    Ok(())
}

/// The fields whose values take bytes.
#[tactic(auto, using(crate::proofs::FirstLemmas::kept_steps))]
pub fn kept_of(alloc: Global, all: &[LentLeaf<'_>]) -> Result<Vec<Leaf>, AllocError>
    ensures { IfOk result (λ found. AreReadAs found.items (kept (map leaf_of all.now))) }
{
    let mut found = Vec::new(alloc);
    for place in 0..all.len() {
        push_kept(alloc, &mut found, all[place])?;
    }
    Ok(found)
}

/// Adds the field, if its values take bytes.
#[tactic(auto, unfolding(crate::specs::Kept::kept))]
fn push_kept(alloc: Global, found: &mut Vec<Leaf>, leaf: LentLeaf<'_>) -> Result<(), AllocError>
    ensures { IfOk result (λ _.
        AddsReadAs found.old.items found.new.items (kept (leaf_of leaf.entry ∷ []))) }
{
    if is_empty(leaf.schema) {
        return Ok(());
    }
    let leaf = own(alloc, leaf)?;
    found.push(leaf)?;
    Ok(())
}

/// The leaf in memory of its own. If its type holds no cells, it is passed over in each record, and
/// so its fields that take no bytes are left out.
fn own(alloc: Global, leaf: LentLeaf<'_>) -> Result<Leaf, AllocError>
    ensures { IfOk result (λ owned. IsReadAs owned (leaf_of leaf.entry)) }
{
    Ok(Leaf {
        parent: leaf.parent,
        id: leaf.id,
        schema: own_type(alloc, leaf.schema)?,
    })
}

/// The type under which the values of the type are read, in memory of its own.
fn own_type(alloc: Global, schema: &Schema) -> Result<Schema, AllocError>
    ensures { IfOk result (λ owned. IsTypeReadAs owned schema.now) }
{
    if form_of(schema).is_some() {
        return schema.copy(alloc);
    }
    let compact = compacted(alloc, schema)?;
    // No type gets a form by what is left out. So this asks instead of a proof.
    if form_of(&compact).is_some() {
        return schema.copy(alloc);
    }
    Ok(compact)
}

/// For each field its place among those whose values take bytes, counted from 0.
#[tactic(auto, using(crate::proofs::FirstLemmas::slots_steps))]
pub fn slots_of(alloc: Global, all: &[LentLeaf<'_>]) -> Result<Vec<Option<usize>>, AllocError>
    ensures { IfOk result (λ found. found.items ≡ slots 0 (map leaf_of all.now)) }
{
    let mut found = Vec::new(alloc);
    let mut many = 0;
    for place in 0..all.len() {
        let empty = is_empty(all[place].schema);
        found.push(slot_of(empty, many))?;
        many = behind_slot(empty, many);
    }
    Ok(found)
}

/// The place of a field after so many whose values take bytes. None: its values take none.
fn slot_of(empty: bool, many: usize) -> Option<usize>
    ensures { result ≡ slot_of empty many }
{
    if empty { None } else { Some(many) }
}

/// How many fields up to this one take bytes.
fn behind_slot(empty: bool, many: usize) -> usize
    requires { many + 1 < 2 ^ 64 }
    ensures { result ≡ behind_slot empty many }
{
    if empty { many } else { many + 1 }
}
