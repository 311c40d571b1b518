//! Schemas without the fields that take no bytes.

ghost use Rattle.std.specs.Prelude.{◌≡◌, ◌++◌, ◌∷◌, [], true, IfOk};
ghost use Rattle.schema_tree.specs.declared.schema.Field.{out-Field};
ghost use Rattle.schema_tree.specs.declared.schema.Schema.TheVariants.{Rec, Array, Map, Union};
ghost use Rattle.datum_reading.specs.Compact.{IsPassedAs, ArePassedAs, TakesNothing, AddsField};

use lists::{Copied, List};
use schema_tree::{Branches, Field, Fields, Name, Schema};
use sharing::Shared;
use sqlite_items::Boxed;
use std::alloc::{AllocError, Global};

/// The schema without the fields whose values take no bytes: nulls, fixed types of size 0, and
/// records of only such fields. The fields of records in it are left out, too. `skip` goes to the
/// same places under it, and takes no step for such a field. An `Err` says that memory ran out.
pub fn compacted(alloc: Global, schema: &Schema) -> Result<Schema, AllocError>
    ensures { IfOk result (λ compact. IsPassedAs compact schema.now) }
{
    compact_schema(alloc, schema)
}

#[cycle(compact)]
fn compact_schema(alloc: Global, schema: &Schema) -> Result<Schema, AllocError>
    ensures { IfOk result (λ compact. IsPassedAs compact schema.now) }
{
    match schema {
        Schema::Rec { name, fields } => compact_record(alloc, name, fields.get()),
        Schema::Array {
            items,
            element_id,
            keyed,
        } => compact_array(alloc, items.get(), *element_id, *keyed),
        Schema::Map {
            values,
            key_id,
            value_id,
        } => compact_map(alloc, values.get(), *key_id, *value_id),
        Schema::Union(branches) => compact_union(alloc, branches),
        _ => schema.copy(alloc),
    }
}

#[cycle(compact)]
fn compact_record(alloc: Global, name: &Name, fields: &Fields) -> Result<Schema, AllocError>
    ensures { IfOk result (λ compact. IsPassedAs compact (Rec name.now fields.now)) }
{
    let fields = compact_fields(alloc, fields)?;
    Ok(Schema::Rec {
        name: name.copy(alloc)?,
        fields: Shared::new(alloc, fields)?,
    })
}

#[cycle(compact)]
fn compact_array(
    alloc: Global,
    items: &Schema,
    element_id: Option<i32>,
    keyed: bool,
) -> Result<Schema, AllocError>
    ensures { IfOk result (λ compact. IsPassedAs compact (Array items.now element_id keyed)) }
{
    let items = compact_schema(alloc, items)?;
    Ok(Schema::Array {
        items: Boxed::new(alloc, items)?,
        element_id,
        keyed,
    })
}

#[cycle(compact)]
fn compact_map(
    alloc: Global,
    values: &Schema,
    key_id: Option<i32>,
    value_id: Option<i32>,
) -> Result<Schema, AllocError>
    ensures { IfOk result (λ compact. IsPassedAs compact (Map values.now key_id value_id)) }
{
    let values = compact_schema(alloc, values)?;
    Ok(Schema::Map {
        values: Boxed::new(alloc, values)?,
        key_id,
        value_id,
    })
}

#[cycle(compact)]
fn compact_union(alloc: Global, branches: &Branches) -> Result<Schema, AllocError>
    ensures { IfOk result (λ compact. IsPassedAs compact (Union branches.now)) }
{
    let mut found = Vec::with_capacity(alloc, branches.len())?;
    for branch in branches.as_slice() {
        found.push(compact_schema(alloc, branch)?)?;
    }
    Ok(Schema::Union(List::from_vec(found)))
}

/// The fields whose values take bytes.
#[cycle(compact)]
fn compact_fields(alloc: Global, fields: &Fields) -> Result<Fields, AllocError>
    ensures { IfOk result (λ compact. ArePassedAs compact fields.now) }
{
    let mut found = Vec::new(alloc);
    for field in fields.as_slice() {
        push_field(&mut found, compact_field(alloc, field)?)?;
    }
    Ok(List::from_vec(found))
}

#[cycle(compact)]
fn compact_field(alloc: Global, field: &Field) -> Result<Field, AllocError>
    ensures { IfOk result (λ compact.
        IsPassedAs (out-Field compact).schema (out-Field field.now).schema) }
{
    let schema = compact_schema(alloc, &field.schema)?;
    Ok(Field {
        name: field.name.copy(alloc)?,
        id: field.id,
        schema,
    })
}

/// Adds the field, if its values take bytes.
fn push_field(found: &mut Vec<Field>, field: Field) -> Result<(), AllocError>
    ensures { IfOk result (λ _.
        AddsField found.old.items found.new.items (out-Field field).schema) }
{
    if takes_nothing(&field.schema) {
        return Ok(());
    }
    found.push(field)?;
    Ok(())
}

/// Whether the values of the type take no bytes, if all fields of a record take some.
#[tactic(auto, using(crate::specs::Layers::layers))]
fn takes_nothing(schema: &Schema) -> bool
    ensures { result ≡ true → TakesNothing schema.now }
{
    match schema {
        Schema::Null => true,
        Schema::Fixed { size, .. } => *size == 0,
        Schema::Rec { fields, .. } => fields.get().is_empty(),
        _ => false,
    }
}
