//! The tree of a schema.

ghost use Rattle.std.specs.Prelude.{◌≡◌, IfOk};
ghost use Rattle.schema_tree.specs.declared.schema.Field.{out-Field};
ghost use Rattle.schema_tree.specs.declared.schema.Schema.TheVariants.{Enum, Fixed, Rec};

use crate::logical::Logical;
use avro_wire::Text;
use lists::{Copied, Keyed, List};
use sharing::Shared;
use sqlite_items::Boxed;
use std::alloc::{AllocError, Global};

/// A name. Its copies share its bytes.
pub type Name = Shared<Text>;
/// Names that stand in one list.
pub type Names = List<Text>;
/// Fields.
pub type Fields = List<Field>;
/// Branches.
pub type Branches = List<Schema>;

/// A field of a record.
#[cycle(schema)]
#[derive(Drop)]
pub struct Field {
    /// Its name, which no other field of the record has.
    pub name: Name,
    /// Its id in a table. `None`: it has no id.
    pub id: Option<i32>,
    /// What its values are.
    pub schema: Schema,
}

/// A schema. A name that was used stands here as the schema that it was defined as, of which it
/// shares the name, the symbols and the fields. So a copy of a fixed, an enum or a record takes no
/// memory.
#[cycle(schema)]
#[derive(Drop)]
pub enum Schema {
    /// The one value null.
    Null,
    /// A boolean.
    Boolean,
    /// A signed number of 32 bits.
    Int(Logical),
    /// A signed number of 64 bits.
    Long(Logical),
    /// A float of 32 bits.
    Float,
    /// A float of 64 bits.
    Double,
    /// Bytes, as many as the value tells.
    Raw,
    /// A text in UTF-8.
    Str,
    /// Bytes, `size` of them. `name`: the full name.
    Fixed {
        name: Name,
        size: u32,
    },
    /// One of the symbols. `name`: the full name.
    Enum {
        name: Name,
        symbols: Shared<Names>,
    },
    /// A value of each field, in their order. `name`: the full name.
    Rec {
        name: Name,
        fields: Shared<Fields>,
    },
    /// Any number of items. `element_id`: their id in a table; `None`: they have no id.
    /// `keyed`: it stands for a map, and its items are the map's pairs.
    Array {
        items: Boxed<Schema>,
        element_id: Option<i32>,
        keyed: bool,
    },
    /// Texts, each with a value. `key_id`, `value_id`: the ids of the texts and of the values in a
    /// table; `None`: they have no id.
    Map {
        values: Boxed<Schema>,
        key_id: Option<i32>,
        value_id: Option<i32>,
    },
    /// A value of one of the branches.
    Union(Branches),
}

/// The key of a field is its name.
impl Keyed for Field {
    ghost key = { λ field. (out-Field field).name };

    fn key(&self) -> &str {
        self.name.get().as_str()
    }
}

impl Copied for Field {
    fn copy(&self, alloc: Global) -> Result<Field, AllocError> {
        copy_field(alloc, self)
    }
}

impl Copied for Schema {
    fn copy(&self, alloc: Global) -> Result<Schema, AllocError> {
        copy_schema(alloc, self)
    }
}

fn copy_field(alloc: Global, field: &Field) -> Result<Field, AllocError>
    ensures { IfOk result (λ copy. copy ≡ field.now) }
{
    let schema = copy_schema(alloc, &field.schema)?;
    Ok(Field {
        name: field.name.copy(alloc)?,
        id: field.id,
        schema,
    })
}

#[cycle(copy)]
fn copy_branches(alloc: Global, branches: &Branches) -> Result<Branches, AllocError>
    ensures { IfOk result (λ copy. copy ≡ branches.now) }
{
    let mut copies = Vec::with_capacity(alloc, branches.len())?;
    for branch in branches.as_slice() {
        copies.push(copy_schema(alloc, branch)?)?;
    }
    Ok(List::from_vec(copies))
}

#[cycle(copy)]
fn copy_boxed(alloc: Global, schema: &Boxed<Schema>) -> Result<Boxed<Schema>, AllocError>
    ensures { IfOk result (λ copy. copy ≡ schema.now) }
{
    let copy = copy_schema(alloc, schema.get())?;
    Boxed::new(alloc, copy)
}

#[cycle(copy)]
fn copy_schema(alloc: Global, schema: &Schema) -> Result<Schema, AllocError>
    ensures { IfOk result (λ copy. copy ≡ schema.now) }
{
    match schema {
        Schema::Null => Ok(Schema::Null),
        Schema::Boolean => Ok(Schema::Boolean),
        Schema::Int(logical) => Ok(Schema::Int(*logical)),
        Schema::Long(logical) => Ok(Schema::Long(*logical)),
        Schema::Float => Ok(Schema::Float),
        Schema::Double => Ok(Schema::Double),
        Schema::Raw => Ok(Schema::Raw),
        Schema::Str => Ok(Schema::Str),
        Schema::Fixed { name, size } => copy_fixed(alloc, name, *size),
        Schema::Enum { name, symbols } => copy_enum(alloc, name, symbols),
        Schema::Rec { name, fields } => copy_record(alloc, name, fields),
        Schema::Array {
            items,
            element_id,
            keyed,
        } => Ok(Schema::Array {
            items: copy_boxed(alloc, items)?,
            element_id: *element_id,
            keyed: *keyed,
        }),
        Schema::Map {
            values,
            key_id,
            value_id,
        } => Ok(Schema::Map {
            values: copy_boxed(alloc, values)?,
            key_id: *key_id,
            value_id: *value_id,
        }),
        Schema::Union(branches) => Ok(Schema::Union(copy_branches(alloc, branches)?)),
    }
}

fn copy_fixed(alloc: Global, name: &Name, size: u32) -> Result<Schema, AllocError>
    ensures { IfOk result (λ copy. copy ≡ Fixed name.now size) }
{
    Ok(Schema::Fixed {
        name: name.copy(alloc)?,
        size,
    })
}

fn copy_enum(alloc: Global, name: &Name, symbols: &Shared<Names>) -> Result<Schema, AllocError>
    ensures { IfOk result (λ copy. copy ≡ Enum name.now symbols.now) }
{
    Ok(Schema::Enum {
        name: name.copy(alloc)?,
        symbols: symbols.copy(alloc)?,
    })
}

fn copy_record(alloc: Global, name: &Name, fields: &Shared<Fields>) -> Result<Schema, AllocError>
    ensures { IfOk result (λ copy. copy ≡ Rec name.now fields.now) }
{
    Ok(Schema::Rec {
        name: name.copy(alloc)?,
        fields: fields.copy(alloc)?,
    })
}
