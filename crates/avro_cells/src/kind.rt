//! Which types hold the cells of a column, and the type that they are written as.

ghost use Rattle.std.specs.Prelude.{◌≡◌, IfOk, MatchOption};
ghost use Rattle.std.specs.declared.option.Option.TheVariants.{None, Some};
ghost use Rattle.schema_tree.specs.declared.schema.Schema.{out-Schema};
ghost use Rattle.avro_cells.specs.Kind.{nullable, beside_null, is_null, primitive_of, is_read_from, holds, is_allowed, int_kind, long_kind, kind_of, written_type, optional_type};

use lists::List;
use row_types::Kind;
use schema_tree::{Logical, Schema};
use std::alloc::{AllocError, Global};

/// A primitive type of cells. Avro spec, "Primitive Types".
#[derive(Clone, Copy, PartialEq, Eq)]
pub enum Primitive {
    Boolean,
    Int,
    Long,
    Text,
    Bytes,
}

/// How a field's type is read.
#[derive(Drop)]
pub struct CellType<'a> {
    /// Whether null may be there.
    pub has_null: bool,
    /// The type alone, or the one beside null.
    pub schema: &'a Schema,
}

/// How the type is read: bare, or in a union of two branches beside null. None for any other union.
/// Iceberg spec, "Appendix A: Format-specific Requirements", "Avro".
pub fn nullable(schema: &Schema) -> Option<CellType<'_>>
    ensures { MatchOption result (nullable schema.now ≡ None) (λ found. nullable schema.now
        ≡ Some (record { has_null = found.has_null; type = found.schema.now })) }
{
    let Schema::Union(branches) = schema else {
        return Some(CellType {
            has_null: false,
            schema,
        });
    };
    if branches.len() != 2 {
        return None;
    }
    let branches = branches.as_slice();
    beside_null(&branches[0], &branches[1])
}

/// The type of a union of two branches, of which one alone is null.
fn beside_null<'a>(first: &'a Schema, second: &'a Schema) -> Option<CellType<'a>>
    ensures { MatchOption result
        (beside_null (is_null (out-Schema first.now)) (is_null (out-Schema second.now))
        first.now second.now ≡ None)
        (λ found. beside_null (is_null (out-Schema first.now)) (is_null (out-Schema second.now))
        first.now second.now
        ≡ Some (record { has_null = found.has_null; type = found.schema.now })) }
{
    let schema = match (is_null(first), is_null(second)) {
        (true, false) => second,
        (false, true) => first,
        _ => return None,
    };
    Some(CellType {
        has_null: true,
        schema,
    })
}

/// Whether it is the null type.
pub fn is_null(schema: &Schema) -> bool
    ensures { result ≡ is_null (out-Schema schema.now) }
{
    matches!(schema, Schema::Null)
}

/// Whether cells of the kind are read from the type. What a number stands for isn't asked.
pub fn holds(kind: Kind, schema: &Schema) -> bool
    ensures { result ≡ holds kind (out-Schema schema.now) }
{
    match primitive_of(schema) {
        Some(primitive) => is_read_from(kind, primitive),
        None => false,
    }
}

/// Whether cells of the kind are read from the primitive type.
fn is_read_from(kind: Kind, primitive: Primitive) -> bool
    ensures { result ≡ is_read_from kind primitive }
{
    match kind {
        Kind::Boolean => primitive == Primitive::Boolean,
        Kind::Int | Kind::Date => primitive == Primitive::Int,
        Kind::Long => primitive == Primitive::Int || primitive == Primitive::Long,
        Kind::Time | Kind::Timestamp | Kind::Timestamptz => primitive == Primitive::Long,
        Kind::Text => primitive == Primitive::Text,
        Kind::Bytes => primitive == Primitive::Bytes,
    }
}

/// The primitive type of the type's cells; None: it holds none.
pub fn primitive_of(schema: &Schema) -> Option<Primitive>
    ensures { result ≡ primitive_of (out-Schema schema.now) }
{
    match schema {
        Schema::Boolean => Some(Primitive::Boolean),
        Schema::Int(_) => Some(Primitive::Int),
        Schema::Long(_) => Some(Primitive::Long),
        Schema::Str => Some(Primitive::Text),
        Schema::Raw => Some(Primitive::Bytes),
        _ => None,
    }
}

/// Whether a column of the kind is read from a field of the type.
pub fn is_allowed(kind: Kind, schema: &Schema) -> bool
    ensures { result ≡ is_allowed kind schema.now }
{
    match nullable(schema) {
        Some(found) => holds(kind, found.schema),
        None => false,
    }
}

/// The kind of the cells that the type holds, by what its numbers stand for. None: it holds none.
pub fn kind_of(schema: &Schema) -> Option<Kind>
    ensures { result ≡ kind_of (out-Schema schema.now) }
{
    match schema {
        Schema::Boolean => Some(Kind::Boolean),
        Schema::Int(logical) => Some(int_kind(*logical)),
        Schema::Long(logical) => Some(long_kind(*logical)),
        Schema::Str => Some(Kind::Text),
        Schema::Raw => Some(Kind::Bytes),
        _ => None,
    }
}

/// The kind of an int.
fn int_kind(logical: Logical) -> Kind
    ensures { result ≡ int_kind logical }
{
    match logical {
        Logical::Date => Kind::Date,
        _ => Kind::Int,
    }
}

/// The kind of a long.
fn long_kind(logical: Logical) -> Kind
    ensures { result ≡ long_kind logical }
{
    match logical {
        Logical::TimeMicros => Kind::Time,
        Logical::StampMicros => Kind::Timestamp,
        Logical::StampMicrosUtc => Kind::Timestamptz,
        _ => Kind::Long,
    }
}

/// The type that the cells of a kind are written as. Iceberg spec, "Appendix A: Format-specific
/// Requirements", "Avro".
pub fn written_type(kind: Kind) -> Schema
    ensures { result ≡ written_type kind }
{
    match kind {
        Kind::Boolean => Schema::Boolean,
        Kind::Int => Schema::Int(Logical::Plain),
        Kind::Long => Schema::Long(Logical::Plain),
        Kind::Date => Schema::Int(Logical::Date),
        Kind::Time => Schema::Long(Logical::TimeMicros),
        Kind::Timestamp => Schema::Long(Logical::StampMicros),
        Kind::Timestamptz => Schema::Long(Logical::StampMicrosUtc),
        Kind::Text => Schema::Str,
        Kind::Bytes => Schema::Raw,
    }
}

/// The type beside null, which comes first. An `Err` says that memory ran out.
pub fn optional_type(alloc: Global, schema: Schema) -> Result<Schema, AllocError>
    ensures { IfOk result (λ both. both ≡ optional_type schema) }
{
    let mut branches = Vec::new(alloc);
    branches.push(Schema::Null)?;
    branches.push(schema)?;
    Ok(Schema::Union(List::from_vec(branches)))
}
