//! Types whose values take no bytes.

ghost use Rattle.std.specs.Prelude.{◌≡◌};
ghost use Rattle.fields.specs.Kept.{is_empty, are_empty};

use schema_tree::{Fields, Schema};

/// Whether the values of the type take no bytes: null, a fixed type of size 0, or a record of only
/// such fields.
#[cycle(empty)]
pub fn is_empty(schema: &Schema) -> bool
    ensures { result ≡ is_empty schema.now }
{
    match schema {
        Schema::Null => true,
        Schema::Fixed { size, .. } => *size == 0,
        Schema::Rec { fields, .. } => are_empty(fields.get()),
        _ => false,
    }
}

/// Whether the values of all fields take no bytes.
#[cycle(empty)]
fn are_empty(fields: &Fields) -> bool
    ensures { result ≡ are_empty fields.now }
{
    for field in fields.as_slice() {
        if !is_empty(&field.schema) {
            return false;
        }
    }
    true
}
