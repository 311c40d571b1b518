//! How deep and how large a schema is, as far as a limit asks.

ghost use Rattle.std.specs.Prelude.{◌≡◌, nat_le};
ghost use Rattle.schema_tree.specs.Tree.{depth, size};
ghost use Rattle.schema_tree.specs.Measure.{depth_of_fields, depth_of_branches};
ghost use Rattle.schema_tree.specs.Measure.{size_of_fields, size_of_branches, left_of};

use crate::schema::{Branches, Fields, Schema};

/// Whether the schema is at most `room` deep.
#[cycle(within)]
pub fn is_within(schema: &Schema, room: usize) -> bool
    ensures { result ≡ nat_le (depth schema.now) room }
{
    if room == 0 {
        return false;
    }
    match schema {
        Schema::Null
        | Schema::Boolean
        | Schema::Int(_)
        | Schema::Long(_)
        | Schema::Float
        | Schema::Double
        | Schema::Raw
        | Schema::Str
        | Schema::Fixed { .. }
        | Schema::Enum { .. } => true,
        Schema::Rec { fields, .. } => are_fields_within(fields.get(), room - 1),
        Schema::Array { items, .. } => is_within(items.get(), room - 1),
        Schema::Map { values, .. } => is_within(values.get(), room - 1),
        Schema::Union(branches) => are_branches_within(branches, room - 1),
    }
}

#[cycle(within)]
fn are_fields_within(fields: &Fields, room: usize) -> bool
    ensures { result ≡ nat_le (depth_of_fields fields.now) room }
{
    for field in fields.as_slice() {
        if !is_within(&field.schema, room) {
            return false;
        }
    }
    true
}

#[cycle(within)]
fn are_branches_within(branches: &Branches, room: usize) -> bool
    ensures { result ≡ nat_le (depth_of_branches branches.now) room }
{
    for branch in branches.as_slice() {
        if !is_within(branch, room) {
            return false;
        }
    }
    true
}

/// What is left of `left` once each schema that is in this one is counted, itself among them.
/// `None`: there are more of them than `left`.
#[cycle(size)]
pub fn take_size(schema: &Schema, left: usize) -> Option<usize>
    ensures { result ≡ left_of left (size schema.now) }
{
    if left == 0 {
        return None;
    }
    match schema {
        Schema::Null
        | Schema::Boolean
        | Schema::Int(_)
        | Schema::Long(_)
        | Schema::Float
        | Schema::Double
        | Schema::Raw
        | Schema::Str
        | Schema::Fixed { .. }
        | Schema::Enum { .. } => Some(left - 1),
        Schema::Rec { fields, .. } => take_fields(fields.get(), left - 1),
        Schema::Array { items, .. } => take_size(items.get(), left - 1),
        Schema::Map { values, .. } => take_size(values.get(), left - 1),
        Schema::Union(branches) => take_branches(branches, left - 1),
    }
}

#[cycle(size)]
fn take_fields(fields: &Fields, left: usize) -> Option<usize>
    ensures { result ≡ left_of left (size_of_fields fields.now) }
{
    let mut left = left;
    for field in fields.as_slice() {
        left = take_size(&field.schema, left)?;
    }
    Some(left)
}

#[cycle(size)]
fn take_branches(branches: &Branches, left: usize) -> Option<usize>
    ensures { result ≡ left_of left (size_of_branches branches.now) }
{
    let mut left = left;
    for branch in branches.as_slice() {
        left = take_size(branch, left)?;
    }
    Some(left)
}
