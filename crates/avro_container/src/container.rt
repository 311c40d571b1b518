//! A container as plain data.

ghost use Rattle.std.specs.Prelude.{◌≡◌};
ghost use Rattle.std.specs.Option.{option_copied};
ghost use Rattle.avro_container.specs.Header.{bound_to as value_of};

use avro_wire::{Bytes, Text};
use sqlite_items::Items;

/// The pairs of a header in file order: what `avro.schema`, `avro.codec` and other names are bound
/// to.
pub type Meta = Items<(Text, Bytes)>;

/// The blocks of a container in file order.
pub type Blocks = Items<Block>;

/// One block: how many objects it has, and their bytes.
#[derive(Drop)]
pub struct Block {
    /// The number of objects, not below 0.
    pub count: i64,
    /// The objects, one after the other.
    pub bytes: Bytes,
}

/// A container. Avro spec, "Object Container Files".
#[derive(Drop)]
pub struct Container {
    pub meta: Meta,
    /// The marker after the header and after each block.
    pub sync: [u8; 16],
    pub blocks: Blocks,
}

/// What the key is bound to in a header; None if no pair has it.
pub fn bound_to<'a>(meta: &'a Meta, key: &str) -> Option<&'a [u8]>
    ensures { option_copied result ≡ value_of meta.now key.now }
{
    bound_in(meta.as_slice(), key)
}

/// What the key is bound to among the pairs. `None`: no pair has the key.
fn bound_in<'a>(pairs: &'a [(Text, Bytes)], key: &str) -> Option<&'a [u8]>
    ensures { option_copied result ≡ value_of pairs.now key.now }
{
    for pair in pairs {
        if pair.0.as_str() == key {
            return Some(pair.1.as_slice());
        }
    }
    None
}
