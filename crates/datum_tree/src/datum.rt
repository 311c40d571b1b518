//! Values.

ghost use Rattle.std.specs.Prelude.{◌≡◌, IfOk};

use avro_wire::{Bytes, Text};
use lists::{Copied, List};
use sqlite_items::Boxed;
use std::alloc::{AllocError, Global};

/// Values, in order: those of a record's fields, or of an array's items.
pub type Items = List<Datum>;

/// The pairs of a map, in the order of the bytes: a key may be a duplicate.
pub type Pairs = List<(Text, Datum)>;

/// A value of some schema. Avro spec, "Binary encoding".
#[derive(Drop)]
pub enum Datum {
    /// The null.
    Null,
    /// A boolean.
    Flag(bool),
    /// An int, a long, or the place of an enum's symbol, counted from 0.
    Num(i64),
    /// Bytes, or the bytes of a fixed, a float or a double, as they are in the encoding.
    Raw(Bytes),
    /// A string.
    Str(Text),
    /// The place of a union's branch, counted from 0, and a value of that branch.
    Branch(u32, Boxed<Datum>),
    /// The values of a record's fields, in the schema's order.
    Rec(Items),
    /// The items of an array.
    Array(Items),
    /// The pairs of a map.
    Map(Pairs),
}

impl Copied for Datum {
    fn copy(&self, alloc: Global) -> Result<Datum, AllocError> {
        copy_datum(alloc, self)
    }
}

/// An equal value, in memory of its own.
#[cycle(copy)]
fn copy_datum(alloc: Global, datum: &Datum) -> Result<Datum, AllocError>
    ensures { IfOk result (λ copy. copy ≡ datum.now) }
{
    match datum {
        Datum::Null => Ok(Datum::Null),
        Datum::Flag(flag) => Ok(Datum::Flag(*flag)),
        Datum::Num(number) => Ok(Datum::Num(*number)),
        Datum::Raw(bytes) => Ok(Datum::Raw(bytes.copy(alloc)?)),
        Datum::Str(text) => Ok(Datum::Str(text.copy(alloc)?)),
        Datum::Branch(place, inside) => {
            let copy = copy_datum(alloc, inside.get())?;
            Ok(Datum::Branch(*place, Boxed::new(alloc, copy)?))
        }
        Datum::Rec(values) => Ok(Datum::Rec(copy_items(alloc, values)?)),
        Datum::Array(items) => Ok(Datum::Array(copy_items(alloc, items)?)),
        Datum::Map(pairs) => Ok(Datum::Map(copy_pairs(alloc, pairs)?)),
    }
}

/// Equal values, in memory of their own.
#[cycle(copy)]
fn copy_items(alloc: Global, items: &Items) -> Result<Items, AllocError>
    ensures { IfOk result (λ copy. copy ≡ items.now) }
{
    let mut copies = Vec::with_capacity(alloc, items.len())?;
    for item in items.as_slice() {
        copies.push(copy_datum(alloc, item)?)?;
    }
    Ok(List::from_vec(copies))
}

/// Equal pairs, in memory of their own.
#[cycle(copy)]
fn copy_pairs(alloc: Global, pairs: &Pairs) -> Result<Pairs, AllocError>
    ensures { IfOk result (λ copy. copy ≡ pairs.now) }
{
    let mut copies = Vec::with_capacity(alloc, pairs.len())?;
    for pair in pairs.as_slice() {
        copies.push((pair.0.copy(alloc)?, copy_datum(alloc, &pair.1)?))?;
    }
    Ok(List::from_vec(copies))
}
