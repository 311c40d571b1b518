//! The pairs of a header, kept as the places at which they begin, with distinct keys.

ghost use Rattle.std.specs.Prelude.{◌≡◌, ◌<◌, ◌≤◌, ◌^◌, ◌++◌, ◌∷◌, [], not, length, OnOk, IfOk};
ghost use Rattle.std.specs.Bool.{OnTrue};
ghost use Rattle.std.specs.Option.{option_copied};
ghost use Rattle.avro_container.specs.Header.{has_key, bound_to};
ghost use Rattle.avro_container.specs.Pairs.{item_there as there, text_or_none, pair_there, pairs_there};

use crate::container::Meta;
use crate::header::take_item;
use avro_wire::{Bytes, Text, text_of};
use sqlite_items::Items;
use std::alloc::{AllocError, Global};
use std::collections::BTreeMap;
use std::marker::Model;

/// The pairs so far, in file order. Contracts see the input and the pairs.
///
/// A pair is kept as the place where its key's length begins. Beside the places stands the set of
/// the keys, which are borrowed from the input.
#[derive(Drop)]
pub struct Pairs<'a> {
    input: &'a [u8],
    places: Vec<u32>,
    keys: BTreeMap<&'a str, ()>,
}

impl<'a> Model for Pairs<'a> {
    ghost use Rattle.std.specs.Prelude.{is_some, ℕ, List};
    ghost use Rattle.std.specs.BTreeMap.{get_by};
    ghost use Rattle.std.specs.Cmp.Lexicographic.{slice_cmp};
    ghost use Rattle.std.specs.Ordering.{nat_cmp};
    ghost use Rattle.avro_container.specs.Pairs.{Found, IsKnown, pairs_there};

    ghost Value = { Found };

    ghost view = { λ p. record {
      input = p.input.now;
      pairs = pairs_there p.input.now p.places.items;
    } };

    ghost invariant = { λ p. IsKnown p.input.now (pairs_there p.input.now p.places.items)
        (λ key. is_some (get_by (λ k. slice_cmp nat_cmp key k.now) p.keys)) };
}

impl<'a> Pairs<'a> {
    /// No pairs of the input.
    pub fn new(alloc: Global, input: &'a [u8]) -> Pairs<'a>
        requires { length input.now < 2 ^ 32 }
        ensures input { result.input ≡ input.now }
        ensures none { result.pairs ≡ [] }
    {
        Pairs {
            input,
            places: Vec::new(alloc),
            keys: BTreeMap::new(alloc),
        }
    }

    /// How many pairs there are.
    pub fn len(&self) -> usize
        ensures { result ≡ length self.now.pairs }
    {
        self.places.len()
    }

    /// Whether some pair has the key.
    pub fn has(&self, key: &str) -> bool
        ensures { result ≡ has_key self.now.pairs key.now }
    {
        self.keys.contains_key(key)
    }

    /// Adds the pair that begins at the place, if no pair has its key, and answers whether it did.
    /// An `Err` says that memory ran out.
    pub fn push(&mut self, key: &'a str, place: usize) -> Result<bool, AllocError>
        requires within { place ≤ length self.old.input }
        requires key { (pair_there self.old.input place).0 ≡ key.now }
        ensures new { IfOk result (λ new. new ≡ not (has_key self.old.pairs key.now)) }
        ensures pairs { IfOk result (λ new. OnTrue new
            (self.new.pairs ≡ self.old.pairs ++ pair_there self.old.input place ∷ [])) }
        ensures input { self.new.input ≡ self.old.input }
    {
        // Room for the place comes first, so that nothing fails once the key is among the keys.
        self.places.reserve(1)?;
        let old = self.keys.insert(key, ())?;
        if old.is_some() {
            return Ok(false);
        }
        self.places.push_reserved(place as u32);
        Ok(true)
    }

    /// What the key is bound to. `None`: no pair has the key.
    pub fn value_of(&self, key: &str) -> Option<&'a [u8]>
        ensures { option_copied result ≡ bound_to self.now.pairs key.now }
    {
        value_there(self.input, self.places.as_slice(), key)
    }

    /// The places alone, in file order.
    pub fn into_places(self) -> Vec<u32>
        ensures { pairs_there self.entry.input result.items ≡ self.entry.pairs }
    {
        let Pairs {
            input: _,
            places,
            keys: _,
        } = self;
        places
    }
}

/// What the key is bound to among the pairs that begin at the places. `None`: no pair has the key.
pub fn value_there<'a>(input: &'a [u8], places: &[u32], key: &str) -> Option<&'a [u8]>
    ensures { option_copied result ≡ bound_to (pairs_there input.now places.now) key.now }
{
    for place in places {
        let (found, value) = pair_there(input, *place as usize);
        if found == key {
            return Some(value);
        }
    }
    None
}

/// The pairs that begin at the places, in memory of their own. An `Err` says that memory ran out.
pub fn copies(alloc: Global, input: &[u8], places: &[u32]) -> Result<Meta, AllocError>
    ensures { IfOk result (λ meta. meta ≡ pairs_there input.now places.now) }
{
    let mut meta = Items::new(alloc);
    for place in places {
        meta.push(copy_of(alloc, input, *place as usize)?)?;
    }
    Ok(meta)
}

/// The pair that begins at the place, in memory of its own. An `Err` says that memory ran out.
fn copy_of(alloc: Global, input: &[u8], place: usize) -> Result<(Text, Bytes), AllocError>
    ensures { IfOk result (λ pair. pair ≡ pair_there input.now place) }
{
    let (key, value) = pair_there(input, place);
    Ok((
        Text::from_str(alloc, key)?,
        Bytes::from_slice(alloc, value)?,
    ))
}

/// The pair that begins at the place.
#[tactic(auto, unfolding(crate::specs::Pairs::pair_behind))]
fn pair_there(input: &[u8], place: usize) -> (&str, &[u8])
    ensures { (result.0.now, result.1.now) ≡ pair_there input.now place }
{
    let (start, end) = item_there(input, place);
    let key = text_or_none(&input[start..end]);
    let (start, end) = item_there(input, end);
    (key, &input[start..end])
}

/// The bytes if they are text.
fn text_or_none(bytes: &[u8]) -> &str
    ensures { result.now ≡ text_or_none bytes.now }
{
    match text_of(bytes) {
        Some(text) => text,
        None => "",
    }
}

/// Where a key or a value lies whose length begins at the place. At 0: none does.
#[tactic(auto, unfolding(crate::specs::Pairs::item_there))]
fn item_there(input: &[u8], place: usize) -> (usize, usize)
    ensures exact { result ≡ there input.now place }
    ensures within { (result.0 ≤ result.1) × (result.1 ≤ length input.now) }
{
    if place > input.len() {
        return (0, 0);
    }
    match take_item(input, place) {
        Ok(taken) => taken,
        Err(_) => (0, 0),
    }
}
