//! Reading the magic bytes, the header's map and what it has to have.

ghost use Rattle.std.specs.Prelude.{◌≡◌, ◌+◌, ◌<◌, ◌≤◌, ◌^◌, length, nat_lt, IfOk};
ghost use Rattle.words.specs.Reading.{Gives, never};
ghost use Rattle.avro_container.specs.Refusal.{is_memory, header_refusal as refusal_in_header};
ghost use Rattle.avro_container.specs.Header.{magic_at, map_number_at, item_at, key_at, pair_at, pairs_at, counted_at, sized_at, map_block_at, map_at, most_pairs, checked, part_at, header_at};
ghost use Rattle.avro_container.specs.Pairs.{with_pair, pair_there, pairs_there};

use crate::pairs::Pairs;
use crate::refusal::ContainerRefusal;
use avro_wire::{Bytes, WireRefusal, take_bytes, take_long, text_of};
use std::alloc::Global;

/// `Obj` and the format's version.
pub const MAGIC: [u8; 4] = [0x4f, 0x62, 0x6a, 1];

/// The most pairs that a header may have.
const MOST_PAIRS: u64 = 16_777_216;

/// The places at which the header's pairs begin, and where the marker behind them begins.
#[tactic(auto, unfolding(crate::specs::Header::header_at))]
pub fn take_header(alloc: Global, input: &[u8]) -> Result<(Vec<u32>, usize), ContainerRefusal>
    requires { length input.now < 2 ^ 32 }
    ensures exact { Gives is_memory (λ header. (pairs_there input.now header.0.items, header.1))
        result (header_at input.now) }
    ensures within { IfOk result (λ header. header.1 ≤ length input.now) }
{
    let start = take_magic(input)?;
    let mut pairs = Pairs::new(alloc, input);
    let after = take_map(&mut pairs, input, start)?;
    check(alloc, &pairs, after)?;
    Ok((pairs.into_places(), after))
}

/// The next `count` bytes, whole: where they end.
#[tactic(auto, unfolding(crate::specs::Header::part_at))]
pub fn take_part(input: &[u8], place: usize, count: u64) -> Result<usize, ContainerRefusal>
    requires { place ≤ length input.now }
    ensures exact { Gives never (λ after. after) result (part_at count input.now place) }
    ensures within { IfOk result (λ after.
        (after ≡ place + count) × (after ≤ length input.now)) }
{
    if ((input.len() - place) as u64) < count {
        return Err(ContainerRefusal::Short {
            place: place as u64,
        });
    }
    Ok(place + count as usize)
}

/// Where the header's map begins.
#[tactic(auto, unfolding(crate::specs::Header::magic_at))]
fn take_magic(input: &[u8]) -> Result<usize, ContainerRefusal>
    ensures exact { Gives is_memory (λ after. after) result (magic_at input.now) }
    ensures within { IfOk result (λ after. after ≤ length input.now) }
{
    if input.len() < 4 {
        if input == &MAGIC[..input.len()] {
            return Err(ContainerRefusal::Short { place: 0 });
        }
        return Err(ContainerRefusal::Magic);
    }
    if input[..4] != MAGIC[..] {
        return Err(ContainerRefusal::Magic);
    }
    Ok(4)
}

/// The map's pairs: the place after it.
fn take_map<'a>(
    pairs: &mut Pairs<'a>,
    input: &'a [u8],
    place: usize,
) -> Result<usize, ContainerRefusal>
    requires within { place ≤ length input.now }
    requires input { pairs.old.input ≡ input.now }
    ensures exact { Gives is_memory (λ after. (pairs.new.pairs, after)) result
        (map_at (length input.now) pairs.old.pairs input.now place) }
    ensures within { IfOk result (λ after. (place ≤ after) × (after ≤ length input.now)) }
    ensures input { pairs.new.input ≡ input.now }
{
    let mut at = place;
    for _ in 0..input.len() {
        let (count, start) = take_map_number(input, at)?;
        if count == 0 {
            return Ok(start);
        }
        at = take_map_block(pairs, count, input, at, start)?;
    }
    Ok(at)
}

/// A number of the map, and the place after it.
#[tactic(auto, unfolding(crate::specs::Header::map_number_at))]
fn take_map_number(input: &[u8], place: usize) -> Result<(i64, usize), ContainerRefusal>
    requires { place ≤ length input.now }
    ensures exact { Gives is_memory (λ taken. taken) result (map_number_at input.now place) }
    ensures within { IfOk result (λ taken. (place < taken.1) × (taken.1 ≤ length input.now)) }
{
    match take_long(input, place) {
        Ok(taken) => Ok(taken),
        Err(refusal) => Err(header_refusal(refusal)),
    }
}

/// What a refused number or length of the map is called.
fn header_refusal(refusal: WireRefusal) -> ContainerRefusal
    ensures { result ≡ refusal_in_header refusal }
{
    match refusal {
        WireRefusal::Short { place } => ContainerRefusal::Short { place },
        WireRefusal::TooLong { place } => ContainerRefusal::Header { place },
    }
}

/// The block of the map whose count, which is not 0, stood at `place`: the place after it.
#[tactic(auto, unfolding(crate::specs::Header::map_block_at))]
fn take_map_block<'a>(
    pairs: &mut Pairs<'a>,
    count: i64,
    input: &'a [u8],
    place: usize,
    start: usize,
) -> Result<usize, ContainerRefusal>
    requires within { start ≤ length input.now }
    requires input { pairs.old.input ≡ input.now }
    ensures exact { Gives is_memory (λ after. (pairs.new.pairs, after)) result
        (map_block_at place pairs.old.pairs input.now (count, start)) }
    ensures within { IfOk result (λ after. (start ≤ after) × (after ≤ length input.now)) }
    ensures input { pairs.new.input ≡ input.now }
{
    if count < 0 {
        take_sized(pairs, count.unsigned_abs(), input, place, start)
    } else {
        take_counted(pairs, count as u64, input, place, start)
    }
}

/// The pairs of a block that tells its size, which has to be true: the place after them.
#[tactic(auto, unfolding(crate::specs::Header::sized_at))]
fn take_sized<'a>(
    pairs: &mut Pairs<'a>,
    count: u64,
    input: &'a [u8],
    place: usize,
    start: usize,
) -> Result<usize, ContainerRefusal>
    requires within { start ≤ length input.now }
    requires input { pairs.old.input ≡ input.now }
    ensures exact { Gives is_memory (λ after. (pairs.new.pairs, after)) result
        (sized_at place count pairs.old.pairs input.now start) }
    ensures within { IfOk result (λ after. (start ≤ after) × (after ≤ length input.now)) }
    ensures input { pairs.new.input ≡ input.now }
{
    if are_too_many(pairs, count) {
        return Err(ContainerRefusal::Header {
            place: place as u64,
        });
    }
    let (size, first) = take_map_number(input, start)?;
    let after = take_pairs(pairs, count, input, first)?;
    if size != (after - first) as i64 {
        return Err(ContainerRefusal::Header {
            place: start as u64,
        });
    }
    Ok(after)
}

/// Whether `count` pairs more are too many.
fn are_too_many(pairs: &Pairs<'_>, count: u64) -> bool
    ensures { result ≡ nat_lt most_pairs (length pairs.now.pairs + count) }
{
    let before = pairs.len() as u64;
    before > MOST_PAIRS || count > MOST_PAIRS - before
}

/// `count` more pairs, and the place after them.
fn take_pairs<'a>(
    pairs: &mut Pairs<'a>,
    count: u64,
    input: &'a [u8],
    place: usize,
) -> Result<usize, ContainerRefusal>
    requires within { place ≤ length input.now }
    requires input { pairs.old.input ≡ input.now }
    ensures exact { Gives is_memory (λ after. (pairs.new.pairs, after)) result
        (pairs_at count pairs.old.pairs input.now place) }
    ensures within { IfOk result (λ after. (place ≤ after) × (after ≤ length input.now)) }
    ensures input { pairs.new.input ≡ input.now }
{
    let mut at = place;
    for _ in 0..count {
        at = take_pair(pairs, input, at)?;
    }
    Ok(at)
}

/// One more pair, and the place after it.
#[tactic(auto, unfolding(crate::specs::Header::pair_at, crate::specs::Header::key_at))]
fn take_pair<'a>(
    pairs: &mut Pairs<'a>,
    input: &'a [u8],
    place: usize,
) -> Result<usize, ContainerRefusal>
    requires within { place ≤ length input.now }
    requires input { pairs.old.input ≡ input.now }
    ensures exact { Gives is_memory (λ after. (pairs.new.pairs, after)) result
        (pair_at pairs.old.pairs input.now place) }
    ensures within { IfOk result (λ after. (place < after) × (after ≤ length input.now)) }
    ensures input { pairs.new.input ≡ input.now }
{
    let (start, end) = take_item(input, place)?;
    let Some(key) = text_of(&input[start..end]) else {
        return Err(ContainerRefusal::Header {
            place: place as u64,
        });
    };
    match take_item(input, end) {
        Ok((_, after)) => add_pair(pairs, key, place, after),
        Err(refusal) => {
            // That the key stood before is told first.
            if pairs.has(key) {
                return Err(ContainerRefusal::Header {
                    place: place as u64,
                });
            }
            Err(refusal)
        }
    }
}

/// Adds the pair that begins at the place, whose key no pair may have: the place after it.
fn add_pair<'a>(
    pairs: &mut Pairs<'a>,
    key: &'a str,
    place: usize,
    after: usize,
) -> Result<usize, ContainerRefusal>
    requires within { place ≤ length pairs.old.input }
    requires key { (pair_there pairs.old.input place).0 ≡ key.now }
    ensures exact { Gives is_memory (λ after. (pairs.new.pairs, after)) result
        (with_pair pairs.old.pairs (pair_there pairs.old.input place) place after) }
    ensures value { IfOk result (λ a. a ≡ after) }
    ensures input { pairs.new.input ≡ pairs.old.input }
{
    if pairs.push(key, place)? {
        return Ok(after);
    }
    Err(ContainerRefusal::Header {
        place: place as u64,
    })
}

/// Where the bytes of a key or a value start, and where they end.
#[tactic(auto, unfolding(crate::specs::Header::item_at))]
pub fn take_item(input: &[u8], place: usize) -> Result<(usize, usize), ContainerRefusal>
    requires { place ≤ length input.now }
    ensures exact { Gives never (λ taken. taken) result (item_at input.now place) }
    ensures within { IfOk result (λ taken.
        (place < taken.0) × (taken.0 ≤ taken.1) × (taken.1 ≤ length input.now)) }
{
    match take_bytes(input, place) {
        Ok(taken) => Ok(taken),
        Err(refusal) => Err(header_refusal(refusal)),
    }
}

/// The pairs of a block whose count stood at `place`: the place after them.
#[tactic(auto, unfolding(crate::specs::Header::counted_at))]
fn take_counted<'a>(
    pairs: &mut Pairs<'a>,
    count: u64,
    input: &'a [u8],
    place: usize,
    start: usize,
) -> Result<usize, ContainerRefusal>
    requires within { start ≤ length input.now }
    requires input { pairs.old.input ≡ input.now }
    ensures exact { Gives is_memory (λ after. (pairs.new.pairs, after)) result
        (counted_at place count pairs.old.pairs input.now start) }
    ensures within { IfOk result (λ after. (start ≤ after) × (after ≤ length input.now)) }
    ensures input { pairs.new.input ≡ input.now }
{
    if are_too_many(pairs, count) {
        return Err(ContainerRefusal::Header {
            place: place as u64,
        });
    }
    take_pairs(pairs, count, input, start)
}

/// Whether the map has what a header needs: `place` is where it ends.
#[tactic(auto, unfolding(crate::specs::Header::checked))]
fn check(alloc: Global, pairs: &Pairs<'_>, place: usize) -> Result<(), ContainerRefusal>
    ensures { Gives is_memory (λ _. (pairs.now.pairs, place)) result
        (checked (pairs.now.pairs, place)) }
{
    if !pairs.has("avro.schema") {
        return Err(ContainerRefusal::Header {
            place: place as u64,
        });
    }
    match pairs.value_of("avro.codec") {
        None => Ok(()),
        Some(name) if name == b"null".as_slice() => Ok(()),
        Some(name) => Err(ContainerRefusal::Codec {
            name: Bytes::from_slice(alloc, name)?,
        }),
    }
}
