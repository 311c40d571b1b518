//! The heads and the ends of the blocks in which the items of arrays and maps stand.

ghost use Rattle.std.specs.Prelude.{◌≡◌, ◌+◌, ◌<◌, ◌≤◌, length, IfOk, Ok, Err, if◌then◌else◌};
ghost use Rattle.words.specs.Reading.{Gives, never};
ghost use Rattle.datum_reading.specs.Reading.{with_count, is_natural};
ghost use Rattle.datum_reading.specs.Block.{counted_head, sized_head, head_at, closed_at};

use crate::cursor::Cursor;
use crate::primitive::take_long_at;
use crate::refusal::DatumRefusal;

/// The most items of arrays and maps that a value may have.
const MOST_ITEMS: u64 = 16_777_216;

/// The size that a block tells.
#[derive(Clone, Copy)]
pub struct BlockSize {
    /// The size in bytes, as it is reported.
    pub bytes: i64,
    /// Where the size begins, in bytes from 0.
    pub place: usize,
}

/// What comes before the items of a block.
#[derive(Clone, Copy)]
pub struct BlockHead {
    /// How many items the block has. 0: it is the end of the array or the map.
    pub count: u64,
    /// The size. `None`: the block doesn't tell it.
    pub size: Option<BlockSize>,
    /// Where the first item begins.
    pub first: Cursor,
}

/// Counts so many items more. `place`: where their count began.
fn add_count(place: usize, count: u64, at: Cursor) -> Result<Cursor, DatumRefusal>
    ensures exact { Gives never (λ after. after) result (with_count place count at) }
    ensures within { IfOk result (λ after. after.place ≡ at.place) }
{
    if at.items > MOST_ITEMS || count > MOST_ITEMS - at.items {
        return Err(DatumRefusal::Items {
            place: place as u64,
        });
    }
    Ok(Cursor {
        place: at.place,
        items: at.items + count,
    })
}

/// The head of the block at the cursor.
#[tactic(auto, unfolding(crate::specs::Block::head_at))]
pub fn take_head(input: &[u8], at: Cursor) -> Result<BlockHead, DatumRefusal>
    requires { at.place ≤ length input.now }
    ensures exact { Gives never (λ head. head) result (head_at input.now at) }
    ensures within { IfOk result (λ head.
        (at.place < head.first.place) × (head.first.place ≤ length input.now)) }
{
    let (count, behind) = take_long_at(input, at)?;
    if count < 0 {
        take_sized_head(at.place, count.unsigned_abs(), input, behind)
    } else {
        take_counted_head(at.place, count as u64, behind)
    }
}

/// The head of a block that tells its count alone, which begins at `place`.
fn take_counted_head(place: usize, count: u64, at: Cursor) -> Result<BlockHead, DatumRefusal>
    ensures exact { Gives never (λ head. head) result (counted_head place count at) }
    ensures within { IfOk result (λ head. head.first.place ≡ at.place) }
{
    if count == 0 {
        return Ok(BlockHead {
            count,
            size: None,
            first: at,
        });
    }
    let first = add_count(place, count, at)?;
    Ok(BlockHead {
        count,
        size: None,
        first,
    })
}

/// The head of a block that tells its count, which begins at `place`, and then its size.
#[tactic(auto, unfolding(crate::specs::Block::sized_head))]
fn take_sized_head(
    place: usize,
    count: u64,
    input: &[u8],
    at: Cursor,
) -> Result<BlockHead, DatumRefusal>
    requires { at.place ≤ length input.now }
    ensures exact { Gives never (λ head. head) result (sized_head place count input.now at) }
    ensures within { IfOk result (λ head.
        (at.place < head.first.place) × (head.first.place ≤ length input.now)) }
{
    let size_at = add_count(place, count, at)?;
    let (bytes, first) = take_long_at(input, size_at)?;
    Ok(BlockHead {
        count,
        size: Some(BlockSize {
            bytes,
            place: size_at.place,
        }),
        first,
    })
}

/// Whether the items of the block, which end at the cursor, have the size that it tells.
pub fn check_size(head: &BlockHead, after: Cursor) -> Result<(), DatumRefusal>
    requires { head.now.first.place ≤ after.place }
    ensures { Gives never (λ _. after) result (closed_at head.now after) }
{
    match head.size {
        None => Ok(()),
        Some(size) => check_bytes(size, after.place - head.first.place),
    }
}

/// Whether `count` bytes are the size that a block tells.
fn check_bytes(size: BlockSize, many: usize) -> Result<(), DatumRefusal>
    ensures { result
        ≡ (if is_natural size.bytes many then Ok tt else Err (DatumRefusal.Size size.place)) }
{
    if size.bytes >= 0 && size.bytes as u64 == many as u64 {
        return Ok(());
    }
    Err(DatumRefusal::Size {
        place: size.place as u64,
    })
}
