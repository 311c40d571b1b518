//! Reading one block: a count, a size, that many bytes, and the header's marker.

ghost use Rattle.std.specs.Prelude.{◌≡◌, ◌<◌, ◌≤◌, ◌^◌, length, IfOk};
ghost use Rattle.words.specs.Reading.{Gives, never};
ghost use Rattle.avro_container.specs.Refusal.{block_refusal as refusal_in_block};
ghost use Rattle.avro_container.specs.Block.{count_at, frame_at};

use crate::header::take_part;
use crate::refusal::ContainerRefusal;
use avro_wire::{WireRefusal, take_long};

/// The bytes of a marker.
pub const SYNC_BYTES: u64 = 16;

/// Where the objects of a block lie.
#[derive(Clone, Copy)]
pub struct Frame {
    /// How many objects there are.
    pub count: u64,
    pub start: usize,
    pub end: usize,
}

/// The block at `place`, and where the next one begins.
#[tactic(auto, unfolding(crate::specs::Block::frame_at))]
pub fn take_frame(
    sync: &[u8; 16],
    block: u64,
    input: &[u8],
    place: usize,
) -> Result<(Frame, usize), ContainerRefusal>
    requires { place ≤ length input.now }
    ensures exact { Gives never (λ taken. taken) result
        (frame_at sync.now block input.now place) }
    ensures within { IfOk result (λ taken. (place < taken.1) × (taken.1 ≤ length input.now)) }
    ensures frame { IfOk result (λ taken. (taken.0.start ≤ taken.0.end)
        × (taken.0.end ≤ length input.now) × (taken.0.count < 2 ^ 63)) }
    ensures inside { IfOk result (λ taken. (place ≤ taken.0.start) × (taken.0.end ≤ taken.1)) }
{
    let (count, after) = take_count(block, input, place)?;
    let (size, start) = take_count(block, input, after)?;
    let end = take_part(input, start, size)?;
    let after = take_part(input, end, SYNC_BYTES)?;
    if &input[end..after] != sync.as_slice() {
        return Err(ContainerRefusal::Sync { block });
    }
    Ok((Frame { count, start, end }, after))
}

/// The count or the size of a block, and the place after it.
#[tactic(auto, unfolding(crate::specs::Block::count_at))]
fn take_count(block: u64, input: &[u8], place: usize) -> Result<(u64, usize), ContainerRefusal>
    requires { place ≤ length input.now }
    ensures exact { Gives never (λ taken. taken) result (count_at block input.now place) }
    ensures within { IfOk result (λ taken. (place < taken.1) × (taken.1 ≤ length input.now)) }
    ensures fits { IfOk result (λ taken. taken.0 < 2 ^ 63) }
{
    match take_long(input, place) {
        Ok((count, after)) => {
            if count < 0 {
                return Err(ContainerRefusal::Form { block });
            }
            Ok((count as u64, after))
        }
        Err(refusal) => Err(block_refusal(block, refusal)),
    }
}

/// What a refused count or size of the block is called.
fn block_refusal(block: u64, refusal: WireRefusal) -> ContainerRefusal
    ensures { result ≡ refusal_in_block block refusal }
{
    match refusal {
        WireRefusal::Short { place } => ContainerRefusal::Short { place },
        WireRefusal::TooLong { .. } => ContainerRefusal::Form { block },
    }
}
