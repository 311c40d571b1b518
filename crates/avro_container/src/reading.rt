//! A container as plain data, from its bytes.

ghost use Rattle.std.specs.Prelude.{◌≡◌, ◌≤◌, length, Ok, IfOk};
ghost use Rattle.words.specs.Reading.{Gives};
ghost use Rattle.avro_container.specs.Refusal.{is_memory};
ghost use Rattle.avro_container.specs.Container.{most_bytes, container_at};
ghost use Rattle.avro_container.specs.Format.{IsContainer};

use crate::container::{Block, Blocks, Container};
use crate::refusal::ContainerRefusal;
use crate::walk::{Walk, open_walk};
use avro_wire::Bytes;
use sqlite_items::Items;
use std::alloc::{AllocError, Global};

/// The container that the bytes are, all of them, or the first refusal in their order.
/// Avro spec, "Object Container Files".
pub fn read(alloc: Global, input: &[u8]) -> Result<Container, ContainerRefusal>
    // The bytes are the file of what is read, and each file within the limit is read.
    ensures found { IfOk result (λ container. IsContainer input.now container) }
    ensures only { (container : Container) → IsContainer input.now container
        → length input.now ≤ most_bytes → Gives is_memory (λ c. c) result (Ok container) }
    // Which refusal comes.
    ensures exact { Gives is_memory (λ container. container) result (container_at input.now) }
{
    container_of(alloc, input)
}

/// What `read` answers.
fn container_of(alloc: Global, input: &[u8]) -> Result<Container, ContainerRefusal>
    ensures exact { Gives is_memory (λ container. container) result (container_at input.now) }
{
    let mut walk = open_walk(alloc, input)?;
    let blocks = blocks_of(alloc, &mut walk)?;
    let meta = walk.meta(alloc)?;
    let sync = walk.sync();
    Ok(Container { meta, sync, blocks })
}

/// The blocks that the walk has left, in memory of their own. An `Err` says that memory ran out.
fn blocks_of(alloc: Global, walk: &mut Walk<'_>) -> Result<Blocks, AllocError>
    ensures blocks { IfOk result (λ blocks. blocks ≡ walk.old.left) }
    ensures whole { walk.new.whole ≡ walk.old.whole }
{
    let mut blocks = Items::new(alloc);
    while let Some((count, bytes)) = walk.next() {
        let bytes = Bytes::from_slice(alloc, bytes)?;
        blocks.push(Block { count, bytes })?;
    }
    Ok(blocks)
}
