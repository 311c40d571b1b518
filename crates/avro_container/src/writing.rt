//! The bytes of a container.

ghost use Rattle.std.specs.Prelude.{◌≡◌, ◌≤◌, ◌++◌, length, All, Ok, IfOk, OnOk};
ghost use Rattle.std.specs.List.{flat_map};
ghost use Rattle.avro_wire.specs.Writing.{list_text};
ghost use Rattle.avro_container.specs.Container.{most_bytes, container_at};
ghost use Rattle.avro_container.specs.Format.{IsContainer};
ghost use Rattle.avro_container.specs.Writing.{pair_text, block_text, container_text, HasTextKey, HasLongCount, IsWritable};

use crate::container::{Block, Container};
use crate::header::MAGIC;
use avro_wire::{Bytes, Text, put_bytes, put_long};
use std::alloc::{AllocError, Global};

/// The file of the container. No container is refused: one that `read` would refuse is written too.
/// An `Err` says that memory ran out. Avro spec, "Object Container Files".
#[tactic(auto, unfolding(crate::specs::Writing::container_text))]
pub fn write(alloc: Global, value: &Container) -> Result<Bytes, AllocError>
    ensures text { IfOk result (λ bytes. bytes ≡ container_text value.now) }
    // A container that has a file has this one.
    ensures found { IfOk result (λ bytes.
        IsWritable value.now → IsContainer bytes value.now) }
    // It is read as the container, where it is within the limit of a file.
    ensures reads_back { IfOk result (λ bytes. IsWritable value.now
        → length bytes ≤ most_bytes → container_at bytes ≡ Ok value.now) }
{
    let mut out = Vec::new(alloc);
    out.extend_from_slice(&MAGIC)?;
    put_map(&mut out, value.meta.as_slice())?;
    out.extend_from_slice(&value.sync)?;
    put_blocks(&mut out, &value.sync, value.blocks.as_slice())?;
    Ok(Bytes::from_vec(out))
}

/// Puts the map of the header, in one block. Keys are text.
fn put_map(out: &mut Vec<u8>, pairs: &[(Text, Bytes)]) -> Result<(), AllocError>
    ensures ok { OnOk result (out.new.items ≡ out.old.items ++ list_text pair_text pairs.now) }
    ensures texts { OnOk result (All HasTextKey pairs.now) }
{
    if pairs.is_empty() {
        return put_long(out, 0);
    }
    put_long(out, pairs.len() as i64)?;
    put_pairs(out, pairs)?;
    put_long(out, 0)
}

/// Puts the pairs, in order. Keys are text.
fn put_pairs(out: &mut Vec<u8>, pairs: &[(Text, Bytes)]) -> Result<(), AllocError>
    ensures ok { OnOk result (out.new.items ≡ out.old.items ++ flat_map pair_text pairs.now) }
    ensures texts { OnOk result (All HasTextKey pairs.now) }
{
    for pair in pairs {
        put_pair(out, pair)?;
    }
    Ok(())
}

/// Puts a key and what it is bound to. The key is text.
fn put_pair(out: &mut Vec<u8>, pair: &(Text, Bytes)) -> Result<(), AllocError>
    ensures ok { OnOk result (out.new.items ≡ out.old.items ++ pair_text pair.now) }
    ensures text { HasTextKey pair.now }
{
    put_bytes(out, pair.0.as_str().as_bytes())?;
    put_bytes(out, pair.1.as_slice())
}

/// Puts the blocks, in order. Counts are numbers of 64 bits.
fn put_blocks(out: &mut Vec<u8>, sync: &[u8; 16], blocks: &[Block]) -> Result<(), AllocError>
    ensures ok { OnOk result
        (out.new.items ≡ out.old.items ++ flat_map (block_text sync.now) blocks.now) }
    ensures counts { OnOk result (All HasLongCount blocks.now) }
{
    for block in blocks {
        put_block(out, sync, block)?;
    }
    Ok(())
}

/// Puts a block: its count, its bytes after their number, and the marker. The count is a number
/// of 64 bits.
fn put_block(out: &mut Vec<u8>, sync: &[u8; 16], block: &Block) -> Result<(), AllocError>
    ensures ok { OnOk result (out.new.items ≡ out.old.items ++ block_text sync.now block.now) }
    ensures count { OnOk result (HasLongCount block.now) }
{
    put_long(out, block.count)?;
    put_bytes(out, block.bytes.as_slice())?;
    out.extend_from_slice(sync)
}
