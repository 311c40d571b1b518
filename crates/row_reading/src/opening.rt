//! A file's blocks, and its schema.

ghost use Rattle.std.specs.Prelude.{◌≡◌, ◌≤◌, length, IfOk};
ghost use Rattle.words.specs.Reading.{Gives, map_refusal};
ghost use Rattle.avro_container.specs.Header.{schema_key, bound_to as value_of};
ghost use Rattle.avro_container.specs.Container.{container_at};
ghost use Rattle.stored_rows.specs.Refusal.{is_memory, container_refusal, schema_refusal};
ghost use Rattle.row_reading.specs.File.{schema_in, opened};

use avro_container::{ContainerRefusal, Walk, open_walk};
use avro_schema::{SchemaRefusal, read_schema};
use limits::Which;
use schema_tree::Schema;
use std::alloc::Global;
use stored_rows::RowRefusal;

/// The file's blocks, to be borrowed from the first one on, and its schema. The whole framing is
/// checked before the schema is read. Avro spec, "Object Container Files".
#[tactic(auto, unfolding(crate::specs::File::opened))]
pub fn open_file(alloc: Global, bytes: &[u8]) -> Result<(Walk<'_>, Schema), RowRefusal>
    ensures exact { Gives is_memory (λ file. (file.0.whole, file.1)) result (opened bytes.now) }
    ensures start { IfOk result (λ file. file.0.left ≡ file.0.whole.blocks) }
    ensures few { IfOk result (λ file. length file.0.whole.blocks ≤ length bytes.now) }
{
    let walk = open_blocks(alloc, bytes)?;
    let schema = schema_of(alloc, &walk)?;
    Ok((walk, schema))
}

/// The container of the bytes, opened for its blocks.
fn open_blocks(alloc: Global, bytes: &[u8]) -> Result<Walk<'_>, RowRefusal>
    ensures exact { Gives is_memory (λ walk. walk.whole) result
        (map_refusal container_refusal (container_at bytes.now)) }
    ensures start { IfOk result (λ walk. walk.left ≡ walk.whole.blocks) }
    ensures few { IfOk result (λ walk. length walk.whole.blocks ≤ length bytes.now) }
{
    match open_walk(alloc, bytes) {
        Ok(walk) => Ok(walk),
        Err(refusal) => Err(container_refusal(refusal)),
    }
}

/// What a refusal of the container is called.
fn container_refusal(refusal: ContainerRefusal) -> RowRefusal
    ensures { result ≡ container_refusal refusal }
{
    match refusal {
        ContainerRefusal::Limit { found } => RowRefusal::Limit {
            which: Which::Object,
            found,
        },
        ContainerRefusal::Memory => RowRefusal::Memory,
        refusal => RowRefusal::Container(refusal),
    }
}

/// The schema that the header binds.
fn schema_of(alloc: Global, walk: &Walk<'_>) -> Result<Schema, RowRefusal>
    ensures exact { Gives is_memory (λ schema. schema) result
        (schema_in (value_of walk.now.whole.meta schema_key)) }
{
    // Each header that was read binds one.
    let text = walk.bound_to("avro.schema").unwrap_or(&[]);
    match read_schema(alloc, text) {
        Ok(schema) => Ok(schema),
        Err(refusal) => Err(schema_refusal(refusal)),
    }
}

/// What a refusal of the schema is called.
fn schema_refusal(refusal: SchemaRefusal) -> RowRefusal
    ensures { result ≡ schema_refusal refusal }
{
    match refusal {
        SchemaRefusal::Memory => RowRefusal::Memory,
        refusal => RowRefusal::Schema(refusal),
    }
}
