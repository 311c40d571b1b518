//! The text of the current schema.

ghost use Rattle.std.specs.Prelude.{◌≡◌, IfOk};
ghost use Rattle.metadata_reading.specs.Table.{IsTable};
ghost use Rattle.metadata_writing.specs.Printing as spec;

use avro_wire::Bytes;
use metadata_reading::{TableMeta, find_schema, items_at};
use std::alloc::{AllocError, Global};

/// The JSON text of the current schema's object, as `print_meta` prints it. It is empty if there is
/// no such object, which the metadata of a table always has. An `Err` says that memory ran out.
/// Iceberg spec, "Schemas and Data Types".
pub fn schema_text(alloc: Global, meta: &TableMeta) -> Result<Bytes, AllocError>
    ensures text { IsTable meta.now → IfOk result (λ text. text ≡ spec.schema_text meta.now) }
{
    match find_schema(meta.schema_id, items_at(meta.rest.members(), "schemas")) {
        Some(schema) => Ok(Bytes::from_vec(schema.to_vec(alloc)?)),
        None => Ok(Bytes::from_vec(Vec::new(alloc))),
    }
}
