//! The text of the metadata.

ghost use Rattle.std.specs.Prelude.{◌≡◌, Ok, IfOk};
ghost use Rattle.metadata_reading.specs.Reading.{meta_of_text};
ghost use Rattle.metadata_reading.specs.Table.{IsTable};
ghost use Rattle.metadata_writing.specs.Printing as spec;

use crate::fields::{meta_members, uuid_value};
use avro_wire::Bytes;
use metadata_reading::TableMeta;
use serde_json::Value;
use std::alloc::{AllocError, Global};

/// The JSON text of the metadata: compact, with the members of each object in the order of their
/// bytes. An `Err` says that memory ran out. Iceberg spec, "Table Metadata Fields".
pub fn print_meta(alloc: Global, meta: &TableMeta) -> Result<Bytes, AllocError>
    ensures text { IsTable meta.now → IfOk result (λ text. text ≡ spec.meta_text meta.now) }
    // what is printed is read as the metadata
    ensures reads_back { IsTable meta.now
        → IfOk result (λ text. meta_of_text text ≡ Ok meta.now) }
{
    let uuid = uuid_value(alloc, meta.uuid)?;
    let members = meta_members(alloc, meta, uuid)?;
    let value = Value::Object(members);
    let text = value.to_vec(alloc)?;
    Ok(Bytes::from_vec(text))
}
