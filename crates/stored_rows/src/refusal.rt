//! Why the rows of a data file can't be read or written.

ghost use Rattle.std.specs.Prelude.{◌≡◌};
ghost use Rattle.stored_rows.specs.declared.refusal.RowRefusal.TheVariants.{Memory};
ghost use Rattle.stored_rows.specs.RefusalText.{refusal_text};
ghost use Rattle.refusal_text.specs.Told.{told_text, spaced};

use avro_container::ContainerRefusal;
use avro_schema::SchemaRefusal;
use datum_reading::DatumRefusal;
use limits::Which;
use refusal_text::Told;
use std::alloc::{AllocError, AllocFailed};

/// Why the rows of a data file can't be read or written: the first cause in the order of the
/// checks. docs/FORMATS.md, "Data files".
#[derive(Drop)]
pub enum RowRefusal {
    /// The bytes are no container.
    Container(ContainerRefusal),
    /// The container's schema is none.
    Schema(SchemaRefusal),
    /// The file has no field of this required column. `id`: the column's.
    MissingColumn { id: i32 },
    /// A field's type isn't one that the column is read from, or a required column has a null. Of a
    /// file's own columns: a field has no id, or the ids, the names or their number are not those
    /// of a table. `id`: the column's; 0 if there is none.
    Kind { id: i32 },
    /// The bytes of a row spell none. Its places count from the start of the block's bytes.
    Datum(DatumRefusal),
    /// Bytes are left after the last row of the block. Blocks count from 1.
    Rest { block: u64 },
    /// The caller says that the file has another number of rows.
    RecordCount { told: i64, found: i64 },
    /// The first row id plus the number of rows is above 9223372036854775807.
    IdsSpent { first: i64, rows: i64 },
    /// A quantity is above its limit: the bytes of the file, or its rows. `found`: how many there
    /// are; of rows that are read, how many up to the first block that passes the limit.
    Limit { which: Which, found: u64 },
    /// Memory ran out.
    Memory,
}

impl RowRefusal {
    /// The text of the refusal.
    pub fn told(&self) -> Told<'_>
        ensures { told_text result ≡ spaced (refusal_text self.now) }
    {
        match self {
            RowRefusal::Container(refusal) => refusal.told(),
            RowRefusal::Schema(refusal) => refusal.told(),
            RowRefusal::MissingColumn { id } => Told::id("MissingColumn", *id),
            RowRefusal::Kind { id } => Told::id("Kind", *id),
            RowRefusal::Datum(refusal) => refusal.told(),
            RowRefusal::Rest { block } => Told::number("Rest", *block),
            RowRefusal::RecordCount { told, found } => Told::numbers("RecordCount", *told, *found),
            RowRefusal::IdsSpent { first, rows } => Told::numbers("IdsSpent", *first, *rows),
            RowRefusal::Limit { which, found } => Told::number(which.name(), *found),
            RowRefusal::Memory => Told::nothing(),
        }
    }
}

impl From<AllocError> for RowRefusal {
    ghost from_gives = { λ _ e. e ≡ Memory };

    fn from(_e: AllocError) -> RowRefusal {
        RowRefusal::Memory
    }
}

impl<T: Drop> From<AllocFailed<T>> for RowRefusal {
    ghost from_gives = { λ _ e. e ≡ Memory };

    fn from(_e: AllocFailed<T>) -> RowRefusal {
        RowRefusal::Memory
    }
}
