//! Why a text is refused as table metadata.

ghost use Rattle.std.specs.Prelude.{◌≡◌};
ghost use Rattle.std.specs.Bool.{OnFalse};
ghost use Rattle.metadata_reading.specs.declared.refusal.MetaRefusal.TheVariants.{Memory, Wrong as IsWrong};
ghost use Rattle.metadata_reading.specs.Refusal.{is_memory, of_fault, of_snapshots, of_columns};

use avro_wire::Text;
use json_members::Fault;
use limits::Which;
use schema_columns::ColumnRefusal;
use snapshot_entries::SnapshotRefusal;
use std::alloc::{AllocError, AllocFailed, Global};

/// Why a text is refused as table metadata: the first cause in the order of the checks.
/// docs/FORMATS.md, "Table metadata".
#[derive(Drop)]
pub enum MetaRefusal {
    /// The text is not UTF-8, or no JSON, or nested deeper than 127.
    NotJson,
    /// Some number isn't a whole number of 64 bits, with or without a sign.
    Fraction,
    /// The metadata, or a snapshot, needs the member and lacks it.
    Missing { member: Text },
    /// The member's value does not have its form. An empty name: the text is no object. `fields`:
    /// the columns of the current schema.
    Wrong { member: Text },
    /// The version of the format is `n`, which is neither 2 nor 3.
    Version { n: i64 },
    /// The table or a snapshot has an encryption key.
    Encrypted,
    /// A partition spec has a field.
    Partitioned,
    /// The first column of the current schema whose type is none of the nine, or that has a default
    /// value.
    ColumnType { name: Text },
    /// The snapshot with this id names no manifest list.
    NoManifestList { id: i64 },
    /// There are more snapshots, or the path of a manifest list has more bytes, than the limit.
    /// `found`: how many.
    Limit { which: Which, found: u64 },
    /// Memory ran out.
    Memory,
}

impl From<AllocError> for MetaRefusal {
    ghost from_gives = { λ _ e. e ≡ Memory };

    fn from(_e: AllocError) -> MetaRefusal {
        MetaRefusal::Memory
    }
}

impl<T: Drop> From<AllocFailed<T>> for MetaRefusal {
    ghost from_gives = { λ _ e. e ≡ Memory };

    fn from(_e: AllocFailed<T>) -> MetaRefusal {
        MetaRefusal::Memory
    }
}

impl From<Fault> for MetaRefusal {
    ghost use Rattle.metadata_reading.specs.Refusal.{of_fault};

    ghost from_gives = { λ fault e. e ≡ of_fault fault };

    fn from(fault: Fault) -> MetaRefusal {
        match fault {
            Fault::Missing { member } => MetaRefusal::Missing { member },
            Fault::Wrong { member } => MetaRefusal::Wrong { member },
            Fault::Memory => MetaRefusal::Memory,
        }
    }
}

impl From<SnapshotRefusal> for MetaRefusal {
    ghost use Rattle.metadata_reading.specs.Refusal.{of_snapshots};

    ghost from_gives = { λ refusal e. e ≡ of_snapshots refusal };

    fn from(refusal: SnapshotRefusal) -> MetaRefusal {
        match refusal {
            SnapshotRefusal::Missing { member } => MetaRefusal::Missing { member },
            SnapshotRefusal::Wrong { member } => MetaRefusal::Wrong { member },
            SnapshotRefusal::NoManifestList { id } => MetaRefusal::NoManifestList { id },
            SnapshotRefusal::Snapshots { found } => MetaRefusal::Limit {
                which: Which::Snapshots,
                found,
            },
            SnapshotRefusal::Path { found } => MetaRefusal::Limit {
                which: Which::Path,
                found,
            },
            SnapshotRefusal::Memory => MetaRefusal::Memory,
        }
    }
}

/// The refusal of the current schema's columns.
pub fn column_refusal(alloc: Global, refusal: ColumnRefusal) -> MetaRefusal
    ensures { OnFalse (is_memory result) (result ≡ of_columns refusal) }
{
    match refusal {
        ColumnRefusal::Fields => wrong(alloc, "fields"),
        ColumnRefusal::ColumnType { name } => MetaRefusal::ColumnType { name },
        ColumnRefusal::Memory => MetaRefusal::Memory,
    }
}

/// The refusal of a member whose value does not have its form.
pub fn wrong(alloc: Global, name: &str) -> MetaRefusal
    ensures { OnFalse (is_memory result) (result ≡ IsWrong name.now) }
{
    match Text::from_str(alloc, name) {
        Ok(member) => MetaRefusal::Wrong { member },
        Err(_) => MetaRefusal::Memory,
    }
}
