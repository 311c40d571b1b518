//! Why a schema has no columns that rowline can use.

ghost use Rattle.std.specs.Prelude.{◌≡◌};
ghost use Rattle.schema_columns.specs.declared.refusal.ColumnRefusal.TheVariants.{Memory};
ghost use Rattle.schema_columns.specs.Refusal.{of_fault};

use avro_wire::Text;
use json_members::Fault;
use std::alloc::{AllocError, AllocFailed};

/// Why a schema has no columns that rowline can use: the first cause in the order of the checks.
/// docs/FORMATS.md, "Table metadata".
#[derive(Drop)]
pub enum ColumnRefusal {
    /// The schema has no list `fields` of objects with an `id`, a `name` and `required`; or these
    /// are not the columns of a table.
    Fields,
    /// The first column whose type is none of the nine, or that has a default value.
    ColumnType { name: Text },
    /// Memory ran out.
    Memory,
}

impl From<AllocError> for ColumnRefusal {
    ghost from_gives = { λ _ e. e ≡ Memory };

    fn from(_e: AllocError) -> ColumnRefusal {
        ColumnRefusal::Memory
    }
}

impl<T: Drop> From<AllocFailed<T>> for ColumnRefusal {
    ghost from_gives = { λ _ e. e ≡ Memory };

    fn from(_e: AllocFailed<T>) -> ColumnRefusal {
        ColumnRefusal::Memory
    }
}

impl From<Fault> for ColumnRefusal {
    ghost use Rattle.schema_columns.specs.Refusal.{of_fault};

    ghost from_gives = { λ fault e. e ≡ of_fault fault };

    fn from(fault: Fault) -> ColumnRefusal {
        match fault {
            Fault::Missing { .. } | Fault::Wrong { .. } => ColumnRefusal::Fields,
            Fault::Memory => ColumnRefusal::Memory,
        }
    }
}
