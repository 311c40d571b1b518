//! Why nothing is inherited or assigned.

ghost use Rattle.std.specs.Prelude.{◌≡◌};
ghost use Rattle.lineage_inherit.specs.declared.refusal.InheritRefusal.TheVariants.{Memory};

use avro_wire::Text;
use std::alloc::{AllocError, AllocFailed, Global};

/// Why a table's files have no numbers or ids.
#[derive(Drop)]
pub enum InheritRefusal {
    /// The entry of the file at this path is `Existing` and has no sequence number, and that of its
    /// manifest isn't 0.
    NullSequence { path: Text },
    /// So many rows from this id on pass the greatest id, 2^63 - 1.
    IdsSpent { next: i64, rows: i64 },
    /// Memory ran out.
    Memory,
}

impl From<AllocError> for InheritRefusal {
    ghost from_gives = { λ _ e. e ≡ Memory };

    fn from(_e: AllocError) -> InheritRefusal {
        InheritRefusal::Memory
    }
}

impl<T: Drop> From<AllocFailed<T>> for InheritRefusal {
    ghost from_gives = { λ _ e. e ≡ Memory };

    fn from(_e: AllocFailed<T>) -> InheritRefusal {
        InheritRefusal::Memory
    }
}
