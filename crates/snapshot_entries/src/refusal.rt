//! Why a list of snapshots is refused.

ghost use Rattle.std.specs.Prelude.{◌≡◌};
ghost use Rattle.snapshot_entries.specs.declared.refusal.SnapshotRefusal.TheVariants.{Memory};
ghost use Rattle.snapshot_entries.specs.Refusal.{of_fault};

use avro_wire::Text;
use json_members::Fault;
use std::alloc::{AllocError, AllocFailed};

/// Why a list of snapshots is refused: the first cause in the order of the checks.
/// docs/FORMATS.md, "Table metadata".
#[derive(Drop)]
pub enum SnapshotRefusal {
    /// A snapshot needs the member, and lacks it.
    Missing { member: Text },
    /// The member's value does not have its form. `snapshots`: an item is no object, or has the id
    /// of an earlier one. `sequence-number`: it may also be above the table's last one.
    Wrong { member: Text },
    /// The snapshot names no manifest list.
    NoManifestList { id: i64 },
    /// There are more than 10,000 snapshots. `found`: how many.
    Snapshots { found: u64 },
    /// The path of a manifest list has more than 1,024 bytes. `found`: how many.
    Path { found: u64 },
    /// Memory ran out.
    Memory,
}

impl From<AllocError> for SnapshotRefusal {
    ghost from_gives = { λ _ e. e ≡ Memory };

    fn from(_e: AllocError) -> SnapshotRefusal {
        SnapshotRefusal::Memory
    }
}

impl<T: Drop> From<AllocFailed<T>> for SnapshotRefusal {
    ghost from_gives = { λ _ e. e ≡ Memory };

    fn from(_e: AllocFailed<T>) -> SnapshotRefusal {
        SnapshotRefusal::Memory
    }
}

impl From<Fault> for SnapshotRefusal {
    ghost use Rattle.snapshot_entries.specs.Refusal.{of_fault};

    ghost from_gives = { λ fault e. e ≡ of_fault fault };

    fn from(fault: Fault) -> SnapshotRefusal {
        match fault {
            Fault::Missing { member } => SnapshotRefusal::Missing { member },
            Fault::Wrong { member } => SnapshotRefusal::Wrong { member },
            Fault::Memory => SnapshotRefusal::Memory,
        }
    }
}
