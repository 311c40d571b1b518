//! The encryption keys of snapshots.

ghost use Rattle.std.specs.Prelude.{◌≡◌};
ghost use Rattle.snapshot_entries.specs.Keys as spec;

use crate::snapshot::Snapshot;
use json_members::member;

/// Whether some snapshot carries a `key-id` that isn't null: its manifest list is encrypted.
/// Iceberg spec, "Snapshots".
pub fn has_keys(snapshots: &[Snapshot]) -> bool
    ensures { result ≡ spec.has_keys snapshots.now }
{
    for snapshot in snapshots {
        if has_key(snapshot) {
            return true;
        }
    }
    false
}

fn has_key(snapshot: &Snapshot) -> bool
    ensures { result ≡ spec.has_key snapshot.now }
{
    match member(snapshot.rest.members(), "key-id") {
        Some(key) => !key.is_null(),
        None => false,
    }
}
