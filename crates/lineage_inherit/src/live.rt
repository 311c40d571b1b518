//! Live entries.

ghost use Rattle.std.specs.Prelude.{◌≡◌};
ghost use Rattle.lineage_inherit.specs.Live as spec;

use file_types::{FileEntry, Status};

/// Whether the entry's file is in the table: the entry isn't `Deleted`.
pub fn is_live(entry: &FileEntry) -> bool
    ensures { result ≡ spec.is_live entry.now }
{
    match entry.status {
        Status::Existing | Status::Added => true,
        Status::Deleted => false,
    }
}
