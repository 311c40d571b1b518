//! Why bytes are no container.

ghost use Rattle.std.specs.Prelude.{◌≡◌};
ghost use Rattle.avro_container.specs.declared.refusal.ContainerRefusal.TheVariants.{Memory};
ghost use Rattle.avro_container.specs.RefusalText.{refusal_text};
ghost use Rattle.refusal_text.specs.Told.{told_text, spaced};

use avro_wire::{Bytes, WireRefusal};
use refusal_text::Told;
use std::alloc::{AllocError, AllocFailed};

/// Why bytes are no container: the first cause in the order of the bytes. Places count bytes from 0,
/// blocks from 1.
#[derive(Drop)]
pub enum ContainerRefusal {
    /// There are more bytes than an object may have. `found` is their number.
    Limit { found: u64 },
    /// The first bytes are not those of a container.
    Magic,
    /// A number of the header's map, or the length of a key or a value, is none; a block's size is
    /// untrue, or its count too large; a key is no text, or is a duplicate; or `avro.schema` is absent.
    /// `place` is where the number or length begins; for an absent schema it is where the marker
    /// begins.
    Header { place: u64 },
    /// The codec is not `null`. `name` is what the header says.
    Codec { name: Bytes },
    /// The input ends inside the item that begins at `place`.
    Short { place: u64 },
    /// The block's count or size is negative or too long.
    Form { block: u64 },
    /// The block's marker differs from the header's.
    Sync { block: u64 },
    /// Memory ran out.
    Memory,
}

impl ContainerRefusal {
    /// The text of the refusal.
    pub fn told(&self) -> Told<'_>
        ensures { told_text result ≡ spaced (refusal_text self.now) }
    {
        match self {
            ContainerRefusal::Limit { found } => Told::number("Object", *found),
            ContainerRefusal::Magic => Told::word("Magic"),
            ContainerRefusal::Header { place } => Told::number("Header", *place),
            ContainerRefusal::Codec { name } => Told::hex("Codec", name),
            ContainerRefusal::Short { place } => Told::number("Short", *place),
            ContainerRefusal::Form { block } => Told::number("Form", *block),
            ContainerRefusal::Sync { block } => Told::number("Sync", *block),
            ContainerRefusal::Memory => Told::nothing(),
        }
    }
}

impl From<AllocError> for ContainerRefusal {
    ghost from_gives = { λ _ e. e ≡ Memory };

    fn from(_e: AllocError) -> ContainerRefusal {
        ContainerRefusal::Memory
    }
}

impl<T: Drop> From<AllocFailed<T>> for ContainerRefusal {
    ghost from_gives = { λ _ e. e ≡ Memory };

    fn from(_e: AllocFailed<T>) -> ContainerRefusal {
        ContainerRefusal::Memory
    }
}
