//! Bytes of any kind.

ghost use Rattle.std.specs.Prelude.{◌≡◌, IfOk};

use std::alloc::{AllocError, Global};
use std::marker::Model;

/// Bytes, which contracts see as the list of their values. Avro spec, "Binary encoding".
#[derive(Drop)]
pub struct Bytes {
    items: Vec<u8>,
}

impl Model for Bytes {
    ghost use Rattle.std.specs.Prelude.{ℕ, List};

    ghost Value = { List ℕ };

    ghost view = { λ b. b.items.items };
}

impl Bytes {
    /// The bytes of the list. No memory is taken.
    pub fn from_vec(items: Vec<u8>) -> Bytes
        ensures { result ≡ items.items }
    {
        Bytes { items }
    }

    /// The same bytes, in memory of their own. An `Err` says that memory ran out.
    pub fn from_slice(alloc: Global, s: &[u8]) -> Result<Bytes, AllocError>
        ensures { IfOk result (λ b. b ≡ s.now) }
    {
        Ok(Bytes {
            items: Vec::from_slice(alloc, s)?,
        })
    }

    /// The bytes, borrowed.
    pub fn as_slice(&self) -> &[u8]
        ensures { result.now ≡ self.now }
    {
        self.items.as_slice()
    }

    /// The bytes as a list. No memory is taken.
    pub fn into_vec(self) -> Vec<u8>
        ensures { result.items ≡ self }
    {
        self.items
    }

    /// Equal bytes, in memory of their own. An `Err` says that memory ran out.
    pub fn copy(&self, alloc: Global) -> Result<Bytes, AllocError>
        ensures { IfOk result (λ b. b ≡ self.now) }
    {
        Bytes::from_slice(alloc, self.as_slice())
    }
}
