//! Values of which an equal one can be made.

ghost use Rattle.std.specs.Prelude.{◌≡◌, IfOk};

use avro_wire::{Bytes, Text};
use std::alloc::{AllocError, Global};

/// A value of which an equal one can be made.
pub trait Copied: Drop {
    /// An equal value, in memory of its own. An `Err` says that memory ran out.
    fn copy(&self, alloc: Global) -> Result<Self, AllocError>
        ensures { IfOk result (λ copy. copy ≡ self.now) };
}

impl Copied for bool {
    fn copy(&self, _alloc: Global) -> Result<bool, AllocError> {
        Ok(*self)
    }
}

impl Copied for u8 {
    fn copy(&self, _alloc: Global) -> Result<u8, AllocError> {
        Ok(*self)
    }
}

impl Copied for u32 {
    fn copy(&self, _alloc: Global) -> Result<u32, AllocError> {
        Ok(*self)
    }
}

impl Copied for u64 {
    fn copy(&self, _alloc: Global) -> Result<u64, AllocError> {
        Ok(*self)
    }
}

impl Copied for i32 {
    fn copy(&self, _alloc: Global) -> Result<i32, AllocError> {
        Ok(*self)
    }
}

impl Copied for i64 {
    fn copy(&self, _alloc: Global) -> Result<i64, AllocError> {
        Ok(*self)
    }
}

impl Copied for Text {
    fn copy(&self, alloc: Global) -> Result<Text, AllocError> {
        Text::from_str(alloc, self.as_str())
    }
}

impl Copied for Bytes {
    fn copy(&self, alloc: Global) -> Result<Bytes, AllocError> {
        Bytes::from_slice(alloc, self.as_slice())
    }
}

impl<T: Copied> Copied for Option<T> {
    fn copy(&self, alloc: Global) -> Result<Option<T>, AllocError> {
        match self {
            None => Ok(None),
            Some(value) => Ok(Some(value.copy(alloc)?)),
        }
    }
}

impl<A: Copied, B: Copied> Copied for (A, B) {
    fn copy(&self, alloc: Global) -> Result<(A, B), AllocError> {
        Ok((self.0.copy(alloc)?, self.1.copy(alloc)?))
    }
}
