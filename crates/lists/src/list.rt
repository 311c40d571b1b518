//! The list.

ghost use Rattle.std.specs.Prelude.{◌≡◌, [], ◌∷◌, ◌++◌, ◌↔◌, length, slice_get, IsTrue, OnOk, OnErr};
ghost use Rattle.std.specs.Option.{option_copied};

use crate::copied::Copied;
use std::alloc::{AllocError, Global};
use std::marker::Model;

/// A list, which contracts see as the list of its items.
#[derive(Drop)]
pub struct List<T> {
    items: Vec<T>,
}

impl<T> Model for List<T> {
    ghost use Rattle.std.specs.Prelude.{List};
    ghost use Rattle.std.specs.Coded.{coded_list};

    ghost Value = { List T };

    ghost coded = { coded_list T.code };

    ghost view = { λ list. list.items.items };
}

impl<T> List<T> {
    /// The list without items.
    pub fn new(alloc: Global) -> List<T>
        ensures { result ≡ [] }
    {
        List {
            items: Vec::new(alloc),
        }
    }

    /// The list of these items, in their order.
    pub fn from_vec(items: Vec<T>) -> List<T>
        ensures { result ≡ items.items }
    {
        List { items }
    }

    /// The items, in their order.
    pub fn into_vec(self) -> Vec<T>
        ensures { result.items ≡ self }
    {
        self.items
    }

    /// The items, borrowed.
    pub fn as_slice(&self) -> &[T]
        ensures { result.now ≡ self.now }
    {
        self.items.as_slice()
    }

    /// How many items there are.
    pub fn len(&self) -> usize
        ensures { result ≡ length self.now }
    {
        self.items.len()
    }

    /// Whether there is no item.
    pub fn is_empty(&self) -> bool
        ensures { IsTrue result ↔ (self.now ≡ []) }
    {
        self.items.is_empty()
    }

    /// The item at `place`, counted from 0. `None`: there are no more than `place` items.
    pub fn get(&self, place: usize) -> Option<&T>
        ensures { option_copied result ≡ slice_get self.now place }
    {
        self.items.get(place)
    }
}

impl<T: Drop> List<T> {
    /// Adds an item at the end. An `Err` says that memory ran out.
    pub fn push(&mut self, item: T) -> Result<(), AllocError>
        ensures ok { OnOk result (self.new ≡ self.old ++ item ∷ []) }
        ensures err { OnErr result (self.new ≡ self.old) }
    {
        self.items.push(item)?;
        Ok(())
    }
}

impl<T: Copied> Copied for List<T> {
    fn copy(&self, alloc: Global) -> Result<List<T>, AllocError> {
        let mut items = Vec::with_capacity(alloc, self.items.len())?;
        for item in self.items.as_slice() {
            items.push(item.copy(alloc)?)?;
        }
        Ok(List { items })
    }
}
