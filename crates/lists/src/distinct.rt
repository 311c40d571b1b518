//! The list whose items have distinct keys.

ghost use Rattle.std.specs.Prelude.{◌≡◌, [], ◌∷◌, ◌++◌, false, length, OnOk, OnErr};
ghost use Rattle.lists.specs.Keys.{has_key, AreDistinctBy};

use crate::keyed::Keyed;
use crate::list::List;
use std::alloc::{AllocError, Global};
use std::collections::BTreeSet;
use std::marker::Model;

/// A list whose items have distinct keys. Contracts see it as the list of its items.
///
/// Beside the items it keeps the set of their keys, so `has` and `push` take the logarithm of their
/// number. Each key is copied once, into the set.
#[derive(Drop)]
pub struct Distinct<T: Keyed> {
    items: Vec<T>,
    keys: BTreeSet<String>,
}

impl<T: Keyed> Model for Distinct<T> {
    ghost use Rattle.std.specs.Prelude.{List};
    ghost use Rattle.std.specs.BTreeSet.{contains_text};
    ghost use Rattle.std.specs.Coded.{coded_list};
    ghost use Rattle.lists.specs.Keys.{IsKeyed};

    ghost Value = { List T };

    ghost coded = { coded_list T.code };

    ghost view = { λ list. list.items.items };

    ghost invariant = { λ list. IsKeyed T.key list.items.items (contains_text list.keys) };
}

impl<T: Keyed> Distinct<T> {
    /// The list without items.
    pub fn new(alloc: Global) -> Distinct<T>
        ensures { result ≡ [] }
    {
        Distinct {
            items: Vec::new(alloc),
            keys: BTreeSet::new(alloc),
        }
    }

    /// How many items there are.
    pub fn len(&self) -> usize
        ensures { result ≡ length self.now }
    {
        self.items.len()
    }

    /// Whether some item has the key.
    pub fn has(&self, key: &str) -> bool
        ensures { result ≡ has_key T.key self.now key.now }
    {
        self.keys.contains(key)
    }

    /// The items, in the order in which they came, borrowed.
    pub fn as_slice(&self) -> &[T]
        ensures value { result.now ≡ self.now }
        ensures distinct { AreDistinctBy T.key self.now }
    {
        self.items.as_slice()
    }

    /// Adds an item at the end. No other item may have its key. An `Err` says that memory ran out.
    pub fn push(&mut self, alloc: Global, item: T) -> Result<(), AllocError>
        requires { has_key T.key self.old (T.key item) ≡ false }
        ensures ok { OnOk result (self.new ≡ self.old ++ item ∷ []) }
        ensures err { OnErr result (self.new ≡ self.old) }
    {
        // Room for the item comes first, so that nothing fails once its key is among the keys.
        self.items.reserve(1)?;
        let key = String::from_str(alloc, item.key())?;
        self.keys.insert(key)?;
        self.items.push_reserved(item);
        Ok(())
    }

    /// The items alone, in the order in which they came.
    pub fn into_list(self) -> List<T>
        ensures value { result ≡ self }
        ensures distinct { AreDistinctBy T.key self }
    {
        let Distinct { items, keys: _ } = self;
        List::from_vec(items)
    }
}
