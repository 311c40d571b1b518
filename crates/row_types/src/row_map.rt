//! Rows by their ids.

ghost use Rattle.std.specs.Prelude.{◌≡◌, ◌≢◌, ℤ, [], length, OnOk, OnErr};
ghost use Rattle.std.specs.declared.option.Option.TheVariants.{Some};
ghost use Rattle.std.specs.Option.{option_copied};
ghost use Rattle.row_types.specs.RowMap.{IsRising, row_at, with_row};

use crate::cell::Cells;
use lists::Copied;
use std::alloc::{AllocError, Global};
use std::collections::BTreeMap;
use std::collections::btree_map::Iter;
use std::marker::Model;

/// Rows by their ids: of each the sequence number of the last change, and the cells. Contracts see
/// the list of the ids and what stands at each, by rising id.
#[derive(Drop)]
pub struct RowMap {
    rows: BTreeMap<i64, (i64, Cells)>,
}

impl Model for RowMap {
    ghost use Rattle.std.specs.Prelude.{List};
    ghost use Rattle.row_types.specs.RowMap.{NamedRow, IsRising};

    ghost Value = { List NamedRow };

    ghost view = { λ map. map.rows.entries };

    ghost invariant = { λ map. IsRising map.rows.entries };
}

impl RowMap {
    /// The map without rows.
    pub fn new(alloc: Global) -> RowMap
        ensures { result ≡ [] }
    {
        RowMap {
            rows: BTreeMap::new(alloc),
        }
    }

    /// How many rows there are.
    pub fn len(&self) -> usize
        ensures { result ≡ length self.now }
    {
        self.rows.len()
    }

    /// The row with this id. `None`: no row has it.
    pub fn get(&self, id: i64) -> Option<&(i64, Cells)>
        ensures { option_copied result ≡ row_at self.now id }
    {
        self.rows.get(&id)
    }

    /// The ids and the rows, by rising id.
    pub fn iter(&self) -> Iter<'_, i64, (i64, Cells)>
        ensures rest { result ≡ self.now }
        ensures rising { IsRising self.now }
    {
        self.rows.iter()
    }

    /// Puts a row at its id. A row that had the id is gone. An `Err` says that memory ran out.
    pub fn insert(&mut self, id: i64, last: i64, cells: Cells) -> Result<(), AllocError>
        ensures ok { OnOk result (self.new ≡ with_row self.old id (last, cells)) }
        ensures err { OnErr result (self.new ≡ self.old) }
        // What stands at each id then.
        ensures found { OnOk result (row_at self.new id ≡ Some (last, cells)) }
        ensures others { OnOk result ((other : ℤ) → other ≢ id
            → row_at self.new other ≡ row_at self.old other) }
    {
        put(&mut self.rows, id, (last, cells))
    }
}

impl Copied for RowMap {
    fn copy(&self, alloc: Global) -> Result<RowMap, AllocError> {
        let mut rows = BTreeMap::new(alloc);
        for (id, row) in &self.rows {
            put(&mut rows, *id, row.copy(alloc)?)?;
        }
        Ok(RowMap { rows })
    }
}

/// Puts a row at its id.
fn put(rows: &mut BTreeMap<i64, (i64, Cells)>, id: i64, row: (i64, Cells)) -> Result<(), AllocError>
    ensures ok { OnOk result (rows.new.entries ≡ with_row rows.old.entries id row) }
    ensures err { OnErr result (rows.new.entries ≡ rows.old.entries) }
    ensures rising { IsRising rows.new.entries }
    ensures found { OnOk result (row_at rows.new.entries id ≡ Some row) }
    ensures others { OnOk result ((other : ℤ) → other ≢ id
        → row_at rows.new.entries other ≡ row_at rows.old.entries other) }
{
    rows.insert(id, row)?;
    Ok(())
}
