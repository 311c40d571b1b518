//! A reader of records.

ghost use Rattle.std.specs.Prelude.{◌≡◌, ℕ, Bool, true, List, map, IfOk};
ghost use Rattle.row_types.specs.declared.cell.Cell.{Cell as ACell};
ghost use Rattle.row_types.specs.CellRef.{lent_cell};
ghost use Rattle.objects.specs.Object.{Agrees};
ghost use Rattle.fields.specs.declared.refusal.FieldRefusal.{FieldRefusal as AFieldRefusal};
ghost use Rattle.fields.specs.Record.{IsLayout, IsWide};
ghost use Rattle.records.specs.Record.{Means, value_at};

use fields::{
    Cells, FieldRefusal, Layout, pass_record, record_agrees, take_known_record, take_record,
};
use objects::{Object, Owning};
use row_types::CellRef;
use std::alloc::{AllocError, Global};
use std::marker::PhantomData;

/// What records are: values that are made of their wanted cells.
pub trait FromCells: Drop {
    /// What a record is, in memory of its own.
    type Value: Drop;
    /// Why bytes are no such record.
    type Refusal: Drop;

    /// The value of the cells.
    ghost made: { List ACell → Self.Value };

    /// What a refusal of a record is called.
    ghost refused: { AFieldRefusal → Self.Refusal };

    /// The refusal of bytes after the last record of a block, whose number counts from 1.
    ghost rest: { ℕ → Self.Refusal };

    /// What a refusal of a record is called.
    fn refuse(refusal: FieldRefusal) -> Self::Refusal
        ensures { result ≡ refused refusal };

    /// The refusal of bytes after the last record of the block, whose number counts from 1.
    fn refuse_rest(block: u64) -> Self::Refusal
        ensures { result ≡ rest block };
}

/// Records that can be copied into memory of their own.
pub trait OwnedCells: FromCells {
    /// The refusal says that memory ran out.
    ghost is_memory: { Self.Refusal → Bool };

    /// The value of the cells, in memory of its own.
    fn from_cells(alloc: Global, cells: &[CellRef<'_>]) -> Result<Self::Value, AllocError>
        ensures { IfOk result (λ value. value ≡ Self.made (map lent_cell cells.now)) };

    /// The refusal that says that memory ran out.
    fn refuse_memory() -> Self::Refusal
        ensures { is_memory result ≡ true };
}

/// A reader of the records of a layout.
#[derive(Drop)]
pub struct Records<T: FromCells> {
    pub layout: Layout,
    pub of: PhantomData<T>,
}

impl<'a, T: FromCells> Object<'a> for Records<T> {
    type Slot = Cells<'a>;

    type Value = T::Value;

    type Refusal = T::Refusal;

    ghost at = { λ r. value_at T.made T.refused r.layout.schema r.layout.wanted.items };

    ghost Spells = { λ r. Means T.made r.layout.schema r.layout.wanted.items };

    ghost held = { λ s. T.made (map lent_cell s.wanted.items) };

    ghost right = { λ r. IsLayout r.layout };

    ghost fits = { λ r s. IsWide r.layout s.all.items s.wanted.items };

    ghost rest = { T.rest };

    fn take(
        &self,
        input: &'a [u8],
        place: usize,
        slot: &mut Cells<'a>,
    ) -> Result<usize, T::Refusal> {
        match take_record(&self.layout, input, place, slot) {
            Ok(after) => Ok(after),
            Err(refusal) => Err(T::refuse(refusal)),
        }
    }

    fn pass(&self, input: &'a [u8], place: usize) -> Result<usize, T::Refusal> {
        match pass_record(&self.layout, input, place) {
            Ok(after) => Ok(after),
            Err(refusal) => Err(T::refuse(refusal)),
        }
    }

    fn take_known(&self, input: &'a [u8], place: usize, slot: &mut Cells<'a>) -> usize {
        take_known_record(&self.layout, input, place, slot)
    }

    fn rest_in(&self, block: u64) -> T::Refusal
        ensures { result ≡ T.rest block }
    {
        T::refuse_rest(block)
    }

    fn agrees(&self)
        ensures { Agrees
            (value_at T.made T.refused self.now.layout.schema self.now.layout.wanted.items)
            (Means T.made self.now.layout.schema self.now.layout.wanted.items) }
    {
        record_agrees();
    }
}

impl<'a, T: OwnedCells> Owning<'a> for Records<T> {
    ghost is_memory = { T.is_memory };

    fn own(&self, alloc: Global, slot: &Cells<'a>) -> Result<T::Value, AllocError> {
        T::from_cells(alloc, &slot.wanted)
    }

    fn no_memory(&self) -> T::Refusal
        ensures { T.is_memory result ≡ true }
    {
        T::refuse_memory()
    }
}
