//! The columns of a table.

ghost use Rattle.std.specs.Prelude.{◌≡◌, ◌<◌, [], length, slice_get, IfOk, IfSome, MatchOption, Ok};
ghost use Rattle.std.specs.declared.option.Option.TheVariants.{None};
ghost use Rattle.std.specs.Option.{option_copied};
ghost use Rattle.row_types.specs.Columns.{IsColumns, first_fault, has_id, has_name, has_wrong_id as wrong_id, has_wrong_name as wrong_name, columns_of};

use crate::column::Column;
use avro_wire::Text;
use lists::{Copied, List};
use std::alloc::{AllocError, Global};
use std::marker::Model;

/// The most columns of a table.
const MOST_COLUMNS: usize = 200;

/// The largest id of a column. The ids above are the standard's own.
/// Iceberg spec, "Reserved Field IDs".
const LARGEST_ID: i32 = 2_147_483_447;

/// The most bytes of a name.
const MOST_NAME_BYTES: usize = 255;

/// Why a list is not the columns of a table: the first fault in this order.
#[derive(Drop)]
pub enum ColumnsRefusal {
    /// There is no column, or there are more than 200. `found` is their number.
    Count { found: u64 },
    /// The first id that is below 1, above 2,147,483,447, or that a column before it has.
    Id { id: i32 },
    /// The first name that is empty, longer than 255 bytes, or that a column before it has.
    Name { name: Text },
    /// Memory ran out.
    Memory,
}

impl Copied for ColumnsRefusal {
    fn copy(&self, alloc: Global) -> Result<ColumnsRefusal, AllocError> {
        match self {
            ColumnsRefusal::Count { found } => Ok(ColumnsRefusal::Count { found: *found }),
            ColumnsRefusal::Id { id } => Ok(ColumnsRefusal::Id { id: *id }),
            ColumnsRefusal::Name { name } => Ok(ColumnsRefusal::Name {
                name: name.copy(alloc)?,
            }),
            ColumnsRefusal::Memory => Ok(ColumnsRefusal::Memory),
        }
    }
}

/// The columns of a table, in its order: 1 to 200 columns with ids from 1 to 2,147,483,447 and
/// names of 1 to 255 bytes, each id and each name once. Contracts see the list of them.
/// docs/FORMATS.md, "Limits".
#[derive(Drop)]
pub struct Columns {
    list: List<Column>,
}

impl Model for Columns {
    ghost use Rattle.std.specs.Prelude.{List};
    ghost use Rattle.row_types.specs.declared.column.Column.{Column};
    ghost use Rattle.row_types.specs.Columns.{IsColumns};

    ghost Value = { List Column };

    ghost view = { λ columns. columns.list };

    ghost invariant = { λ columns. IsColumns columns.list };
}

impl Columns {
    /// The list's columns, or the first fault: of their number, then of their ids, then of their
    /// names. No memory is taken, so `Memory` is never answered.
    pub fn from_list(list: Vec<Column>) -> Result<Columns, ColumnsRefusal>
        ensures exact { result ≡ columns_of list.items }
        // The lists that are not refused are just those that are right.
        ensures right { IfOk result IsColumns }
        ensures only { IsColumns list.items → result ≡ Ok list.items }
    {
        check(list)
    }

    /// The columns, borrowed.
    pub fn as_slice(&self) -> &[Column]
        ensures all { result.now ≡ self.now }
        ensures right { IsColumns self.now }
    {
        self.list.as_slice()
    }

    /// How many columns there are.
    pub fn len(&self) -> usize
        ensures { result ≡ length self.now }
    {
        self.list.len()
    }

    /// The column at `place`, counted from 0. `None`: there are no more than `place` columns.
    pub fn get(&self, place: usize) -> Option<&Column>
        ensures { option_copied result ≡ slice_get self.now place }
    {
        self.list.get(place)
    }
}

impl Copied for Columns {
    fn copy(&self, alloc: Global) -> Result<Columns, AllocError> {
        Ok(Columns {
            list: self.list.copy(alloc)?,
        })
    }
}

/// What `from_list` answers.
#[tactic(auto, unfolding(crate::specs::Columns::columns_of))]
fn check(mut list: Vec<Column>) -> Result<Columns, ColumnsRefusal>
    ensures exact { result ≡ columns_of list.items }
    ensures right { IfOk result IsColumns }
{
    let count = list.len();
    if count == 0 || count > MOST_COLUMNS {
        return Err(ColumnsRefusal::Count {
            found: count as u64,
        });
    }
    if let Some(place) = place_of_wrong_id(&list) {
        return Err(ColumnsRefusal::Id { id: list[place].id });
    }
    if let Some(place) = place_of_wrong_name(&list) {
        let column = list.swap_remove(place);
        return Err(ColumnsRefusal::Name { name: column.name });
    }
    Ok(Columns {
        list: List::from_vec(list),
    })
}

/// The place of the first column with a wrong id, counted from 0. `None`: there is none.
fn place_of_wrong_id(columns: &[Column]) -> Option<usize>
    ensures within { IfSome result (λ place. place < length columns.now) }
    ensures value { MatchOption result
        (first_fault wrong_id [] columns.now ≡ None)
        (λ place. first_fault wrong_id [] columns.now ≡ slice_get columns.now place) }
{
    for place in 0..columns.len() {
        if has_wrong_id(&columns[..place], &columns[place]) {
            return Some(place);
        }
    }
    None
}

/// Whether the column's id is wrong after the columns before it.
fn has_wrong_id(before: &[Column], column: &Column) -> bool
    ensures { result ≡ wrong_id before.now column.now }
{
    column.id < 1 || column.id > LARGEST_ID || has_id(before, column.id)
}

/// Whether some column has the id.
fn has_id(columns: &[Column], id: i32) -> bool
    ensures { result ≡ has_id columns.now id }
{
    columns.iter().any(|column| column.id == id)
}

/// The place of the first column with a wrong name, counted from 0. `None`: there is none.
fn place_of_wrong_name(columns: &[Column]) -> Option<usize>
    ensures within { IfSome result (λ place. place < length columns.now) }
    ensures value { MatchOption result
        (first_fault wrong_name [] columns.now ≡ None)
        (λ place. first_fault wrong_name [] columns.now ≡ slice_get columns.now place) }
{
    for place in 0..columns.len() {
        if has_wrong_name(&columns[..place], &columns[place]) {
            return Some(place);
        }
    }
    None
}

/// Whether the column's name is wrong after the columns before it.
fn has_wrong_name(before: &[Column], column: &Column) -> bool
    ensures { result ≡ wrong_name before.now column.now }
{
    let name = column.name.as_str();
    name.is_empty() || name.len() > MOST_NAME_BYTES || has_name(before, name)
}

/// Whether some column has the name.
fn has_name(columns: &[Column], name: &str) -> bool
    ensures { result ≡ has_name columns.now name.now }
{
    columns.iter().any(|column| column.name.as_str() == name)
}
