//! The statistics of a data file.

ghost use Rattle.std.specs.Prelude.{◌≡◌};
ghost use Rattle.file_types.specs.Stats.{no_stats};

use avro_wire::Bytes;
use lists::{Copied, List};
use std::alloc::{AllocError, Global};

/// Numbers by the ids of columns.
pub type Counts = List<(i32, i64)>;

/// Values in Iceberg's binary form, by the ids of columns.
pub type Bounds = List<(i32, Bytes)>;

/// Numbers of 64 bits.
pub type Longs = List<i64>;

/// Numbers of 32 bits.
pub type Ints = List<i32>;

/// What a manifest says of a data file beside what rowline needs. It is carried, and nothing looks
/// into it. `None`: the manifest has no such field, or its value is null. Iceberg spec, "Data File
/// Fields".
#[derive(Drop)]
pub struct Stats {
    /// How many bytes each column takes.
    pub sizes: Option<Counts>,
    /// How many values each column has, nulls included.
    pub values: Option<Counts>,
    /// How many nulls each column has.
    pub nulls: Option<Counts>,
    /// How many NaNs each column has.
    pub nans: Option<Counts>,
    /// A value that no value of the column is below.
    pub lower: Option<Bounds>,
    /// A value that no value of the column is above.
    pub upper: Option<Bounds>,
    /// What a key is needed for.
    pub key: Option<Bytes>,
    /// Where the file may be split: bytes from 0.
    pub splits: Option<Longs>,
    /// The ids of the columns by which an equality delete file finds rows.
    pub equality: Option<Ints>,
    /// The id of the sort order.
    pub order: Option<i32>,
}

impl Stats {
    /// No statistics.
    pub const fn none() -> Stats
        ensures { result ≡ no_stats }
    {
        Stats {
            sizes: None,
            values: None,
            nulls: None,
            nans: None,
            lower: None,
            upper: None,
            key: None,
            splits: None,
            equality: None,
            order: None,
        }
    }
}

impl Copied for Stats {
    fn copy(&self, alloc: Global) -> Result<Stats, AllocError> {
        Ok(Stats {
            sizes: self.sizes.copy(alloc)?,
            values: self.values.copy(alloc)?,
            nulls: self.nulls.copy(alloc)?,
            nans: self.nans.copy(alloc)?,
            lower: self.lower.copy(alloc)?,
            upper: self.upper.copy(alloc)?,
            key: self.key.copy(alloc)?,
            splits: self.splits.copy(alloc)?,
            equality: self.equality.copy(alloc)?,
            order: self.order,
        })
    }
}
