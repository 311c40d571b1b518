//! The ids of runs, one by one.

ghost use Rattle.std.specs.Prelude.{◌≡◌, ◌==◌, ◌++◌, ◌∷◌, [], ℤ, pos, ◌^◌, ◌≤ℤ◌, ◌<ℤ◌, List, length, MatchOption, All};
ghost use Rattle.lineage_model.specs.Ids.{how_many, ids_of, ids_of_run};
ghost use Rattle.lineage_model.specs.Step.{are_fresh};
ghost use Rattle.history_log.specs.Ids.{rise_within, rise_behind};

use history_types::Run;
use std::marker::Model;

/// The ids of runs, one after the other. Contracts see the list of the ids that are left.
#[derive(Drop)]
pub struct Ids<'a> {
    runs: &'a [Run],
    /// The place of the next run.
    place: usize,
    /// The next id of the run before that one.
    next: i64,
    /// How many ids that run has left; none below 0.
    left: i64,
}

impl<'a> Model for Ids<'a> {
    ghost use Rattle.std.specs.Prelude.{ℤ, List, drop, ◌++◌};
    ghost use Rattle.lineage_model.specs.Ids.{ids_from, how_many, ids_of};

    ghost Value = { List ℤ };

    ghost view = { λ ids. ids_from ids.next (how_many ids.left)
        ++ ids_of (drop ids.place ids.runs.now) };
}

impl<'a> Ids<'a> {
    ghost use Rattle.std.specs.Prelude.{ℤ, List};

    /// All ids of the runs.
    pub fn new(runs: &'a [Run]) -> Ids<'a>
        ensures { result ≡ ids_of runs.now }
    {
        Ids {
            runs,
            place: 0,
            next: 0,
            left: 0,
        }
    }

    /// The next id. None: no id is left.
    pub fn next(&mut self) -> Option<i64>
        requires fits { All (λ id. id <ℤ pos (2 ^ 63)) self.old }
        ensures { MatchOption result (self.old ≡ []) (λ id. self.old ≡ id ∷ self.new) }
    {
        while self.left <= 0 {
            if self.place >= self.runs.len() {
                return None;
            }
            let run = self.runs[self.place];
            self.next = run.first;
            self.left = run.count;
            self.place += 1;
        }
        let id = self.next;
        self.left -= 1;
        if self.left > 0 {
            self.next = id + 1;
        }
        Some(id)
    }
}

/// Whether the runs have so many ids.
pub fn has_count(runs: &[Run], count: usize) -> bool
    ensures { result ≡ (length (ids_of runs.now) == count) }
{
    let mut left = count as u64;
    for run in runs {
        let ids = count_of(run);
        if ids > left {
            return false;
        }
        left -= ids;
    }
    left == 0
}

/// Whether the ids that are named, and then those that are given, rise from the old next id on to
/// below the new one.
pub fn are_fresh(low: Option<i64>, high: Option<i64>, named: &[Run], given: &[Run]) -> bool
    ensures { result ≡ are_fresh low high (ids_of named.now ++ ids_of given.now) }
{
    match (low, high) {
        (Some(low), Some(high)) => rise_within(low, high, named, given),
        _ => false,
    }
}

/// How many ids a run has.
fn count_of(run: &Run) -> u64
    ensures { result ≡ how_many run.now.count }
{
    if run.count > 0 { run.count as u64 } else { 0 }
}

/// Whether the ids of the runs, one list after the other, rise from `low` on to below `high`.
fn rise_within(low: i64, high: i64, named: &[Run], given: &[Run]) -> bool
    ensures { result ≡ rise_within low high (ids_of named.now ++ ids_of given.now) }
{
    let Some(middle) = behind_all(low, named) else {
        return false;
    };
    let Some(last) = behind_all(middle, given) else {
        return false;
    };
    last <= high
}

/// The number after the last id, or `low` if there is none. None: the ids don't rise from `low`
/// on, or the number is no i64.
fn behind_all(low: i64, runs: &[Run]) -> Option<i64>
    ensures { (high : ℤ) (rest : List ℤ) → high <ℤ pos (2 ^ 63)
        → rise_within low high (ids_of runs.now ++ rest) ≡ rise_behind result high rest }
{
    let mut floor = low;
    for run in runs {
        floor = behind(floor, run)?;
    }
    Some(floor)
}

/// The number after the run's last id, or `floor` where it has none. None: the first id is below
/// `floor`, or the number is no i64.
fn behind(floor: i64, run: &Run) -> Option<i64>
    ensures { (high : ℤ) (rest : List ℤ) → high <ℤ pos (2 ^ 63)
        → rise_within floor high (ids_of_run run.now ++ rest) ≡ rise_behind result high rest }
{
    if run.count <= 0 {
        return Some(floor);
    }
    if run.first < floor {
        return None;
    }
    run.first.checked_add(run.count)
}
