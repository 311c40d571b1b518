//! What follows from the definitions. Each law is the contract of a function that does nothing.

ghost use Rattle.std.specs.Prelude.{◌≡◌, ◌≢◌, ◌↔◌, ℕ, ℤ, true, All, List, [], ◌++◌, length, map, Some, None, Ok, Err};
ghost use Rattle.std.specs.List.{AllPairs, slice_get};
ghost use Rattle.row_types.specs.RowMap.{UnnamedRow, row_at};
ghost use Rattle.row_types.specs.declared.cell.Cell.{Cell};
ghost use Rattle.history_types.specs.declared.request.Request.TheVariants.{Append};
ghost use Rattle.history_types.specs.declared.entry.Entry.{Entry as AEntry};
ghost use Rattle.history_types.specs.declared.state.State.{State as AState};
ghost use Rattle.lineage_model.specs.Ids.{ids_of};
ghost use Rattle.lineage_model.specs.Rows.{stamped};
ghost use Rattle.lineage_model.specs.Opening.{is_opening};
ghost use Rattle.lineage_model.specs.Step.{gives_ids, ids_given_by, LegalStep, broken_rule, applied};
ghost use Rattle.lineage_model.specs.Tally.{tally_of, rule_broken, counted};
ghost use Rattle.lineage_model.specs.History.{IsHistory, AreLegal, state_after, ids_given, Fault, IsFirstFault, audited, IsBelow, DidNotFall, IsAppend, IsCompaction, IsUpgrade};

use history_types::{Entries, Entry, State};

/// No id is given twice, and each id that was given is below the next one.
/// Iceberg spec, "Row Lineage".
pub fn no_id_is_given_twice(start: &State, entries: &Entries, end: &State)
    requires history { IsHistory start.now entries.now end.now }
    ensures distinct { AllPairs (λ a b. a ≢ b) (ids_given start.now entries.now) }
    ensures below { All (IsBelow end.now.next) (ids_given start.now entries.now) }
{
    let _rows = start.rows.iter();
}

/// The state at the end of a legal history is one that a history may begin with.
pub fn an_end_may_begin_a_history(start: &State, entries: &Entries, end: &State)
    requires history { IsHistory start.now entries.now end.now }
    ensures { is_opening end.now ≡ true }
{}

/// The next id never falls from one point of a history to a later one of the same version.
pub fn next_never_falls(
    start: &State,
    earlier: &Entries,
    middle: &State,
    later: &Entries,
    end: &State,
)
    requires history { IsHistory start.now earlier.now middle.now }
    requires legal { AreLegal middle.now later.now }
    requires state { end.now ≡ state_after middle.now later.now }
    requires version { end.now.version ≡ middle.now.version }
    ensures { DidNotFall middle.now.next end.now.next }
{}

/// A compaction changes no row: each keeps its id, its last change and its cells.
pub fn a_compaction_changes_no_row(before: &State, entry: &Entry, after: &State)
    requires step { LegalStep before.now entry.now after.now }
    requires compaction { IsCompaction entry.now.request }
    ensures rows { after.now.rows ≡ before.now.rows }
    ensures unnamed { before.now.unnamed ≡ [] }
    ensures unnamed_after { after.now.unnamed ≡ [] }
{}

/// An upgrade changes no row.
pub fn an_upgrade_changes_no_row(before: &State, entry: &Entry, after: &State)
    requires step { LegalStep before.now entry.now after.now }
    requires upgrade { IsUpgrade entry.now.request }
    ensures rows { after.now.rows ≡ before.now.rows }
    ensures unnamed { after.now.unnamed ≡ before.now.unnamed }
{}

/// An append leaves each row that has an id as it is.
pub fn an_append_keeps_each_row(
    start: &State,
    entries: &Entries,
    before: &State,
    entry: &Entry,
    after: &State,
)
    requires history { IsHistory start.now entries.now before.now }
    requires step { LegalStep before.now entry.now after.now }
    requires append { IsAppend entry.now.request }
    ensures { (id : ℤ) (row : UnnamedRow) → row_at before.now.rows id ≡ Some row
        → row_at after.now.rows id ≡ Some row }
{}

/// Where ids are given, the rows without id get the named ones in their order, each as it was, and
/// the appended rows the given ones in theirs, changed last at the new sequence number. No other
/// row differs, none is left without an id, and none is lost. Iceberg spec, "Row Lineage".
pub fn rows_get_their_ids_in_order(before: &State, entry: &Entry, after: &State)
    requires step { LegalStep before.now entry.now after.now }
    requires gives { gives_ids before.now entry.now.request ≡ true }
    ensures named { (i : ℕ) (id : ℤ) (row : UnnamedRow)
        → slice_get (ids_of entry.now.named) i ≡ Some id
        → slice_get before.now.unnamed i ≡ Some row
        → row_at after.now.rows id ≡ Some row }
    ensures given { (rows : List (List Cell)) (j : ℕ) (id : ℤ) (cells : List Cell)
        → entry.now.request ≡ Append rows
        → slice_get (ids_of entry.now.given) j ≡ Some id
        → slice_get rows j ≡ Some cells
        → row_at after.now.rows id ≡ Some (after.now.seq, cells) }
    ensures others { (id : ℤ) → All (λ given. given ≢ id) (ids_given_by entry.now)
        → row_at after.now.rows id ≡ row_at before.now.rows id }
    ensures all_named { after.now.unnamed ≡ [] }
    ensures as_many_named { length (ids_of entry.now.named) ≡ length before.now.unnamed }
    ensures as_many_given { (rows : List (List Cell)) → entry.now.request ≡ Append rows
        → length (ids_of entry.now.given) ≡ length rows }
{}

/// An append in version 2 puts its rows after those without id, changed last at the new sequence
/// number, and names no row.
pub fn an_append_of_version_2_names_no_row(before: &State, entry: &Entry, after: &State)
    requires step { LegalStep before.now entry.now after.now }
    requires append { IsAppend entry.now.request }
    requires version { before.now.version ≡ 2 }
    ensures rows { after.now.rows ≡ before.now.rows }
    ensures unnamed { (rows : List (List Cell)) → entry.now.request ≡ Append rows
        → after.now.unnamed ≡ before.now.unnamed ++ map (stamped after.now.seq) rows }
{}

/// The numbers of a state say which rule an entry breaks; and of a legal step from a state that a
/// history may begin with they say the numbers behind it.
pub fn numbers_are_enough()
    ensures rules { (state : AState) (entry : AEntry)
        → rule_broken (tally_of state) entry ≡ broken_rule state entry }
    ensures counted { (state : AState) (entry : AEntry) → is_opening state ≡ true
        → broken_rule state entry ≡ None
        → tally_of (applied state entry) ≡ counted (tally_of state) entry }
    // And a history may begin with the state behind it.
    ensures opening { (state : AState) (entry : AEntry) → is_opening state ≡ true
        → broken_rule state entry ≡ None
        → is_opening (applied state entry) ≡ true }
{}

/// An audit by the definition `audited` ends with a state exactly if the entries are a legal history
/// to that state, and with a fault exactly if that is the first fault of the history.
pub fn an_audit_finds_histories()
    ensures legal { (start : AState) (entries : List AEntry) (end : AState)
        → (audited start entries ≡ Ok end) ↔ IsHistory start entries end }
    ensures illegal { (start : AState) (entries : List AEntry) (fault : Fault)
        → (audited start entries ≡ Err fault) ↔ IsFirstFault start entries fault }
{}
